// A message of JSON-RPC 2.0, read from its body.
ghost use Rattle.std.specs.Prelude.{◌≡◌, IfOk};
ghost use Rattle.serde_json.specs.View.{view};
ghost use Rattle.lsp_rpc.specs.Message.{message_of, message_in, message_view, is_response, is_version_two, names_method, method_of};

use crate::body::{has, json_of, take_member, text_member};
use crate::id::{Id, id_of};
use crate::method::Method;
use serde_json::Value;
use std::alloc::{AllocError, Global};

/// What the body of a message is (JSON-RPC 2.0, sections 4 and 5).
#[derive(Drop)]
pub enum Message {
    /// It is no JSON text, or no UTF-8. The reply has the id `null`.
    ParseError,
    /// It is JSON and neither a call nor a response. The reply has this id, or `null`.
    InvalidRequest {
        id: Option<Id>,
    },
    /// The answer to a request. The server sends no request, so it awaits none.
    Response,
    /// A call that is answered under its id. A method that the server doesn't know is `None`, and
    /// missing params are `Value::Null`.
    Request {
        id: Id,
        method: Option<Method>,
        params: Value,
    },
    /// A call that is never answered, with its method and its params as in a request.
    Notification {
        method: Option<Method>,
        params: Value,
    },
}

impl Message {
    /// What a body is, by the first of these tests that holds: it is no JSON text; it is no object;
    /// it is a response; its id is neither a whole number of 64 bits nor a string; `jsonrpc` is not
    /// "2.0", or `method` no string. Else it is a request where it has an id, and a notification
    /// where it has none. An error is want of memory.
    pub fn parse(alloc: Global, body: &[u8]) -> Result<Message, AllocError>
        ensures { IfOk result (λ m. message_view m ≡ message_of body.now) }
    {
        match json_of(alloc, body)? {
            Some(value) => message_in(alloc, value),
            None => Ok(Message::ParseError),
        }
    }
}

fn message_in(alloc: Global, value: Value) -> Result<Message, AllocError>
    ensures { IfOk result (λ m. message_view m ≡ message_in (view value)) }
{
    if !value.is_object() {
        return Ok(Message::InvalidRequest { id: None });
    }
    if is_response(&value) {
        return Ok(Message::Response);
    }
    let id = id_of(alloc, &value)?;
    if id.is_none() && has(&value, "id") {
        return Ok(Message::InvalidRequest { id: None });
    }
    if !is_version_two(&value) || !names_method(&value) {
        return Ok(Message::InvalidRequest { id });
    }
    let method = method_of(&value);
    let params = take_member(value, "params");
    Ok(match id {
        Some(id) => Message::Request { id, method, params },
        None => Message::Notification { method, params },
    })
}

fn is_response(value: &Value) -> bool
    ensures { result ≡ is_response (view value.now) }
{
    !has(value, "method") && (has(value, "result") || has(value, "error"))
}

fn is_version_two(value: &Value) -> bool
    ensures { result ≡ is_version_two (view value.now) }
{
    text_member(value, "jsonrpc") == Some("2.0")
}

fn names_method(value: &Value) -> bool
    ensures { result ≡ names_method (view value.now) }
{
    text_member(value, "method").is_some()
}

fn method_of(value: &Value) -> Option<Method>
    ensures { result ≡ method_of (view value.now) }
{
    Method::named(text_member(value, "method")?)
}
