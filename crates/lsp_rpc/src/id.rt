// The id of a request.
ghost use Rattle.std.specs.Prelude.{◌≡◌, IfOk, option_map};
ghost use Rattle.serde_json.specs.View.{view};
ghost use Rattle.lsp_rpc.specs.Message.{id_view, id_of, as_id};

use serde_json::Value;
use std::alloc::{AllocError, Global};

/// The id of a request, which its response repeats (JSON-RPC 2.0, section 4).
#[derive(Debug, PartialEq, Drop)]
pub enum Id {
    /// A whole number from -2^63 to 2^63 - 1.
    Number(i64),
    /// A string.
    Text(String),
}

/// The id of a message, or `None` where it is missing, or neither a whole number of 64 bits nor a
/// string.
pub fn id_of(alloc: Global, message: &Value) -> Result<Option<Id>, AllocError>
    ensures { IfOk result (λ o. option_map id_view o ≡ id_of (view message.now)) }
{
    match message.get("id") {
        Some(id) => as_id(alloc, id),
        None => Ok(None),
    }
}

fn as_id(alloc: Global, value: &Value) -> Result<Option<Id>, AllocError>
    ensures { IfOk result (λ o. option_map id_view o ≡ as_id (view value.now)) }
{
    Ok(match value {
        Value::Number(number) => number.as_i64().map(Id::Number),
        Value::String(text) => Some(Id::Text(text.clone()?)),
        _ => None,
    })
}
