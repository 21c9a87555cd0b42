// The JSON value of a message's body, and its members.
ghost use Rattle.std.specs.Prelude.{◌≡◌, IfOk, option_map};
ghost use Rattle.serde_json.specs.View.{view};
ghost use Rattle.lsp_rpc.specs.Body.{json_of, has, member_or_null, text_member, natural_member};

use serde_json::Value;
use std::alloc::{AllocError, Global};

// The JSON value of a body, if it is UTF-8 and one JSON text (RFC 8259) that nests at most 127
// deep. Of a key that comes twice in an object the last value counts.
pub fn json_of(alloc: Global, body: &[u8]) -> Result<Option<Value>, AllocError>
    ensures { IfOk result (λ o. option_map view o ≡ json_of body.now) }
{
    match Value::from_slice(alloc, body) {
        Ok(value) => Ok(Some(value)),
        Err(error) => if error.is_memory() {
            Err(AllocError)
        } else {
            Ok(None)
        },
    }
}

// Whether a value is an object that has the member.
pub fn has(value: &Value, name: &str) -> bool
    ensures { result ≡ has name.now (view value.now) }
{
    value.get(name).is_some()
}

// The member, if it is a string.
pub fn text_member<'v>(value: &'v Value, name: &str) -> Option<&'v str>
    ensures { option_map (λ s. s.now) result ≡ text_member name.now (view value.now) }
{
    value.get(name)?.as_str()
}

// The member, if it is a whole number from 0 to 2^64 - 1.
pub fn natural_member(value: &Value, name: &str) -> Option<u64>
    ensures { result ≡ natural_member name.now (view value.now) }
{
    value.get(name)?.as_u64()
}

// The member, or `null` where there is none. The rest of the value is dropped.
pub fn take_member(mut value: Value, name: &str) -> Value
    ensures { view result ≡ member_or_null name.now (view value) }
{
    match value.get_mut(name) {
        Some(member) => member.take(),
        None => Value::Null,
    }
}
