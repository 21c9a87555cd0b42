// What an editor can do, as it says when it initializes the server.
ghost use Rattle.std.specs.Prelude.{◌≡◌, map, codes, option_map};
ghost use Rattle.serde_json.specs.Find.{get, as_array};
ghost use Rattle.serde_json.specs.View.{view, items_view};
ghost use Rattle.lsp_rpc.specs.Body.{member_or_null};
ghost use Rattle.lsp_rpc.specs.ClientCapabilities as spec;

use crate::encoding::encoding_named;
use doc_text::Encoding;
use serde_json::Value;

/// What an editor can do (Language Server Protocol 3.17, "ClientCapabilities").
#[derive(Clone, Copy, Debug, PartialEq, Eq)]
pub struct ClientCapabilities {
    /// The position encoding, in which both sides count characters: the first of its list that the server knows.
    pub encoding: Encoding,
    /// Whether it asks for diagnostics. If not, they are published.
    pub pulls_diagnostics: bool,
}

impl ClientCapabilities {
    /// What the params of `initialize` say, whatever they are. The encoding is the first of `capabilities.general.positionEncodings`
    /// that is exactly `utf-16`, `utf-8` or `utf-32`. It is UTF-16 if no entry is, or if there is no such array. The editor asks
    /// for diagnostics if `capabilities.textDocument.diagnostic` is there and isn't `null`.
    pub fn from_value(params: &Value) -> ClientCapabilities
        ensures { spec.client_view result ≡ spec.client_of (view params.now) }
    {
        ClientCapabilities {
            encoding: encoding_of(params),
            pulls_diagnostics: pulls_diagnostics(params),
        }
    }
}

fn encoding_of(params: &Value) -> Encoding
    ensures { result ≡ spec.first_encoding (spec.position_encodings (view params.now)) }
{
    match position_encodings(params) {
        Some(entries) => first_encoding(entries.as_slice()),
        None => Encoding::Utf16,
    }
}

fn position_encodings(params: &Value) -> Option<&Vec<Value>>
    ensures { option_map (λ v. items_view v.now.items) result
        ≡ as_array (member_or_null (codes "positionEncodings") (member_or_null (codes "general") (spec.capabilities_of (view params.now)))) }
{
    params
        .get("capabilities")?
        .get("general")?
        .get("positionEncodings")?
        .as_array()
}

// The first encoding that an entry names, or UTF-16 if none of them names one.
fn first_encoding(entries: &[Value]) -> Encoding
    ensures { result ≡ spec.first_encoding (map view entries.now) }
{
    'entries: for entry in entries {
        if let Some(encoding) = encoding_in(entry) {
            return encoding;
        }
    }
    Encoding::Utf16
}

fn encoding_in(entry: &Value) -> Option<Encoding>
    ensures { result ≡ spec.encoding_in (view entry.now) }
{
    encoding_named(entry.as_str()?)
}

fn pulls_diagnostics(params: &Value) -> bool
    ensures { result ≡ spec.pulls_diagnostics (view params.now) }
{
    match diagnostic_capability(params) {
        Some(capability) => !capability.is_null(),
        None => false,
    }
}

fn diagnostic_capability(params: &Value) -> Option<&Value>
    ensures { option_map (λ v. view v.now) result
        ≡ get (codes "diagnostic") (member_or_null (codes "textDocument") (spec.capabilities_of (view params.now))) }
{
    params
        .get("capabilities")?
        .get("textDocument")?
        .get("diagnostic")
}
