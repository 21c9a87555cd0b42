// The names of the position encodings (Language Server Protocol 3.17, "PositionEncodingKind").
ghost use Rattle.std.specs.Prelude.{◌≡◌};
ghost use Rattle.lsp_rpc.specs.Encoding.{encoding_name, encoding_named};

use doc_text::Encoding;

// The name of an encoding.
pub fn encoding_name(encoding: Encoding) -> &'static str
    ensures { result.now ≡ encoding_name encoding }
{
    match encoding {
        Encoding::Utf16 => "utf-16",
        Encoding::Utf8 => "utf-8",
        Encoding::Utf32 => "utf-32",
    }
}

// The encoding with this very name, or `None` if there is none.
pub fn encoding_named(name: &str) -> Option<Encoding>
    ensures { result ≡ encoding_named name.now }
{
    match name {
        "utf-16" => Some(Encoding::Utf16),
        "utf-8" => Some(Encoding::Utf8),
        "utf-32" => Some(Encoding::Utf32),
        _ => None,
    }
}
