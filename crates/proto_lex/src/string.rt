// Strings: where the one that a quote opens ends.
ghost use Rattle.std.specs.Prelude.{◌≡◌, Bool};
ghost use Rattle.proto_lex.specs.Bytes.{class_of};
ghost use Rattle.proto_lex.specs.Forms.{IsStringRest};
ghost use Rattle.proto_lex.specs.Scanner.{IsLongestFront};
ghost use Rattle.proto_lex.specs.declared.bytes.Class.{Class};

/// Where a string ends, in the bytes after its opening quote, and whether a quote closes it there.
pub fn string_end(bytes: &[u8], quote: u8) -> (usize, bool)
    requires { class_of quote ≡ Class.Quote }
    ensures { IsLongestFront Bool (IsStringRest quote) bytes.now result.0 result.1 }
{
    let mut at = 0;
    while at < bytes.len() {
        let byte = bytes[at];
        if byte == quote {
            return (at + 1, true);
        }
        if byte == b'\n' {
            return (at, false);
        }
        if byte != b'\\' {
            at += 1;
        } else if at + 1 < bytes.len() && bytes[at + 1] != b'\n' {
            at += 2;
        } else {
            return (at + 1, false);
        }
    }
    (at, false)
}
