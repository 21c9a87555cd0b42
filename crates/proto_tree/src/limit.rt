// Which texts are analysed.
ghost use Rattle.std.specs.Prelude.{◌≡◌};
ghost use Rattle.proto_tree.specs.Read.{is_too_long};

// The longest text that is analysed, in bytes.
const MAX_TEXT: usize = 16_777_216;

/// Whether a text isn't analysed: it has more than 16,777,216 bytes. The tree that counts is then that of the empty text,
/// and the file's one diagnostic is 316. Takes no memory.
pub fn is_too_long(text: &str) -> bool
    ensures { result ≡ is_too_long text.now }
{
    MAX_TEXT < text.len()
}
