// What the server says to the editor.
ghost use Rattle.std.specs.Prelude.{◌≡◌, ◌++◌, [], ◌∷◌, map, OnOk};

use std::alloc::AllocError;
use std::marker::Model;

/// The body of a message to the editor, which contracts see as the list of its bytes.
#[derive(Debug, Drop)]
pub struct Reply {
    body: Vec<u8>,
}

impl Model for Reply {
    ghost use Rattle.std.specs.Prelude.{ℕ, List};

    ghost Value = { List ℕ };

    ghost view = { λ r. r.body.items };
}

impl Reply {
    /// The reply with this body.
    pub(crate) fn new(body: Vec<u8>) -> Reply
        ensures { result ≡ body.items }
    {
        Reply { body }
    }

    /// The bytes of the body, JSON without line ends.
    pub fn as_bytes(&self) -> &[u8]
        ensures { result.now ≡ self.now }
    {
        self.body.as_slice()
    }
}

/// Adds the reply with this body.
pub fn push(replies: &mut Vec<Reply>, body: Vec<u8>) -> Result<(), AllocError>
    ensures { OnOk result (replies.new.items ≡ replies.old.items ++ body.items ∷ []) }
{
    replies.push(Reply::new(body))?;
    Ok(())
}

/// Adds the replies with these bodies, in order.
pub fn push_all(replies: &mut Vec<Reply>, bodies: Vec<Vec<u8>>) -> Result<(), AllocError>
    ensures { OnOk result (replies.new.items ≡ replies.old.items ++ map (λ body. body.items) bodies.items) }
{
    for body in bodies {
        push(replies, body)?;
    }
    Ok(())
}
