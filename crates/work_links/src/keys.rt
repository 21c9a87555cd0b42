// Full names by hashes.
ghost use Rattle.std.specs.Prelude.{◌≡◌};
ghost use Rattle.work_links.specs.Keys as spec;
ghost use Rattle.proto_decls.specs.FullNames.{behind_dot};

use proto_decls::{FullName, hash_of};

// What stands behind the last dot of a name, or all of it if it has none.
fn last_component(name: &[u8]) -> &[u8]
    ensures { result.now ≡ behind_dot name.now }
{
    match name.iter().rposition(|byte| *byte == b'.') {
        Some(at) => &name[at + 1..],
        None => name,
    }
}

// The lower 32 bits of the hash of a name.
pub fn key(name: &[u8]) -> u32
    ensures { result ≡ spec.key name.now }
{
    (hash_of(name) & 0xFFFF_FFFF) as u32
}

// The lower 32 bits of the hash of a declaration's full name, whose scope isn't read again.
pub fn full_key(name: &FullName) -> u32
    ensures { result ≡ spec.key name.now }
{
    (name.hash() & 0xFFFF_FFFF) as u32
}

/// A full name by two hashes of 32 bits: what stands behind its last dot, and all of it.
#[derive(Clone, Copy)]
pub struct NameKeys {
    pub last: u32,
    pub whole: u32,
}

// The key of what stands behind the last dot of a name.
pub fn last_key(name: &[u8]) -> u32
    ensures { result ≡ spec.last_key name.now }
{
    key(last_component(name))
}

// Both keys of a declaration's full name.
pub fn keys_of(name: &FullName) -> NameKeys
    ensures last { result.last ≡ spec.last_key name.now }
    ensures whole { result.whole ≡ spec.key name.now }
{
    NameKeys {
        last: last_key(name.last().as_bytes()),
        whole: full_key(name),
    }
}
