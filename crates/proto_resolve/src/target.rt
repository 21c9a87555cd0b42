// What names mean.
ghost use Rattle.std.specs.Prelude.{◌≡◌, IfOk};

use proto_decls::Name;
use proto_names::DeclRef;
use std::alloc::{AllocError, Global};

/// What a name refers to.
#[derive(Debug, Drop)]
pub enum Target {
    /// A declaration.
    Declared(DeclRef),
    /// A package, by its full name.
    Package(Name),
}

impl Target {
    /// The same, in memory of its own. An `Err` comes only where memory was refused.
    pub fn copy(&self, alloc: Global) -> Result<Target, AllocError>
        ensures { IfOk result (λ t. t ≡ self.now) }
    {
        match self {
            Target::Declared(decl) => Ok(Target::Declared(*decl)),
            Target::Package(name) => Ok(Target::Package(name.copy(alloc)?)),
        }
    }
}
