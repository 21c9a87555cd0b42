// Laws of the order in which names stand. Each is proved for all texts, and its function does nothing.
ghost use Rattle.proto_laws.specs.OrderLaws.{NamesAscend, ComponentsAscend, UsesAscend};

use crate::tree_laws::type_names_law;

/// A law: the names of a text start at ascending offsets, and so do their components, put in one list.
pub fn names_in_order()
    ensures names { NamesAscend }
    ensures components { ComponentsAscend }
{
    type_names_law();
}

/// A law: the uses of the names of a text start at ascending offsets, whatever the files declare.
pub fn uses_in_order()
    ensures { UsesAscend }
{
    type_names_law();
}
