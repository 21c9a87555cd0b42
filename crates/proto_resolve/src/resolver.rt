// What the names of a file are resolved by.
ghost use Rattle.proto_resolve.specs.Views.{IsView};

use crate::index::Index;
use crate::view::View;
use std::alloc::Global;

// All files, and what one of them sees.
#[derive(Drop)]
pub struct Resolver<'a, I: Index> {
    pub alloc: Global,
    pub index: &'a I,
    pub view: &'a View,
    ghost sees: { IsView (I.files index.now) view.now },
}
