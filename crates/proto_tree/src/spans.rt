// Lists of stretches.
ghost use Rattle.std.specs.Prelude.{◌≡◌, [], ◌∷◌};

use crate::node::Span;
use sqlite_items::Items;
use std::marker::Model;
use std::slice;

// One stretch in the value itself, or any number of them in memory of their own.
#[derive(Debug, Drop)]
enum SpanList {
    One(Span),
    Many(Items<Span>),
}

/// Stretches of the text in order, which contracts see as their list. A single one takes no memory of its own.
#[derive(Debug, Drop)]
pub struct Spans {
    list: SpanList,
}

impl Model for Spans {
    ghost use Rattle.std.specs.Prelude.{List};
    ghost use Rattle.proto_tree.specs.SpanLists.{spans_of};
    ghost use Rattle.proto_tree.specs.declared.node.Span.{Span};

    ghost Value = { List Span };

    ghost view = { λ s. spans_of s.list };
}

impl Spans {
    /// A single stretch.
    pub fn one(span: Span) -> Spans
        ensures { result ≡ span ∷ [] }
    {
        Spans {
            list: SpanList::One(span),
        }
    }

    /// The stretches of a list. If there is one alone, the list's memory is given back.
    pub fn of(list: Items<Span>) -> Spans
        ensures { result ≡ list }
    {
        if let [span] = list.as_slice() {
            return Spans::one(*span);
        }
        Spans {
            list: SpanList::Many(list),
        }
    }

    /// The stretches as a slice. Takes no memory.
    pub fn as_slice(&self) -> &[Span]
        ensures { result.now ≡ self.now }
    {
        match &self.list {
            SpanList::One(span) => slice::from_ref(span),
            SpanList::Many(list) => list.as_slice(),
        }
    }
}
