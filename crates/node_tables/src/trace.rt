//! Lists that contracts alone see.

ghost use Rattle.std.specs.Prelude.{◌≡◌, ◌++◌, ◌∷◌, []};

use std::marker::Model;
use std::snapshot::Snapshot;

/// What was added so far, as contracts see it. When it runs it is one byte, whatever was added, and none of the items is kept.
#[cycle(trace)]
#[derive(Drop)]
pub struct Trace<T> {
    last: Last<T>,
}

/// What was added last, and what before it.
#[cycle(trace)]
#[derive(Drop)]
enum Last<T> {
    Nothing,
    After(Snapshot<Trace<T>>, Snapshot<T>),
}

impl<T> Model for Trace<T> {
    ghost use Rattle.std.specs.Prelude.{List, length};

    ghost Value = { List T };

    ghost use Rattle.node_tables.specs.Traces.{added};

    ghost view = { λ t. added t.last };

    ghost size = { length };

    ghost use Rattle.std.proofs.Common.{arith, length-append};

    ghost size_decreases = { λ a h. Prim.grind (arith, length-append) };
}

impl<T> Trace<T> {
    /// Nothing was added.
    pub fn new() -> Trace<T>
        ensures { result ≡ [] }
    {
        Trace {
            last: Last::Nothing,
        }
    }

    /// Notes that the item was added. Takes no memory.
    pub fn add(&mut self, item: &T)
        ensures { self.new ≡ self.old ++ item.now ∷ [] }
    {
        let before = Snapshot::of(self);
        self.last = Last::After(before, Snapshot::of(item));
    }
}
