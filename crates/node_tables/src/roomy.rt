//! Lists with room for more.

ghost use Rattle.std.specs.Prelude.{◌≡◌, ◌++◌, ◌∷◌, [], ◌<◌, ◌+◌, OnOk};

use std::alloc::{AllocError, Global};
use std::marker::Model;

/// A list with room for more.
#[derive(Debug, Drop)]
pub struct Roomy<T> {
    items: Vec<T>,
}

impl<T> Model for Roomy<T> {
    ghost use Rattle.std.specs.Prelude.{◌-◌, vec_len, vec_capacity};
    ghost use Rattle.node_tables.specs.Journals.{Listed};

    ghost Value = { Listed T };

    ghost view = { λ l. record {
      items = l.items.items;
      room = vec_capacity l.items - vec_len l.items;
    } };
}

impl<T> Roomy<T> {
    /// A list without items. Takes no memory.
    pub fn new(alloc: Global) -> Roomy<T>
        ensures { result.items ≡ [] }
    {
        Roomy {
            items: Vec::new(alloc),
        }
    }

    /// Makes room for one more item.
    pub fn make_room(&mut self) -> Result<(), AllocError>
        ensures items { self.new.items ≡ self.old.items }
        ensures room { OnOk result (0 < self.new.room) }
    {
        self.items.reserve(1)
    }

    /// The items.
    pub fn as_slice(&self) -> &[T]
        ensures { result.now ≡ self.now.items }
    {
        self.items.as_slice()
    }
}

impl<T: Drop> Roomy<T> {
    /// Adds an item in the room that was made.
    pub fn add(&mut self, item: T)
        requires { 0 < self.old.room }
        ensures { self.new.items ≡ self.old.items ++ item ∷ [] }
    {
        self.items.push(item).unwrap();
    }
}
