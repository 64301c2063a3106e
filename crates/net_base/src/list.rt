//! Lists of values.

ghost use Rattle.std.specs.Prelude.{◌≡◌, ◌++◌, ◌∷◌, [], List, IfOk, OnOk, OnErr, length};

use std::alloc::{AllocError, Global};
use std::marker::Model;

/// A list, which contracts see as the list of its items. Spare room is no part of it.
#[derive(Drop, Debug)]
pub struct ListOf<T> {
    items: Vec<T>,
}

/// A list of bytes.
pub type ByteList = ListOf<u8>;

impl<T> Model for ListOf<T> {
    ghost use Rattle.std.specs.Prelude.{List};

    ghost Value = { List T };

    ghost view = { λ l. l.items.items };
}

impl<T> ListOf<T> {
    /// A list without items. Takes no memory.
    pub fn new(alloc: Global) -> ListOf<T>
        ensures { result ≡ [] }
    {
        ListOf {
            items: Vec::new(alloc),
        }
    }

    /// The list of these items. Takes no memory.
    pub fn from_vec(items: Vec<T>) -> ListOf<T>
        ensures { result ≡ items.items }
    {
        ListOf { items }
    }

    /// The items.
    pub fn as_slice(&self) -> &[T]
        ensures { result.now ≡ self.now }
    {
        self.items.as_slice()
    }

    /// The items, taken out of the list. Takes no memory.
    pub fn into_vec(self) -> Vec<T>
        ensures { result.items ≡ self }
    {
        self.items
    }

    /// How many items there are.
    pub fn len(&self) -> usize
        ensures { result ≡ length self.now }
    {
        self.items.len()
    }
}

impl<T: Drop> ListOf<T> {
    /// Adds an item at the end; an `Err` changes nothing.
    pub fn push(&mut self, item: T) -> Result<(), AllocError>
        ensures ok { OnOk result (self.new ≡ self.old ++ item ∷ []) }
        ensures err { OnErr result (self.new ≡ self.old) }
    {
        self.items.push(item)?;
        Ok(())
    }
}

/// A type whose values can be copied where there is memory.
pub trait TryCopy: Sized + Drop {
    ghost use Rattle.std.specs.Prelude.{◌≡◌, IfOk};

    /// An equal value.
    fn try_copy(&self, alloc: Global) -> Result<Self, AllocError>
        ensures { IfOk result (λ v. v ≡ self.now) };
}

impl<T: Copy> ListOf<T> {
    /// The list of these items.
    pub fn from_slice(alloc: Global, items: &[T]) -> Result<ListOf<T>, AllocError>
        ensures { IfOk result (λ l. l ≡ items.now) }
    {
        Ok(ListOf {
            items: Vec::from_slice(alloc, items)?,
        })
    }

    /// An equal list.
    pub fn copy(&self, alloc: Global) -> Result<ListOf<T>, AllocError>
        ensures { IfOk result (λ l. l ≡ self.now) }
    {
        Ok(ListOf {
            items: Vec::from_slice(alloc, self.as_slice())?,
        })
    }
}

impl<T: Copy> TryCopy for ListOf<T> {
    fn try_copy(&self, alloc: Global) -> Result<ListOf<T>, AllocError> {
        self.copy(alloc)
    }
}

impl<T: TryCopy> ListOf<T> {
    /// An equal list, item by item.
    pub fn copy_each(&self, alloc: Global) -> Result<ListOf<T>, AllocError>
        ensures { IfOk result (λ l. l ≡ self.now) }
    {
        Ok(ListOf::from_vec(copy_items(alloc, self.as_slice())?))
    }
}

fn copy_items<T: TryCopy>(alloc: Global, items: &[T]) -> Result<Vec<T>, AllocError>
    ensures { IfOk result (λ v. v.items ≡ items.now) }
{
    let mut copies = Vec::with_capacity(alloc, items.len())?;
    for item in items {
        copies.push(item.try_copy(alloc)?)?;
    }
    Ok(copies)
}
