//! Lists that contracts see as lists.
ghost use Rattle.std.specs.Prelude.{◌≡◌, IfOk};

use std::alloc::{AllocError, Global};
use std::marker::Model;

/// The items of a `Vec`, which contracts see as the list alone.
#[derive(Debug)]
pub struct Listing<T> {
    items: Vec<T>,
}

// Written out, as a derived one is proved again in each crate above.
impl<T: Drop> Drop for Listing<T> {
    fn drop(self) {
        let Listing { items: _ } = self;
    }
}

impl<T> Model for Listing<T> {
    ghost use Rattle.std.specs.Prelude.{List};

    ghost Value = { List T };

    ghost view = { λ l. l.items.items };
}

impl<T> Listing<T> {
    /// Takes the items without taking memory.
    pub fn from_vec(items: Vec<T>) -> Listing<T>
        ensures { result ≡ items.items }
    {
        Listing { items }
    }

    /// Gives the items back without taking memory.
    pub fn into_vec(self) -> Vec<T>
        ensures { result.items ≡ self }
    {
        let Listing { items } = self;
        items
    }

    /// The items in order.
    pub fn as_slice(&self) -> &[T]
        ensures { result.now ≡ self.now }
    {
        &self.items
    }
}

impl<T: Copy> Listing<T> {
    /// An equal list.
    pub fn copy(&self, alloc: Global) -> Result<Listing<T>, AllocError>
        ensures { IfOk result (λ list. list ≡ self.now) }
    {
        let mut items = Vec::with_capacity(alloc, self.items.len())?;
        for item in &self.items {
            items.push(*item)?;
        }
        Ok(Listing { items })
    }
}
