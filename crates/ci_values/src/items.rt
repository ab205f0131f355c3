//! Lists, which contracts see as their items.

ghost use Rattle.std.specs.Prelude.{◌≡◌};
ghost use Rattle.std.specs.List.{AllZip};

use std::alloc::AllocError;
use std::marker::Model;

/// A list, seen as its items.
#[derive(Drop)]
pub struct Items<T> {
    items: Vec<T>,
}

impl<T> Model for Items<T> {
    ghost use Rattle.std.specs.Prelude.{List};

    ghost Value = { List T };

    ghost view = { λ l. l.items.items };
}

impl<T> Items<T> {
    /// The items that a `Vec` holds.
    pub fn new(items: Vec<T>) -> Items<T>
        ensures { result ≡ items.items }
    {
        Items { items }
    }

    /// The items, lent.
    pub fn as_slice(&self) -> &[T]
        ensures { result.now ≡ self.now }
    {
        self.items.as_slice()
    }

    /// The list of the items.
    pub fn into_vec(self) -> Vec<T>
        ensures { result.items ≡ self }
    {
        let Items { items } = self;
        items
    }
}

impl<T: Clone> Clone for Items<T> {
    ghost is_clone = { λ old new. AllZip T.is_clone old new };

    fn clone(&self) -> Result<Items<T>, AllocError> {
        let items = self.items.clone()?;
        Ok(Items { items })
    }
}
