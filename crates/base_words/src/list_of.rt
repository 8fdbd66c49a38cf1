//! Lists in fields.

ghost use Rattle.std.specs.Prelude.{◌≡◌};

use std::alloc::AllocError;
use std::marker::Model;

/// A list in a field, which contracts see as the values that it holds.
#[derive(Debug, Drop)]
pub struct ListOf<T: Drop> {
    list: Vec<T>,
}

impl<T: Drop> Model for ListOf<T> {
    ghost use Rattle.std.specs.Prelude.{List};

    ghost Value = { List T };

    ghost view = { λ l. l.list.items };
}

impl<T: Drop> ListOf<T> {
    /// The values, in the order in which they were given.
    pub fn as_slice(&self) -> &[T]
        ensures { result.now ≡ self.now }
    {
        self.list.as_slice()
    }
}

impl<T: Drop> From<Vec<T>> for ListOf<T> {
    ghost from_gives = { λ given list. list ≡ given.items };

    fn from(list: Vec<T>) -> ListOf<T> {
        ListOf { list }
    }
}

impl<T: Drop> From<ListOf<T>> for Vec<T> {
    ghost from_gives = { λ list taken. taken.items ≡ list };

    fn from(list: ListOf<T>) -> Vec<T> {
        list.list
    }
}

impl<T: Clone> Clone for ListOf<T> {
    ghost is_clone = { λ list copy. ((x y : T) → T.is_clone x y → y ≡ x) → copy ≡ list };

    fn clone(&self) -> Result<ListOf<T>, AllocError> {
        let alloc = *self.list.allocator();
        Ok(ListOf {
            list: self.list.as_slice().to_vec(alloc)?,
        })
    }
}
