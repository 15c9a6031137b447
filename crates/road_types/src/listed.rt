// A vector that contracts see as the list of its items.
ghost use Rattle.std.specs.Prelude.{◌≡◌, length};

use std::marker::Model;

/// The items of a road or a plan, in order; contracts see the list itself.
#[derive(Debug, Drop)]
pub struct Listed<T> {
    items: Vec<T>,
}

impl<T> Model for Listed<T> {
    ghost use Rattle.std.specs.Prelude.{List};
    ghost use Rattle.std.specs.Coded.{coded_list};

    ghost Value = { List T };

    ghost coded = { coded_list T.code };

    ghost view = { λ a. a.items.items };
}

impl<T> Listed<T> {
    /// Takes the items of a vector over, without taking memory.
    pub fn new(items: Vec<T>) -> Self
        ensures { result ≡ items.items }
    {
        Listed { items }
    }

    /// The items as a slice.
    pub fn as_slice(&self) -> &[T]
        ensures { result.now ≡ self.now }
    {
        self.items.as_slice()
    }

    /// Gives the vector back, without taking memory.
    pub fn into_vec(self) -> Vec<T>
        ensures { result.items ≡ self }
    {
        self.items
    }

    /// The number of items.
    pub fn len(&self) -> usize
        ensures { result ≡ length self.now }
    {
        self.items.len()
    }
}
