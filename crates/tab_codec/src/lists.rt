//! The lists that a frame has.

ghost use Rattle.std.specs.Prelude.{◌≡◌};

use std::marker::Model;

/// A list of a frame. It is made from a `Vec`, and gives it back.
#[derive(Debug, Drop)]
pub struct FrameList<T> {
    items: Vec<T>,
}

impl<T> Model for FrameList<T> {
    ghost use Rattle.std.specs.Prelude.{List, vec_items};

    ghost Value = { List T };

    ghost view = { λ list. list.items.items };
}

impl<T> FrameList<T> {
    pub fn new(items: Vec<T>) -> FrameList<T>
        ensures { result ≡ items.items }
    {
        FrameList { items }
    }

    pub fn as_slice(&self) -> &[T]
        ensures items { result.now ≡ self.now }
    {
        self.items.as_slice()
    }

    /// The list itself; this takes no memory.
    pub fn into_vec(self) -> Vec<T>
        ensures items { result.items ≡ self }
    {
        self.items
    }
}
