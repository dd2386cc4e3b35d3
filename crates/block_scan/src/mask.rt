//! Masks of the rows of a block.

ghost use Rattle.std.specs.Prelude.{◌≡◌, ◌<◌, Some, length, slice_get};

use std::marker::Model;

/// For each row of a block, whether a filter holds.
///
/// A contract sees it as the list of these.
#[derive(Drop)]
pub struct Mask {
    marks: Vec<bool>,
}

impl Model for Mask {
    ghost use Rattle.std.specs.Prelude.{List, Bool};

    ghost Value = { List Bool };

    ghost view = { λ mask. mask.marks.items };
}

impl Mask {
    pub(crate) fn new(marks: Vec<bool>) -> Mask
        ensures { result ≡ marks.items }
    {
        Mask { marks }
    }

    /// Returns how many rows there are.
    pub fn len(&self) -> usize
        ensures { result ≡ length self.now }
    {
        self.marks.len()
    }

    /// Returns whether the filter holds for the row at this place, counted from 0.
    pub fn at(&self, i: usize) -> bool
        requires { i < length self.now }
        ensures { slice_get self.now i ≡ Some result }
    {
        self.marks[i]
    }

    /// Lends what holds of each row.
    pub fn as_slice(&self) -> &[bool]
        ensures { result.now ≡ self.now }
    {
        self.marks.as_slice()
    }
}
