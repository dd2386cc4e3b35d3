ghost use Rattle.std.specs.Prelude.{◌≡◌, ◌^◌, ◌↔◌, ◌<◌, IsTrue, Some, [], length, slice_get};
ghost use Rattle.std.specs.Arc.{arc_value};
ghost use Rattle.log_model.specs.Core.{count_of, parts_of};

use crate::state::State;
use std::marker::Model;
use std::sync::Arc;

/// A look at the shared state. It stays as it was, whatever is committed or swapped later.
#[derive(Drop)]
pub struct Snapshot<P> {
    pub(crate) state: Arc<State<P>>,
}

impl<P> Model for Snapshot<P> {
    ghost use Rattle.std.specs.Arc.{arc_value};
    ghost use Rattle.log_model.specs.Core.{Contents};

    ghost Value = { Contents P };

    ghost view = { λ s. arc_value s.state };
}

impl<P> Snapshot<P> {
    /// Returns how many batches there were.
    pub fn front(&self) -> u64
        ensures value { result ≡ count_of self.now }
        ensures small { result < 2 ^ 63 }
    {
        self.state.count()
    }

    /// Returns how many of them, from the first on, were held as day parts.
    pub fn settled(&self) -> u64
        ensures { result ≡ self.now.settled }
    {
        self.state.settled()
    }

    /// Returns how many parts hold them.
    pub fn len(&self) -> usize
        ensures { result ≡ length (parts_of self.now) }
    {
        self.state.len()
    }

    /// Returns whether no part holds a batch.
    pub fn is_empty(&self) -> bool
        ensures { IsTrue result ↔ (parts_of self.now ≡ []) }
    {
        self.state.len() == 0
    }

    /// Returns the part at this place, in constant time: the day parts come first, and then the parts of the other
    /// batches, oldest first.
    pub fn part(&self, i: usize) -> &Arc<P>
        requires { i < length (parts_of self.now) }
        ensures { slice_get (parts_of self.now) i ≡ Some (arc_value result.now) }
    {
        self.state.part(i)
    }
}
