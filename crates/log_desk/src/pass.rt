//! The token of one caller.
ghost use Rattle.std.specs.Prelude.{◌≡◌, length};

use log_core::Shelf;
use part_file::Part;
use std::marker::Model;

/// The token of one caller of a desk.
///
/// Contracts see in it which front of the history its caller has seen, which entries of that the caller made, and how
/// many of them were settled. The program sees how long that front is, and how much of it was settled.
#[derive(Drop)]
pub struct Pass {
    pub(crate) at_lock: turn_lock::Pass<Shelf<Part>>,
    pub(crate) front: u64,
    pub(crate) settled: u64,
}

impl Model for Pass {
    ghost use Rattle.std.specs.Prelude.{◌≡◌, length};
    ghost use Rattle.turn_lock.specs.Passes.{PassState};
    ghost use Rattle.log_core.specs.declared.entries.EntryRows.{EntryRows};

    ghost Value = { PassState EntryRows };

    ghost view = { λ p. p.at_lock };

    ghost invariant = { λ p. (p.front ≡ length p.at_lock.seen) × (p.settled ≡ p.at_lock.mark) };
}

impl Pass {
    /// Returns how many batches the front of the history has that the caller has seen. It takes no turn.
    pub fn front(&self) -> u64
        ensures { result ≡ length self.now.seen }
    {
        self.front
    }

    /// Returns how many of these batches were settled, as far as the caller has seen. It takes no turn.
    pub fn settled(&self) -> u64
        ensures { result ≡ self.now.mark }
    {
        self.settled
    }
}
