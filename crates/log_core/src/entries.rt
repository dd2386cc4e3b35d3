// The shelf as what a lock keeps.
use crate::shelf::Shelf;
use std::collections::LinkedList;
use turn_lock::Stands;
use vl_row::{Held, Row};

/// What an entry of a lock's history has: the rows of one batch, of which there is one at least. Only contracts see it:
/// no value of this type is made.
pub struct EntryRows {
    /// The first row.
    pub first: Row,
    /// The other rows, in their order.
    pub others: LinkedList<Row>,
}

impl<P: Held> Stands for Shelf<P> {
    type Entry = EntryRows;

    ghost use Rattle.log_core.specs.Entries.{newest_in, stands_for, within};

    ghost stands = { stands_for P.numbered };

    ghost marked = { λ shelf. shelf.settled };

    ghost newest = { λ shelf. newest_in P.numbered shelf.unsettled };

    fn count(&self) -> u64 {
        Shelf::count(self)
    }

    fn mark(&self) -> u64 {
        self.settled()
    }

    ghost within = { within P.numbered };
}
