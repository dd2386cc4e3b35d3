// A value that stands for the list of numbers that it has.
ghost use Rattle.std.specs.Prelude.{◌≡◌, ◌+◌, ◌<◌, ◌≤◌, ◌++◌, ◌∷◌, [], vec_len, OnOk, IfErr};
ghost use Rattle.turn_lock_tests.specs.Room.{room};
ghost use Rattle.turn_lock_tests.specs.Refusal.{Refuses};

use std::alloc::{AllocError, Global};
use turn_lock::Stands;

/// How many numbers a log has room for beyond the settled ones.
const ROOM: u64 = 8_000;

/// Numbers, of which the first n are settled.
#[derive(Drop)]
pub struct Log {
    pub items: Vec<u64>,
    pub settled: u64,
    ghost within: { settled ≤ vec_len items },
    ghost in_room: { vec_len items ≤ settled + room },
}

/// Why a number was not pushed.
#[derive(Debug, Drop)]
pub enum PushFault {
    /// There is no room for numbers that are not settled.
    Full {
        /// How many there are.
        held: u64,
    },
    /// Memory ran out.
    Memory,
}

impl From<AllocError> for PushFault {
    ghost use Rattle.std.specs.Prelude.{◌≡◌};
    ghost use Rattle.turn_lock_tests.specs.declared.log.PushFault.TheVariants.{Memory};

    ghost from_gives = { λ _ e. e ≡ Memory };

    fn from(_: AllocError) -> PushFault {
        PushFault::Memory
    }
}

impl Stands for Log {
    type Entry = u64;

    ghost use Rattle.turn_lock_tests.specs.Log.{stands, marked, newest, within};

    ghost stands = { stands };

    ghost marked = { marked };

    ghost newest = { newest };

    fn count(&self) -> u64 {
        self.items.len() as u64
    }

    fn mark(&self) -> u64 {
        self.settled
    }

    ghost within = { within };
}

impl Log {
    /// Returns a log of no number.
    pub fn empty(alloc: Global) -> Log
        ensures { (result.items.items ≡ []) × (result.settled ≡ 0) }
    {
        Log {
            items: Vec::new(alloc),
            settled: 0,
        }
    }

    /// Appends a number.
    pub fn push(&mut self, number: u64) -> Result<(), PushFault>
        ensures settled { self.new.settled ≡ self.old.settled }
        ensures ok { OnOk result ((self.new.items.items ≡ self.old.items.items ++ number ∷ [])
            × (vec_len self.old.items < self.old.settled + room)) }
        ensures err { IfErr result (λ fault. (self.new.items.items ≡ self.old.items.items)
            × Refuses fault (vec_len self.old.items) self.old.settled) }
    {
        let held = self.items.len() as u64 - self.settled;
        if held >= ROOM {
            return Err(PushFault::Full { held });
        }
        self.items.reserve(1)?;
        self.items.push_reserved(number);
        Ok(())
    }

    /// Settles all numbers.
    pub fn settle(&mut self)
        ensures { (self.new.items.items ≡ self.old.items.items) × (self.new.settled ≡ vec_len self.new.items) }
    {
        self.settled = self.items.len() as u64;
    }
}
