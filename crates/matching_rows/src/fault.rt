//! Why the rows that match are not gathered.
ghost use Rattle.std.specs.Prelude.{◌≡◌};

use std::alloc::{AllocError, AllocFailed};

/// Why the rows that match are not gathered.
#[derive(Clone, Copy, Debug, Drop, PartialEq, Eq)]
pub enum MatchFault {
    /// 2^32 rows match, or more.
    ManyRows,
    /// Memory ran out.
    Memory,
}

impl From<AllocError> for MatchFault {
    ghost use Rattle.matching_rows.specs.declared.fault.MatchFault.TheVariants.{Memory};

    ghost from_gives = { λ _ fault. fault ≡ Memory };

    fn from(_: AllocError) -> MatchFault {
        MatchFault::Memory
    }
}

impl<T: Drop> From<AllocFailed<T>> for MatchFault {
    ghost use Rattle.matching_rows.specs.declared.fault.MatchFault.TheVariants.{Memory};

    ghost from_gives = { λ _ fault. fault ≡ Memory };

    fn from(_: AllocFailed<T>) -> MatchFault {
        MatchFault::Memory
    }
}
