use std::alloc::{AllocError, AllocFailed};

/// Why a filter or a pipe fails.
#[derive(Clone, Copy, PartialEq, Eq, Debug, Drop)]
pub enum PlainFault {
    /// A regular expression is invalid.
    Unreadable,
    /// Memory ran out.
    Memory,
}

impl From<AllocError> for PlainFault {
    ghost use Rattle.std.specs.Prelude.{◌≡◌};
    ghost use Rattle.lq_plain.specs.declared.fault.PlainFault.TheVariants.{Memory};

    ghost from_gives = { λ _ fault. fault ≡ Memory };

    fn from(_: AllocError) -> PlainFault {
        PlainFault::Memory
    }
}

impl<T: Drop> From<AllocFailed<T>> for PlainFault {
    ghost use Rattle.std.specs.Prelude.{◌≡◌};
    ghost use Rattle.lq_plain.specs.declared.fault.PlainFault.TheVariants.{Memory};

    ghost from_gives = { λ _ fault. fault ≡ Memory };

    fn from(_: AllocFailed<T>) -> PlainFault {
        PlainFault::Memory
    }
}
