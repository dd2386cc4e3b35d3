use std::alloc::{AllocError, AllocFailed};

/// Why a query is not prepared.
#[derive(Clone, Copy, PartialEq, Eq, Debug, Drop)]
pub enum PrepareFault {
    /// The regular expression with this number, counted from 0 in the order of the text, is the first that cannot be
    /// read.
    RegexRefused { nth: u32 },
    /// Memory is wanting.
    Memory,
}

impl From<AllocError> for PrepareFault {
    ghost use Rattle.std.specs.Prelude.{◌≡◌};
    ghost use Rattle.lq_filter.specs.declared.fault.PrepareFault.TheVariants.{Memory};

    ghost from_gives = { λ _ fault. fault ≡ Memory };

    fn from(_: AllocError) -> PrepareFault {
        PrepareFault::Memory
    }
}

impl<T: Drop> From<AllocFailed<T>> for PrepareFault {
    ghost use Rattle.std.specs.Prelude.{◌≡◌};
    ghost use Rattle.lq_filter.specs.declared.fault.PrepareFault.TheVariants.{Memory};

    ghost from_gives = { λ _ fault. fault ≡ Memory };

    fn from(_: AllocFailed<T>) -> PrepareFault {
        PrepareFault::Memory
    }
}
