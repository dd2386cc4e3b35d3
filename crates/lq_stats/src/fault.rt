use std::alloc::{AllocError, AllocFailed};
use vl_row::Text;

/// Why statistics give no records.
#[derive(Drop)]
pub enum StatFault {
    /// The total of the function of this name is not a 64-bit integer.
    Overflow { name: Text },
    /// Memory is wanting.
    Memory,
}

impl From<AllocError> for StatFault {
    ghost use Rattle.std.specs.Prelude.{◌≡◌};
    ghost use Rattle.lq_stats.specs.declared.fault.StatFault.TheVariants.{Memory};

    ghost from_gives = { λ _ fault. fault ≡ Memory };

    fn from(_: AllocError) -> StatFault {
        StatFault::Memory
    }
}

impl<T: Drop> From<AllocFailed<T>> for StatFault {
    ghost use Rattle.std.specs.Prelude.{◌≡◌};
    ghost use Rattle.lq_stats.specs.declared.fault.StatFault.TheVariants.{Memory};

    ghost from_gives = { λ _ fault. fault ≡ Memory };

    fn from(_: AllocFailed<T>) -> StatFault {
        StatFault::Memory
    }
}
