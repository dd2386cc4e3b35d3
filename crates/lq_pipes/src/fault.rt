use lq_filter::PrepareFault;
use lq_stats::StatFault;
use row_pipes::MakeFault;
use std::alloc::{AllocError, AllocFailed};
use vl_row::Text;

/// Why pipes give no records.
#[derive(Drop)]
pub enum PipeFault {
    /// The regular expression with this number, counted from 0 in the order of the pipes' text, is the first that
    /// cannot be read.
    RegexRefused { nth: u32 },
    /// The total of the function of `stats` with this name, or a number of `math` for the field of this name, is not a
    /// 64-bit integer.
    Overflow { name: Text },
    /// Out of memory.
    Memory,
}

impl From<AllocError> for PipeFault {
    ghost use Rattle.std.specs.Prelude.{◌≡◌};
    ghost use Rattle.lq_pipes.specs.declared.fault.PipeFault.TheVariants.{Memory};

    ghost from_gives = { λ _ fault. fault ≡ Memory };

    fn from(_: AllocError) -> PipeFault {
        PipeFault::Memory
    }
}

impl<T: Drop> From<AllocFailed<T>> for PipeFault {
    ghost use Rattle.std.specs.Prelude.{◌≡◌};
    ghost use Rattle.lq_pipes.specs.declared.fault.PipeFault.TheVariants.{Memory};

    ghost from_gives = { λ _ fault. fault ≡ Memory };

    fn from(_: AllocFailed<T>) -> PipeFault {
        PipeFault::Memory
    }
}

impl From<PrepareFault> for PipeFault {
    ghost use Rattle.std.specs.Prelude.{◌≡◌};
    ghost use Rattle.lq_pipes.specs.Faults.{of_preparing};

    ghost from_gives = { λ fault made. made ≡ of_preparing fault };

    fn from(fault: PrepareFault) -> PipeFault {
        match fault {
            PrepareFault::RegexRefused { nth } => PipeFault::RegexRefused { nth },
            PrepareFault::Memory => PipeFault::Memory,
        }
    }
}

impl From<StatFault> for PipeFault {
    ghost use Rattle.std.specs.Prelude.{◌≡◌};
    ghost use Rattle.lq_pipes.specs.Faults.{of_statistics};

    ghost from_gives = { λ fault made. made ≡ of_statistics fault };

    fn from(fault: StatFault) -> PipeFault {
        match fault {
            StatFault::Overflow { name } => PipeFault::Overflow { name },
            StatFault::Memory => PipeFault::Memory,
        }
    }
}

impl From<MakeFault> for PipeFault {
    ghost use Rattle.std.specs.Prelude.{◌≡◌};
    ghost use Rattle.lq_pipes.specs.Faults.{of_making};

    ghost from_gives = { λ fault made. made ≡ of_making fault };

    fn from(fault: MakeFault) -> PipeFault {
        match fault {
            MakeFault::Overflow { name } => PipeFault::Overflow { name },
            MakeFault::Memory => PipeFault::Memory,
        }
    }
}
