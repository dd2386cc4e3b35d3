//! Why a batch was not inserted, and why a round of a keeper ended.
use log_core::CommitFault;
use part_store::StoreFault;
use std::error::Error;
use std::fmt;

/// Why a batch was not inserted.
#[derive(Clone, Copy, Debug, PartialEq, Eq)]
pub enum InsertFault {
    /// As many batches wait to be settled as may.
    Full {
        /// How many wait: 4,096.
        held: u64,
    },
    /// There are 2^63 - 1 batches, and no number for another.
    Spent,
    /// Memory ran out.
    Memory,
}

impl From<CommitFault> for InsertFault {
    ghost use Rattle.std.specs.Prelude.{◌≡◌};
    ghost use Rattle.log_desk.specs.Faults.{fault_of};

    ghost from_gives = { λ fault given. given ≡ fault_of fault };

    fn from(fault: CommitFault) -> InsertFault {
        match fault {
            CommitFault::Full { held } => InsertFault::Full { held },
            CommitFault::Spent => InsertFault::Spent,
            CommitFault::Memory => InsertFault::Memory,
        }
    }
}

impl fmt::Display for InsertFault {
    ghost use Rattle.std.specs.Prelude.{Some};
    ghost use Rattle.log_desk.specs.Faults.{fault_text};

    ghost output = { λ fault. Some (fault_text fault) };

    fn fmt<W: fmt::Write>(&self, f: &mut fmt::Formatter<W>) -> fmt::Result {
        match self {
            InsertFault::Full { held } => write!(f, "full {held}"),
            InsertFault::Spent => f.write_str("spent"),
            InsertFault::Memory => f.write_str("no memory"),
        }
    }
}

impl Error for InsertFault {}

/// Why a round of a keeper ended.
#[derive(Clone, Copy, Debug, PartialEq, Eq)]
pub enum KeepFault {
    /// The vault failed in an earlier round.
    Halted {
        /// The vault's count of faults then.
        fault: u64,
    },
    /// There is no number for another list or for all new parts, or the list would have 2^32 entries or more.
    Spent,
    /// The vault failed.
    VaultFault,
    /// Memory ran out.
    Memory,
}

impl From<StoreFault> for KeepFault {
    ghost use Rattle.std.specs.Prelude.{◌≡◌};
    ghost use Rattle.log_desk.specs.Faults.{keep_fault_of};

    ghost from_gives = { λ fault given. given ≡ keep_fault_of fault };

    fn from(fault: StoreFault) -> KeepFault {
        match fault {
            StoreFault::Halted { fault } => KeepFault::Halted { fault },
            StoreFault::Spent => KeepFault::Spent,
            StoreFault::VaultFault => KeepFault::VaultFault,
            StoreFault::Memory => KeepFault::Memory,
        }
    }
}

impl fmt::Display for KeepFault {
    ghost use Rattle.std.specs.Prelude.{Some};
    ghost use Rattle.log_desk.specs.Faults.{keep_fault_text};

    ghost output = { λ fault. Some (keep_fault_text fault) };

    fn fmt<W: fmt::Write>(&self, f: &mut fmt::Formatter<W>) -> fmt::Result {
        match self {
            KeepFault::Halted { fault } => write!(f, "halted {fault}"),
            KeepFault::Spent => f.write_str("spent"),
            KeepFault::VaultFault => f.write_str("vault failed"),
            KeepFault::Memory => f.write_str("no memory"),
        }
    }
}

impl Error for KeepFault {}
