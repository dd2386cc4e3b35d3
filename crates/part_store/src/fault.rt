//! Why a store was not reopened, or its parts were not replaced.
ghost use Rattle.std.specs.Prelude.{◌≡◌};
ghost use Rattle.part_store.specs.Reopening.{as_reopen_fault, file_reopen_fault};

use part_files::FileFault;
use parts_list::ListFault;
use std::alloc::AllocError;
use vl_io::Failed;

/// Why a store was not reopened.
#[derive(Clone, Copy, Debug, Drop, PartialEq, Eq)]
pub enum ReopenFault {
    /// The vault failed.
    VaultFault,
    /// A slot has no list, or a file that the list names is not a part of its day.
    Damaged {
        file: u64,
        /// Where the first damaged item starts.
        at: u64,
    },
    /// A list or a part is of another version.
    Version {
        file: u64,
        found: u16,
    },
    /// Memory ran out.
    Memory,
}

/// Why parts were not replaced.
#[derive(Clone, Copy, Debug, Drop, PartialEq, Eq)]
pub enum StoreFault {
    /// The vault failed in an earlier call.
    Halted {
        /// The vault's count of faults then.
        fault: u64,
    },
    /// There is no number for another list or for all new parts, or the list would have 2^32 entries.
    Spent,
    /// The vault failed.
    VaultFault,
    /// Memory ran out.
    Memory,
}

impl From<Failed> for ReopenFault {
    ghost use Rattle.part_store.specs.declared.fault.ReopenFault.TheVariants.{VaultFault};

    ghost from_gives = { λ _ fault. fault ≡ VaultFault };

    fn from(_: Failed) -> ReopenFault {
        ReopenFault::VaultFault
    }
}

impl From<AllocError> for ReopenFault {
    ghost use Rattle.part_store.specs.declared.fault.ReopenFault.TheVariants.{Memory};

    ghost from_gives = { λ _ fault. fault ≡ Memory };

    fn from(_: AllocError) -> ReopenFault {
        ReopenFault::Memory
    }
}

/// Returns the fault of a list, as that of a store.
pub(crate) fn list_fault(fault: ListFault) -> ReopenFault
    ensures { result ≡ as_reopen_fault fault }
{
    match fault {
        ListFault::VaultFault => ReopenFault::VaultFault,
        ListFault::Memory => ReopenFault::Memory,
        ListFault::Damaged { slot, at } => ReopenFault::Damaged { file: slot, at },
        ListFault::Version { slot, found } => ReopenFault::Version { file: slot, found },
    }
}

/// Returns the fault of a file, as that of a store.
pub(crate) fn file_fault(file: u64, fault: FileFault) -> ReopenFault
    ensures { result ≡ file_reopen_fault file fault }
{
    match fault {
        FileFault::VaultFault => ReopenFault::VaultFault,
        FileFault::Memory => ReopenFault::Memory,
        FileFault::Damaged { at } => ReopenFault::Damaged { file, at },
        FileFault::Version { found } => ReopenFault::Version { file, found },
    }
}
