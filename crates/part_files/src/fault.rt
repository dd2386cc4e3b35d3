//! Why a part was not read from its file.
ghost use Rattle.std.specs.Prelude.{◌≡◌};
ghost use Rattle.part_files.specs.Stored.{as_file_fault};

use part_file::PartFault;
use std::alloc::AllocError;
use vl_io::Failed;

/// Why a part was not read from its file.
#[derive(Clone, Copy, Debug, Drop, PartialEq, Eq)]
pub enum FileFault {
    /// The vault failed.
    VaultFault,
    /// The file is not the part that the entry states.
    Damaged {
        /// Where the first damaged item starts.
        at: u64,
    },
    /// The part is of another version.
    Version {
        /// Its version.
        found: u16,
    },
    /// Memory ran out.
    Memory,
}

impl From<Failed> for FileFault {
    ghost use Rattle.part_files.specs.declared.fault.FileFault.TheVariants.{VaultFault};

    ghost from_gives = { λ _ fault. fault ≡ VaultFault };

    fn from(_: Failed) -> FileFault {
        FileFault::VaultFault
    }
}

impl From<AllocError> for FileFault {
    ghost use Rattle.part_files.specs.declared.fault.FileFault.TheVariants.{Memory};

    ghost from_gives = { λ _ fault. fault ≡ Memory };

    fn from(_: AllocError) -> FileFault {
        FileFault::Memory
    }
}

/// Returns the fault of a part as that of its file.
pub(crate) fn fault_of(fault: PartFault) -> FileFault
    ensures { result ≡ as_file_fault fault }
{
    match fault {
        PartFault::Version { found } => FileFault::Version { found },
        PartFault::Damaged { at } => FileFault::Damaged { at },
        PartFault::Memory => FileFault::Memory,
    }
}
