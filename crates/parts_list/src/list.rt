//! The list of parts.
ghost use Rattle.std.specs.Prelude.{◌≡◌};

use std::alloc::AllocError;
use vl_io::Failed;
use vl_row::Items;

/// One part of a list.
#[derive(Clone, Copy, Debug, PartialEq, Eq)]
pub struct Entry {
    /// The day of the part's rows.
    pub day: u32,
    /// The file that the part stands in.
    pub file: u64,
    /// How many bytes the file has.
    pub bytes: u64,
}

/// The parts that make up a store.
#[derive(Drop)]
pub struct List {
    /// How many lists were written, up to this one.
    pub generation: u64,
    /// How many batches the parts hold.
    pub front: u64,
    /// The file that the next part gets.
    pub next_file: u64,
    /// The parts, in order of day and file.
    pub entries: Items<Entry>,
}

/// Why a list was not written or read.
#[derive(Clone, Copy, Debug, Drop, PartialEq, Eq)]
pub enum ListFault {
    /// The vault failed.
    VaultFault,
    /// Memory ran out.
    Memory,
    /// An open slot has no list.
    Damaged {
        slot: u64,
        /// Where the first damaged item starts.
        at: u64,
    },
    /// An open slot has a list of another version.
    Version {
        slot: u64,
        found: u16,
    },
}

impl From<Failed> for ListFault {
    ghost use Rattle.parts_list.specs.declared.list.ListFault.TheVariants.{VaultFault};

    ghost from_gives = { λ _ fault. fault ≡ VaultFault };

    fn from(_: Failed) -> ListFault {
        ListFault::VaultFault
    }
}

impl From<AllocError> for ListFault {
    ghost use Rattle.parts_list.specs.declared.list.ListFault.TheVariants.{Memory};

    ghost from_gives = { λ _ fault. fault ≡ Memory };

    fn from(_: AllocError) -> ListFault {
        ListFault::Memory
    }
}
