//! Why bytes are not a part.

ghost use Rattle.std.specs.Prelude.{◌≡◌};
ghost use Rattle.part_file.specs.Answers.{part_fault};

use byte_format::Fault;

/// Why bytes are not a part.
#[derive(Clone, Copy, Debug, Drop, PartialEq, Eq)]
pub enum PartFault {
    /// The part is of another version.
    Version {
        /// Its version.
        found: u16,
    },
    /// An item is damaged.
    Damaged {
        /// Where it starts.
        at: u64,
    },
    /// Out of memory.
    Memory,
}

pub(crate) fn fault_of(fault: Fault) -> PartFault
    ensures { result ≡ part_fault fault }
{
    match fault {
        Fault::Damaged { at } => PartFault::Damaged { at: at as u64 },
        Fault::Memory => PartFault::Memory,
    }
}
