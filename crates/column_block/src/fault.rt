//! Why bytes are not a block.

ghost use Rattle.std.specs.Prelude.{◌≡◌};
ghost use Rattle.column_block.specs.Answers.{block_fault};

use byte_format::Fault;

/// Why bytes are not a block.
#[derive(Clone, Copy, Debug, Drop, PartialEq, Eq)]
pub enum BlockFault {
    /// An item is damaged.
    Damaged {
        /// Where it starts.
        at: u64,
    },
    /// Out of memory.
    Memory,
}

pub(crate) fn fault_of(fault: Fault) -> BlockFault
    ensures { result ≡ block_fault fault }
{
    match fault {
        Fault::Damaged { at } => BlockFault::Damaged { at: at as u64 },
        Fault::Memory => BlockFault::Memory,
    }
}
