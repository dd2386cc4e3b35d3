use std::alloc::AllocError;
use vl_row::Text;

/// Why a record does not get its new fields.
#[derive(Drop)]
pub enum MakeFault {
    /// A number for the field of this name is not a 64-bit integer.
    Overflow { name: Text },
    /// Out of memory.
    Memory,
}

impl From<AllocError> for MakeFault {
    ghost use Rattle.std.specs.Prelude.{◌≡◌};
    ghost use Rattle.row_pipes.specs.declared.fault.MakeFault.TheVariants.{Memory};

    ghost from_gives = { λ _ fault. fault ≡ Memory };

    fn from(_: AllocError) -> MakeFault {
        MakeFault::Memory
    }
}
