//! Where reading stops.
ghost use Rattle.std.specs.Prelude.{◌≡◌};
ghost use Rattle.jsonline_in.specs.declared.scan_fault.ScanFault.TheVariants.{Memory};

use std::alloc::AllocError;

/// Why reading stops, before the line that is read is known.
#[derive(Clone, Copy)]
pub enum ScanFault {
    /// The 65th bracket would be open.
    TooDeep,
    /// No object goes on so. The bytes from there on are left.
    Stuck { left: usize },
    Memory,
}

impl From<AllocError> for ScanFault {
    ghost from_gives = { λ _ e. e ≡ Memory };

    fn from(_e: AllocError) -> ScanFault {
        ScanFault::Memory
    }
}
