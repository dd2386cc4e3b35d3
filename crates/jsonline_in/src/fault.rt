//! Why a line was not read.
ghost use Rattle.std.specs.Prelude.{◌≡◌};
ghost use Rattle.jsonline_in.specs.declared.fault.JsonFault.TheVariants.{Memory};

use std::alloc::AllocError;
use std::error::Error;
use std::fmt;

/// Why a line was not read: the first of these that holds of it.
#[derive(Clone, Copy, Debug, PartialEq, Eq)]
pub enum JsonFault {
    /// The line is not UTF-8 after this many bytes.
    NotUtf8 { at: usize },
    /// The first byte that is not white space is no `{`, or there is none.
    NotObject,
    /// More than 64 arrays and objects are open at one place.
    TooDeep,
    /// No object begins with more than this many bytes of the line, or the line is cut.
    NotJson { at: usize },
    /// Memory ran out.
    Memory,
}

impl fmt::Display for JsonFault {
    ghost use Rattle.std.specs.Prelude.{Some};
    ghost use Rattle.jsonline_in.specs.Faults.{fault_text};

    ghost output = { λ fault. Some (fault_text fault) };

    fn fmt<W: fmt::Write>(&self, f: &mut fmt::Formatter<W>) -> fmt::Result {
        match self {
            JsonFault::NotUtf8 { at } => write!(f, "NotUtf8 at {at}"),
            JsonFault::NotObject => write!(f, "NotObject"),
            JsonFault::TooDeep => write!(f, "TooDeep"),
            JsonFault::NotJson { at } => write!(f, "NotJson at {at}"),
            JsonFault::Memory => write!(f, "no memory"),
        }
    }
}

impl Error for JsonFault {}

impl From<AllocError> for JsonFault {
    ghost from_gives = { λ _ e. e ≡ Memory };

    fn from(_e: AllocError) -> JsonFault {
        JsonFault::Memory
    }
}
