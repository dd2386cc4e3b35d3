//! Why arguments ask for nothing that can be done.
ghost use Rattle.std.specs.Prelude.{◌≡◌};
ghost use Rattle.ingest_row.specs.declared.fault.OptionFault.TheVariants.{Memory};

use std::alloc::AllocError;
use std::error::Error;
use std::fmt;

/// Why the arguments of a request are not options.
#[derive(Clone, Copy, Debug, PartialEq, Eq)]
pub enum OptionFault {
    /// A piece of `extra_fields` has no `=`, or no name before it.
    BadExtra,
    /// Memory ran out.
    Memory,
}

impl fmt::Display for OptionFault {
    ghost use Rattle.std.specs.Prelude.{Some};
    ghost use Rattle.ingest_row.specs.Asked.{fault_text};

    ghost output = { λ fault. Some (fault_text fault) };

    fn fmt<W: fmt::Write>(&self, f: &mut fmt::Formatter<W>) -> fmt::Result {
        f.write_str(match self {
            OptionFault::BadExtra => "BadExtra",
            OptionFault::Memory => "no memory",
        })
    }
}

impl Error for OptionFault {}

impl From<AllocError> for OptionFault {
    ghost from_gives = { λ _ e. e ≡ Memory };

    fn from(_e: AllocError) -> OptionFault {
        OptionFault::Memory
    }
}
