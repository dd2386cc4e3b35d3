//! Why words are not a command.
ghost use Rattle.std.specs.Prelude.{◌≡◌};
ghost use Rattle.clap.specs.Values.{kind_of};
ghost use Rattle.command_line.specs.Faults.{fault_for};
ghost use Rattle.command_line.specs.declared.fault.UsageFault.TheVariants.{Memory};

use clap::error::ErrorKind;
use std::alloc::AllocError;
use std::error::Error;
use std::fmt;

/// Why no command was read.
#[derive(Clone, Copy, Debug, PartialEq, Eq)]
pub enum UsageFault {
    /// The words are not a command.
    Usage,
    /// Memory ran out.
    Memory,
}

impl fmt::Display for UsageFault {
    ghost use Rattle.std.specs.Prelude.{Some};
    ghost use Rattle.command_line.specs.Faults.{fault_text};

    ghost output = { λ fault. Some (fault_text fault) };

    fn fmt<W: fmt::Write>(&self, f: &mut fmt::Formatter<W>) -> fmt::Result {
        f.write_str(match self {
            UsageFault::Usage => "usage: pipe, load, query, trial or serve",
            UsageFault::Memory => "no memory",
        })
    }
}

impl Error for UsageFault {}

impl From<clap::Error> for UsageFault {
    ghost from_gives = { λ error fault. fault ≡ fault_for (kind_of error) };

    fn from(error: clap::Error) -> UsageFault {
        match error.kind() {
            ErrorKind::OutOfMemory => UsageFault::Memory,
            _ => UsageFault::Usage,
        }
    }
}

impl From<AllocError> for UsageFault {
    ghost from_gives = { λ _ fault. fault ≡ Memory };

    fn from(_e: AllocError) -> UsageFault {
        UsageFault::Memory
    }
}
