//! Why a batch was not committed, and why a swap was refused.
use std::error::Error;
use std::fmt;

/// Why a batch was not committed.
#[derive(Clone, Copy, Debug, PartialEq, Eq)]
pub enum CommitFault {
    /// The shelf already holds 4,096 batches that are not settled, which is the most it takes.
    Full {
        /// How many it holds: 4,096.
        held: u64,
    },
    /// There are 2^63 - 1 batches, and no number for another.
    Spent,
    /// Memory ran out.
    Memory,
}

impl fmt::Display for CommitFault {
    ghost use Rattle.std.specs.Prelude.{Some};
    ghost use Rattle.log_core.specs.Faults.{fault_text};

    ghost output = { λ fault. Some (fault_text fault) };

    fn fmt<W: fmt::Write>(&self, f: &mut fmt::Formatter<W>) -> fmt::Result {
        match self {
            CommitFault::Full { held } => write!(f, "full {held}"),
            CommitFault::Spent => f.write_str("spent"),
            CommitFault::Memory => f.write_str("no memory"),
        }
    }
}

impl Error for CommitFault {}

/// Why a swap was refused.
#[derive(Clone, Copy, Debug, PartialEq, Eq)]
pub enum SwapFault {
    /// More batches are settled than the new front has.
    Behind {
        /// How many are settled.
        settled: u64,
        /// The new front.
        front: u64,
    },
    /// Memory ran out.
    Memory,
}

impl fmt::Display for SwapFault {
    ghost use Rattle.std.specs.Prelude.{Some};
    ghost use Rattle.log_core.specs.Faults.{swap_fault_text};

    ghost output = { λ fault. Some (swap_fault_text fault) };

    fn fmt<W: fmt::Write>(&self, f: &mut fmt::Formatter<W>) -> fmt::Result {
        match self {
            SwapFault::Behind { settled, .. } => write!(f, "behind {settled}"),
            SwapFault::Memory => f.write_str("no memory"),
        }
    }
}

impl Error for SwapFault {}
