//! Errors of the lexer.
ghost use Rattle.std.specs.Prelude.{◌≡◌};
ghost use Rattle.lq_lex.specs.declared.fault.LexFault.TheVariants.{Memory};

use std::alloc::{AllocError, AllocFailed};
use std::error::Error;
use std::fmt;

/// Why a text cannot be split into tokens. The first error in the text is reported, at its byte offset.
#[derive(Clone, Copy, Debug, PartialEq, Eq)]
pub enum LexFault {
    /// The text is longer than 16,384 bytes.
    TooLong,
    /// The quote or backtick at this offset is never closed.
    OpenQuote { at: usize },
    /// The backslash at this offset starts an unknown escape sequence.
    BadEscape { at: usize },
    /// The character at this offset cannot start a token.
    BadChar { at: usize },
    /// Memory ran out.
    Memory,
}

impl fmt::Display for LexFault {
    ghost use Rattle.std.specs.Prelude.{Some};
    ghost use Rattle.lq_lex.specs.Faults.{fault_text};

    ghost output = { λ fault. Some (fault_text fault) };

    fn fmt<W: fmt::Write>(&self, f: &mut fmt::Formatter<W>) -> fmt::Result {
        match self {
            LexFault::TooLong => f.write_str("TooLong"),
            LexFault::OpenQuote { at } => write!(f, "OpenQuote at {at}"),
            LexFault::BadEscape { at } => write!(f, "BadEscape at {at}"),
            LexFault::BadChar { at } => write!(f, "BadChar at {at}"),
            LexFault::Memory => f.write_str("no memory"),
        }
    }
}

impl Error for LexFault {}

impl From<AllocError> for LexFault {
    ghost from_gives = { λ _ e. e ≡ Memory };

    fn from(_e: AllocError) -> LexFault {
        LexFault::Memory
    }
}

impl<T: Drop> From<AllocFailed<T>> for LexFault {
    ghost from_gives = { λ _ e. e ≡ Memory };

    fn from(_e: AllocFailed<T>) -> LexFault {
        LexFault::Memory
    }
}
