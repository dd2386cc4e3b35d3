// Why a text is not a query.
ghost use Rattle.std.specs.Prelude.{◌≡◌};
ghost use Rattle.lq_grammar.specs.Clauses.{lex_fault};
ghost use Rattle.lq_grammar.specs.declared.fault.QueryFault.TheVariants.{Memory as OutOfMemory};
ghost use Rattle.lq_grammar.specs.declared.fault.Stop.TheVariants.{Memory};

use lq_lex::LexFault;
use std::alloc::{AllocError, AllocFailed};
use std::error::Error;
use std::fmt;

/// Why a text is not a query (LogsQL, "Query syntax"). A text that has tokens is refused for the leftmost of the faults
/// of its grammar, which name the first token of their item; of two at one place it is the one that stands first here.
/// Places count bytes.
#[derive(Clone, Copy, Debug, PartialEq, Eq)]
pub enum QueryFault {
    /// The text has no tokens.
    Lex(LexFault),
    /// No query's tokens begin with those up to the one there, or none ends there.
    Syntax { at: usize },
    /// The parenthesis or negation there is the 65th that is open at its place.
    TooDeep { at: usize },
    /// The argument there is not a number of its kind.
    BadNumber { at: usize },
    /// The time there is neither a duration nor a bound in range.
    BadTime { at: usize },
    /// The duration there is too long or stands inside brackets, or the step of a key there is zero or no duration.
    BadDuration { at: usize },
    /// The text there is not a pattern.
    BadPattern { at: usize },
    /// Memory ran out.
    Memory,
}

impl fmt::Display for QueryFault {
    ghost use Rattle.std.specs.Prelude.{Some};
    ghost use Rattle.lq_grammar.specs.Faults.{fault_text};

    ghost output = { λ fault. Some (fault_text fault) };

    fn fmt<W: fmt::Write>(&self, f: &mut fmt::Formatter<W>) -> fmt::Result {
        match self {
            QueryFault::Lex(fault) => write!(f, "{fault}"),
            QueryFault::Syntax { at } => write!(f, "Syntax at {at}"),
            QueryFault::TooDeep { at } => write!(f, "TooDeep at {at}"),
            QueryFault::BadNumber { at } => write!(f, "BadNumber at {at}"),
            QueryFault::BadTime { at } => write!(f, "BadTime at {at}"),
            QueryFault::BadDuration { at } => write!(f, "BadDuration at {at}"),
            QueryFault::BadPattern { at } => write!(f, "BadPattern at {at}"),
            QueryFault::Memory => f.write_str("no memory"),
        }
    }
}

impl Error for QueryFault {}

impl From<LexFault> for QueryFault {
    ghost from_gives = { λ fault e. e ≡ lex_fault fault };

    fn from(fault: LexFault) -> QueryFault {
        match fault {
            LexFault::Memory => QueryFault::Memory,
            _ => QueryFault::Lex(fault),
        }
    }
}

impl From<AllocError> for QueryFault {
    ghost from_gives = { λ _ e. e ≡ OutOfMemory };

    fn from(_e: AllocError) -> QueryFault {
        QueryFault::Memory
    }
}

/// Where a reader of tokens stops, before the places of missing tokens are known.
#[derive(Clone, Copy, Debug, PartialEq, Eq)]
pub enum Stop {
    /// No query goes on so. This many tokens are left.
    Stuck { left: usize },
    /// The parenthesis or negation at this place is the 65th that is open.
    TooDeep { at: usize },
    /// The argument at this place is not a number of its kind.
    BadNumber { at: usize },
    /// The time at this place is neither a duration nor a bound in range.
    BadTime { at: usize },
    /// The duration at this place is too long or stands inside brackets, or the step of a key is zero or no duration.
    BadDuration { at: usize },
    /// The text at this place is not a pattern.
    BadPattern { at: usize },
    /// Memory ran out.
    Memory,
}

impl From<AllocError> for Stop {
    ghost from_gives = { λ _ e. e ≡ Memory };

    fn from(_e: AllocError) -> Stop {
        Stop::Memory
    }
}

impl<T: Drop> From<AllocFailed<T>> for Stop {
    ghost from_gives = { λ _ e. e ≡ Memory };

    fn from(_e: AllocFailed<T>) -> Stop {
        Stop::Memory
    }
}
