ghost use Rattle.std.specs.Prelude.{◌≡◌, ◌++◌, ◌∷◌, [], IfOk, string_bytes};
ghost use Rattle.vl_pipe.specs.Program.{limit_text, overflow_text, said_of_query};

use lone_desk::SearchFault;
use std::alloc::{AllocError, Global};
use vl_io::ReadFault;
use vl_row::Text;

/// A limit that an input may meet.
#[derive(Clone, Copy, Debug, PartialEq, Eq)]
pub enum Limit {
    /// It has more bytes than are allowed.
    Long,
    /// The rows of a group weigh this much, which is too much for a batch.
    Large(u64),
    /// A group has rows, and as many batches as can be held came before it.
    Full,
}

impl Limit {
    ghost use Rattle.vl_pipe.specs.Interrupt.{limit_of};

    /// Writes the line for the error stream.
    pub fn text(self, alloc: Global) -> Result<String, AllocError>
        ensures { IfOk result (λ text. string_bytes text ≡ limit_text (limit_of self) ++ 10 ∷ []) }
    {
        match self {
            Limit::Long => String::from_str(alloc, "input long\n"),
            Limit::Large(weight) => format!(in alloc; "large {weight}\n"),
            Limit::Full => String::from_str(alloc, "full 4096\n"),
        }
    }
}

/// Why the evaluation of a query has no records.
#[derive(Drop)]
pub enum Overflow {
    /// 2^32 rows hold, or more.
    ManyRows,
    /// The total of the function of `stats` with this name is not a 64-bit integer.
    Total(Text),
}

impl Overflow {
    ghost use Rattle.vl_pipe.specs.Interrupt.{overflow_of};

    /// Writes the line for the error stream.
    pub fn text(&self, alloc: Global) -> Result<String, AllocError>
        ensures { IfOk result (λ text. string_bytes text ≡ said_of_query (overflow_text (overflow_of self.now))) }
    {
        match self {
            Overflow::ManyRows => String::from_str(alloc, "query: ManyRows\n"),
            Overflow::Total(name) => {
                let name = name.as_str();
                format!(in alloc; "query: Overflow in {name}\n")
            }
        }
    }
}

/// Why a run ends before all is done.
#[derive(Drop)]
pub enum Interrupt {
    /// The source failed.
    Unreadable,
    /// The output or the error stream failed.
    Unwritable,
    /// The input met a limit.
    Beyond(Limit),
    /// The evaluation of the query overflows.
    NoAnswer(Overflow),
    /// Memory ran out.
    NoMemory,
}

impl From<AllocError> for Interrupt {
    ghost use Rattle.vl_pipe.specs.declared.interrupt.Interrupt.TheVariants.{NoMemory};

    ghost from_gives = { λ _ interrupt. interrupt ≡ NoMemory };

    fn from(_: AllocError) -> Interrupt {
        Interrupt::NoMemory
    }
}

impl From<ReadFault> for Interrupt {
    ghost use Rattle.vl_pipe.specs.Interrupt.{interrupt_at};

    ghost from_gives = { λ fault interrupt. interrupt ≡ interrupt_at fault };

    fn from(fault: ReadFault) -> Interrupt {
        match fault {
            ReadFault::Failed => Interrupt::Unreadable,
            ReadFault::Long => Interrupt::Beyond(Limit::Long),
            ReadFault::Memory => Interrupt::NoMemory,
        }
    }
}

impl From<SearchFault> for Interrupt {
    ghost use Rattle.vl_pipe.specs.Interrupt.{interrupt_of};

    ghost from_gives = { λ fault interrupt. interrupt ≡ interrupt_of fault };

    fn from(fault: SearchFault) -> Interrupt {
        match fault {
            SearchFault::ManyRows => Interrupt::NoAnswer(Overflow::ManyRows),
            SearchFault::Overflow { name } => Interrupt::NoAnswer(Overflow::Total(name)),
            SearchFault::Memory => Interrupt::NoMemory,
        }
    }
}
