//! Why a stream gives no more messages, and why bytes are not a message.
ghost use Rattle.std.specs.Prelude.{◌≡◌};
ghost use Rattle.syslog_in.specs.declared.fault.FrameFault.TheVariants.{Memory};
ghost use Rattle.syslog_in.specs.declared.fault.MessageFault.TheVariants as faults;

use std::alloc::AllocError;
use std::error::Error;
use std::fmt;

/// Why a stream gives no more messages. Places count bytes from the start of the stream.
#[derive(Clone, Copy, Debug, PartialEq, Eq)]
pub enum FrameFault {
    /// A length has, at this place, a byte that is neither digit nor blank.
    BadLength { at: u64 },
    /// The frame that begins at this place has more than 65,536 bytes.
    TooLong { at: u64 },
    /// The input ended inside the counted frame that begins at this place.
    Cut { at: u64 },
    /// The stream had ended before: with one of the faults above, by its number and its place, or with the end of the
    /// input, as 0 and the number of its bytes.
    Ended { first: u8, at: u64 },
    /// Memory ran out.
    Memory,
}

impl fmt::Display for FrameFault {
    ghost use Rattle.std.specs.Prelude.{Some};
    ghost use Rattle.syslog_in.specs.Framer.{fault_text};

    ghost output = { λ fault. Some (fault_text fault) };

    fn fmt<W: fmt::Write>(&self, f: &mut fmt::Formatter<W>) -> fmt::Result {
        match self {
            FrameFault::BadLength { at } => write!(f, "BadLength at {at}"),
            FrameFault::TooLong { at } => write!(f, "TooLong at {at}"),
            FrameFault::Cut { at } => write!(f, "Cut at {at}"),
            FrameFault::Ended { first, at } => write!(f, "Ended {first} at {at}"),
            FrameFault::Memory => write!(f, "no memory"),
        }
    }
}

impl Error for FrameFault {}

impl From<AllocError> for FrameFault {
    ghost from_gives = { λ _ e. e ≡ Memory };

    fn from(_e: AllocError) -> FrameFault {
        FrameFault::Memory
    }
}

/// Why bytes are not a message: the first part from the left that is not in the grammar (RFC 5424, section 6). `at` is
/// the place where that part starts, or the number of all bytes where the message ends before it.
#[derive(Clone, Copy, Debug, PartialEq, Eq)]
pub enum MessageFault {
    /// No PRI of 0 to 191 in angle brackets.
    BadPri,
    /// The version is not `1`.
    BadVersion,
    /// No TIMESTAMP, or one before 1970, or 2^63 nanoseconds or more after its start.
    BadTime,
    /// HOSTNAME, APP-NAME, PROCID or MSGID is empty, too long, or has bytes that are not printable.
    BadHeader { at: usize },
    /// No STRUCTURED-DATA.
    BadData { at: usize },
    /// Memory ran out.
    Memory,
}

impl fmt::Display for MessageFault {
    ghost use Rattle.std.specs.Prelude.{Some};
    ghost use Rattle.syslog_in.specs.Parts.{message_fault_text};

    ghost output = { λ fault. Some (message_fault_text fault) };

    fn fmt<W: fmt::Write>(&self, f: &mut fmt::Formatter<W>) -> fmt::Result {
        match self {
            MessageFault::BadPri => write!(f, "BadPri"),
            MessageFault::BadVersion => write!(f, "BadVersion"),
            MessageFault::BadTime => write!(f, "BadTime"),
            MessageFault::BadHeader { at } => write!(f, "BadHeader at {at}"),
            MessageFault::BadData { at } => write!(f, "BadData at {at}"),
            MessageFault::Memory => write!(f, "no memory"),
        }
    }
}

impl Error for MessageFault {}

impl From<AllocError> for MessageFault {
    ghost from_gives = { λ _ e. e ≡ faults.Memory };

    fn from(_e: AllocError) -> MessageFault {
        MessageFault::Memory
    }
}
