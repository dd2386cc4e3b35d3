//! What a session of syslog reports.
ghost use Rattle.std.specs.Prelude.{◌≡◌};

use log_desk::InsertFault;
use syslog_in::FrameFault;

/// What a session of syslog did.
#[derive(Clone, Copy, Debug, PartialEq, Eq)]
pub struct SyslogReport {
    /// How many messages gave a row that was inserted.
    pub accepted: u64,
    /// How many messages gave no row.
    pub refused: u64,
    pub end: SyslogEnd,
}

/// Why a session of syslog ended. With one of the last three, messages that came were not inserted, and are
/// not counted.
#[derive(Clone, Copy, Debug, PartialEq, Eq)]
pub enum SyslogEnd {
    /// The input ended, and not inside a counted frame.
    Closed,
    /// 268,435,456 bytes came, and the input had not ended.
    Limit,
    /// The source failed.
    SourceFault,
    /// What came next is not a frame.
    BadFrame(FrameFault),
    /// This many batches wait to be settled, and no more may.
    Full {
        /// How many wait: 4,096.
        held: u64,
    },
    /// All batch numbers are used.
    Spent,
    /// Memory ran out.
    Memory,
}

impl From<InsertFault> for SyslogEnd {
    ghost use Rattle.vl_session.specs.SyslogTaking.{end_of_insert};

    ghost from_gives = { λ fault end. end ≡ end_of_insert fault };

    fn from(fault: InsertFault) -> SyslogEnd {
        match fault {
            InsertFault::Full { held } => SyslogEnd::Full { held },
            InsertFault::Spent => SyslogEnd::Spent,
            InsertFault::Memory => SyslogEnd::Memory,
        }
    }
}

impl From<FrameFault> for SyslogEnd {
    ghost use Rattle.vl_session.specs.SyslogTaking.{end_of_frame};

    ghost from_gives = { λ fault end. end ≡ end_of_frame fault };

    fn from(fault: FrameFault) -> SyslogEnd {
        match fault {
            FrameFault::Memory => SyslogEnd::Memory,
            _ => SyslogEnd::BadFrame(fault),
        }
    }
}
