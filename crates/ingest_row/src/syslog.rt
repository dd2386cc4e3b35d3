//! From a message of syslog to its row.
ghost use Rattle.std.specs.Prelude.{◌≡◌, ◌≢◌, ◌≤ℤ◌, pos, IfOk, IfErr, None};
ghost use Rattle.log_model.specs.Row.{Row as Event, IsRow};
ghost use Rattle.vl_row.specs.Faults.{row_fault};
ghost use Rattle.ingest_row.specs.Ingest.{row_at};
ghost use Rattle.ingest_row.specs.Syslog.{IsRowOfSyslog, IsSyslogRefused, IsStreamFault, kind_of, moment_of};
ghost use Rattle.ingest_row.specs.Syslog.{syslog_stream};

use std::alloc::{AllocError, Global};
use syslog_in::{MessageFault, SyslogRow, read_message};
use vl_row::{FieldList, Row, RowFault, Text};

/// Why a message of syslog gives no row.
#[derive(Clone, Copy, Debug, PartialEq, Eq)]
pub enum SyslogKind {
    /// It is not a message, for this reason, which is not that memory ran out.
    Message(MessageFault),
    /// Its fields make no row, for this reason, which is not that memory ran out.
    Row(RowFault),
    /// Memory ran out.
    Memory,
}

impl From<AllocError> for SyslogKind {
    ghost use Rattle.ingest_row.specs.declared.syslog.SyslogKind.TheVariants.{Memory};

    ghost from_gives = { λ _ e. e ≡ Memory };

    fn from(_e: AllocError) -> SyslogKind {
        SyslogKind::Memory
    }
}

/// Returns the row of these fields at this moment, in the stream that messages of syslog have.
fn row_at(alloc: Global, time: i64, fields: FieldList) -> Result<Row, SyslogKind>
    requires { pos 0 ≤ℤ time }
    ensures faultless { IfOk result (λ row. row_fault time fields ≡ None) }
    ensures row { IfOk result (λ row. row ≡ row_at syslog_stream time fields) }
    ensures fault { IfErr result (λ kind. IsStreamFault kind time fields) }
    ensures rules { IfOk result IsRow }
{
    let names = [
        Text::try_of(alloc, "hostname")?,
        Text::try_of(alloc, "app_name")?,
        Text::try_of(alloc, "proc_id")?,
    ];
    match Row::try_new(alloc, time, &names, fields) {
        Ok(row) => Ok(row),
        Err((RowFault::Memory, _)) => Err(SyslogKind::Memory),
        Err((fault, _)) => Err(SyslogKind::Row(fault)),
    }
}

fn kind_of(fault: MessageFault) -> SyslogKind
    ensures { result ≡ kind_of fault }
{
    match fault {
        MessageFault::Memory => SyslogKind::Memory,
        _ => SyslogKind::Message(fault),
    }
}

fn moment_of(now: i64, time: Option<i64>) -> i64
    ensures { result ≡ moment_of now time }
{
    match time {
        Some(time) => time,
        None => now,
    }
}

/// Returns the row of a message of syslog (RFC 5424) that came in at the moment `now`, in nanoseconds since 1970. A
/// message whose timestamp is nil is of that moment.
pub fn row_of_syslog(alloc: Global, now: i64, m: &[u8]) -> Result<Row, SyslogKind>
    requires { pos 0 ≤ℤ now }
    ensures read { IfOk result (λ row. IsRowOfSyslog now m.now row) }
    // A message has one row.
    ensures only { IfOk result (λ row. (other : Event) → IsRowOfSyslog now m.now other → other ≡ row) }
    // What is refused has none, unless memory ran out.
    ensures none { IfErr result (λ kind. kind ≢ SyslogKind.Memory
        → (row : Event) → IsRowOfSyslog now m.now row → ⊥) }
    ensures refused { IfErr result (λ kind. IsSyslogRefused kind now m.now) }
    ensures rules { IfOk result IsRow }
{
    match read_message(alloc, m) {
        Ok(SyslogRow { time, fields }) => row_at(alloc, moment_of(now, time), fields),
        Err(fault) => Err(kind_of(fault)),
    }
}
