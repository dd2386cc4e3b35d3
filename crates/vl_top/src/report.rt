//! Error messages for usage faults, and for how serving ended.
ghost use Rattle.std.specs.Prelude.{◌≡◌, []};
ghost use Rattle.vl_io.specs.Change.{IsTold, change_of};
ghost use Rattle.vl_top.specs.Run.{usage_text};
ghost use Rattle.vl_top.specs.Server.{TellsEnd, end_status};

use log_desk::KeepFault;
use vl_io::Sink;
use vl_serve::ServeEnd;
use vl_status::{Status, report_no_memory, say};

/// Reports words that are not a command, by the usage line.
pub fn report_usage<E: Sink>(err: &mut E) -> Status
    ensures status { result ≡ Status.Usage }
    ensures said { IsTold (change_of E.written E.faults err.old err.new) [] usage_text }
{
    say(err, "usage: pipe, load, query, trial or serve\n");
    Status::Usage
}

/// Reports how serving ended: out of memory, else a vault that failed, else a store that is spent, else a door that
/// failed.
pub(crate) fn report_end<E: Sink>(end: &ServeEnd, err: &mut E) -> Status
    ensures status { result ≡ end_status end.now }
    ensures said { TellsEnd (change_of E.written E.faults err.old err.new) result }
{
    let status = end_status(end);
    match status {
        Status::VaultFault => say(err, "vault fault\n"),
        Status::Limit => say(err, "spent\n"),
        Status::DoorFault => say(err, "door fault\n"),
        Status::NoMemory => return report_no_memory(err),
        _ => {}
    }
    status
}

/// Returns the first status that applies.
fn end_status(end: &ServeEnd) -> Status
    ensures { result ≡ end_status end.now }
{
    if end.memory {
        return Status::NoMemory;
    }
    match end.kept {
        Some(KeepFault::VaultFault | KeepFault::Halted { .. }) => Status::VaultFault,
        Some(KeepFault::Spent) => Status::Limit,
        Some(KeepFault::Memory) => Status::NoMemory,
        None if end.door_faults > 0 => Status::DoorFault,
        None => Status::Done,
    }
}
