//! Writes to the error stream why a command ended early.
ghost use Rattle.vl_io.specs.Change.{change_of};
ghost use Rattle.vl_pipe.specs.Pipe.{ReportsInterrupt};
ghost use Rattle.vl_pipe.specs.Refused.{ReportsRefused};
ghost use Rattle.vl_pipe.specs.Storing.{ReportsStop};

use crate::interrupt::Interrupt;
use crate::load_stop::LoadStop;
use crate::refusal::said_of;
use lone_desk::QueryRefusal;
use std::alloc::Global;
use vl_io::Sink;
use vl_status::{Status, report_no_memory, say};

/// Reports a refused query, or that memory ran out for its text.
pub fn report_refused<E: Sink>(alloc: Global, refusal: QueryRefusal, err: &mut E) -> Status
    ensures { ReportsRefused (change_of E.written E.faults err.old err.new) refusal result }
{
    if refusal == QueryRefusal::Memory {
        return report_no_memory(err);
    }
    match said_of(alloc, refusal) {
        Ok(text) => {
            say(err, text.as_str());
            Status::QueryRefused
        }
        Err(_) => report_no_memory(err),
    }
}

/// Reports an interrupted run, or that memory ran out for its text. A stream that can't be written to is not
/// reported.
pub fn report_interrupt<E: Sink>(alloc: Global, interrupt: Interrupt, err: &mut E) -> Status
    ensures { ReportsInterrupt (change_of E.written E.faults err.old err.new) interrupt result }
{
    match interrupt {
        Interrupt::Unwritable => Status::WriteFault,
        Interrupt::Unreadable => {
            say(err, "read fault\n");
            Status::ReadFault
        }
        Interrupt::Beyond(limit) => match limit.text(alloc) {
            Ok(text) => {
                say(err, text.as_str());
                Status::Limit
            }
            Err(_) => report_no_memory(err),
        },
        Interrupt::NoAnswer(overflow) => match overflow.text(alloc) {
            Ok(text) => {
                say(err, text.as_str());
                Status::QueryRefused
            }
            Err(_) => report_no_memory(err),
        },
        Interrupt::NoMemory => report_no_memory(err),
    }
}

/// Reports why a load ended early, as [`report_interrupt`] does.
pub fn report_stop<E: Sink>(alloc: Global, stop: LoadStop, err: &mut E) -> Status
    ensures { ReportsStop (change_of E.written E.faults err.old err.new) stop result }
{
    match stop {
        LoadStop::Interrupted(interrupt) => report_interrupt(alloc, interrupt, err),
        LoadStop::Spent => {
            say(err, "spent\n");
            Status::Limit
        }
        LoadStop::VaultFault => {
            say(err, "vault fault\n");
            Status::VaultFault
        }
    }
}
