//! A query over the input.
ghost use Rattle.std.specs.Prelude.{◌≡◌, ◌≢◌, IfErr, OnOk};
ghost use Rattle.vl_io.specs.Change.{change_of};
ghost use Rattle.log_model.specs.History.{rows_of};
ghost use Rattle.lone_desk.specs.Asked.{IsReadableQuery};
ghost use Rattle.lone_desk.specs.Question.{question};
ghost use Rattle.vl_pipe.specs.Pipe.{EndsPipe, IsPiped, StopsAnswer, WritesAnswer};

use crate::arrival::Arrival;
use crate::interrupt::Interrupt;
use crate::load::load_fresh;
use crate::report::{report_interrupt, report_refused};
use lone_desk::{LoneDesk, Search, read_query};
use std::alloc::AllocGlobal;
use std::random::RandomSource;
use std::sync::Wait;
use std::thread::Threads;
use vl_io::{Failed, Sink, Source, put_all};
use vl_row::Text;
use vl_status::Status;

/// What `pipe` asks.
#[derive(Drop)]
pub struct Pipe {
    /// How the lines of the input come in.
    pub arrival: Arrival,
    /// The text of the query.
    pub query: Text,
}

/// Reads the query, loads the input and writes the answer, or says why not. A query that is refused reads no input.
pub fn run_pipe<R: AllocGlobal + Threads + Wait + RandomSource + Sync, S: Source, O: Sink, E: Sink>(
    rt: &R,
    asked: &Pipe,
    src: &mut S,
    out: &mut O,
    err: &mut E,
) -> Status
    ensures ends { IsPiped (record {
      asked = asked.now;
      source = change_of S.left S.faults src.old src.new;
      output = change_of O.written O.faults out.old out.new;
      errors = change_of E.written E.faults err.old err.new;
    }) result }
    ensures unread { (IsReadableQuery asked.now.query → ⊥) → src.new ≡ src.old }
    ensures untouched { result ≢ Status.Done → result ≢ Status.WriteFault → out.new ≡ out.old }
{
    match read_query(rt.alloc(), asked.query.as_str()) {
        Ok(search) => {
            let prepared = PreparedPipe {
                search: &search,
                arrival: &asked.arrival,
            };
            answer_input(rt, &prepared, src, out, err)
        }
        Err(refusal) => report_refused(rt.alloc(), refusal, err),
    }
}

/// What `pipe` asks, once its query is prepared.
#[derive(Clone, Copy)]
struct PreparedPipe<'p> {
    search: &'p Search,
    arrival: &'p Arrival,
}

/// Loads the input and writes the answer, or says why not.
fn answer_input<R: AllocGlobal + Threads + Wait + RandomSource + Sync, S: Source, O: Sink, E: Sink>(
    rt: &R,
    prepared: &PreparedPipe<'_>,
    src: &mut S,
    out: &mut O,
    err: &mut E,
) -> Status
    ensures ends { EndsPipe (question prepared.now.search.now) prepared.now.arrival.now
        (change_of S.left S.faults src.old src.new) (change_of O.written O.faults out.old out.new)
        (change_of E.written E.faults err.old err.new) result }
    ensures untouched { result ≢ Status.Done → result ≢ Status.WriteFault → out.new ≡ out.old }
{
    let mut desk = match load_fresh(rt, prepared.arrival, src, err) {
        Ok(desk) => desk,
        Err(interrupt) => return report_interrupt(rt.alloc(), interrupt, err),
    };
    match write_answer(&mut desk, prepared.search, prepared.arrival.moment(), out) {
        Ok(()) => Status::Done,
        Err(interrupt) => report_interrupt(rt.alloc(), interrupt, err),
    }
}

/// Writes the answer to a prepared query over all that was loaded.
pub(crate) fn write_answer<R: Wait + RandomSource, O: Sink>(
    desk: &mut LoneDesk<'_, R>,
    search: &Search,
    now: i64,
    out: &mut O,
) -> Result<(), Interrupt>
    ensures done { OnOk result (WritesAnswer (question search.now) now (rows_of desk.old.history)
        (change_of O.written O.faults out.old out.new)) }
    ensures stopped { IfErr result (StopsAnswer (question search.now) now (rows_of desk.old.history)
        (change_of O.written O.faults out.old out.new)) }
    ensures untouched { IfErr result (λ interrupt. interrupt ≢ Interrupt.Unwritable → out.new ≡ out.old) }
{
    let answer = match desk.answer(search, now) {
        Ok(answer) => answer,
        Err(fault) => return Err(Interrupt::from(fault)),
    };
    match put_all(out, answer.lines.as_str().as_bytes()) {
        Ok(()) => Ok(()),
        Err(Failed) => Err(Interrupt::Unwritable),
    }
}
