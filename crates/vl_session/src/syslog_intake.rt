//! Inserts messages of syslog into the desk.
ghost use Rattle.std.specs.Prelude.{◌≡◌, ◌+◌, ◌*◌, ◌^◌, ◌<◌, ◌≤◌, ◌≤ℤ◌, IfErr, IfOk, IfSome, List, OnOk, Option};
ghost use Rattle.std.specs.Prelude.{length, pos, unsigned_abs, vec_len};
ghost use Rattle.log_model.specs.Row.{Batch as Rows, IsRow, Row as Event, batch_weight};
ghost use Rattle.vl_io.specs.Moments.{IsMoment};
ghost use Rattle.log_desk.specs.Passes.{IsPassOf};
ghost use Rattle.log_desk.specs.Seen.{caller_of, seen_of};
ghost use Rattle.vl_session.specs.Seen.{Has, batches_of_rows};
ghost use Rattle.vl_session.specs.SyslogSession.{IsMessageOutcome, TakesAll, batch_rows, end_effect, moment_of};
ghost use Rattle.vl_session.specs.SyslogTaking.{HoldsUp, IsChunk, TakesSome, TakesUp, report_of};
ghost use Rattle.vl_session.specs.Turns.{GaveMoments};

use crate::access::Access;
use crate::syslog_report::{SyslogEnd, SyslogReport};
use ingest_row::{SyslogKind, row_of_syslog};
use log_desk::Pass;
use std::alloc::{AllocError, Global};
use std::sync::Wait;
use syslog_in::Frames;
use vl_io::Clock;
use vl_row::{Batch, BatchFault, Row};

/// The most rows of a batch. This many rows never weigh too much for one.
const BATCH_ROWS: usize = 256;

/// How many messages gave a row that was inserted, and how many gave none.
#[derive(Clone, Copy)]
pub(crate) struct Counts {
    pub(crate) accepted: u64,
    pub(crate) refused: u64,
}

impl Counts {
    /// Returns the report of a session with these counts that ended so.
    pub(crate) fn report(self, end: SyslogEnd) -> SyslogReport
        ensures { result ≡ report_of self end }
    {
        SyslogReport {
            accepted: self.accepted,
            refused: self.refused,
            end,
        }
    }
}

/// Rows that are one batch, if there are any.
#[derive(Drop)]
struct Chunk {
    rows: Vec<Row>,
    /// The place after the messages that have them.
    end: usize,
}

/// Returns the moment at which the messages came that a read completed. The clock is asked only if there are any.
pub(crate) fn arrival_moment<C: Clock>(messages: &Frames, clock: &mut C) -> i64
    ensures told { GaveMoments (C.moments clock.old) (C.moments clock.new)
        (moment_of messages.now (unsigned_abs result)) }
    ensures in_range { IsMoment result }
{
    if messages.is_empty() {
        return 0;
    }
    clock.now()
}

/// Inserts the messages that a read completed, which came at the moment `now`, one batch at a time. Messages that an
/// end keeps back are not counted.
pub(crate) fn take_in<R: Wait>(
    access: &Access<'_, R>,
    pass: &mut Pass,
    messages: &Frames,
    now: i64,
    counts: &mut Counts,
) -> Result<(), SyslogEnd>
    requires pass { IsPassOf access.now.desk.now pass.old }
    requires moment { pos 0 ≤ℤ now }
    requires room { counts.old.accepted + counts.old.refused + length messages.now < 2 ^ 64 }
    ensures all { OnOk result ((outcomes : List (Option Event)) × (batches : List Rows)
        × TakesUp (caller_of pass.old) (unsigned_abs now) messages.now (seen_of pass.old) (seen_of pass.new) counts.old
        counts.new outcomes batches × (length outcomes ≡ length messages.now)) }
    ensures some { IfErr result (λ end. (outcomes : List (Option Event)) × (batches : List Rows)
        × TakesSome (caller_of pass.old) (unsigned_abs now) messages.now (seen_of pass.old) (seen_of pass.new)
        counts.old counts.new outcomes batches end) }
    ensures pass { IsPassOf access.now.desk.now pass.new }
    ensures caller { caller_of pass.new ≡ caller_of pass.old }
{
    let mut at = 0;
    'batches: while at < messages.len() {
        let Chunk { rows, end } = match read_chunk(access.alloc, now, messages, at) {
            Ok(chunk) => chunk,
            Err(AllocError) => return Err(SyslogEnd::Memory),
        };
        let accepted = rows.len();
        match insert_rows(access, pass, rows) {
            Ok(()) => {}
            Err(end) => return Err(end),
        }
        counts.accepted += accepted as u64;
        counts.refused += (end - at - accepted) as u64;
        at = end;
    }
    Ok(())
}

/// Reads messages that came in at this moment, from a place on, up to the last row of a batch.
fn read_chunk(alloc: Global, now: i64, messages: &Frames, start: usize) -> Result<Chunk, AllocError>
    requires moment { pos 0 ≤ℤ now }
    requires within { start < length messages.now }
    ensures chunk { IfOk result (IsChunk (unsigned_abs now) messages.now start) }
    ensures further { IfOk result (λ chunk. start < chunk.end) }
    ensures within { IfOk result (λ chunk. chunk.end ≤ length messages.now) }
    ensures few { IfOk result (λ chunk. vec_len chunk.rows ≤ batch_rows) }
    ensures full { IfOk result (λ chunk. chunk.end < length messages.now → vec_len chunk.rows ≡ batch_rows) }
    ensures light { IfOk result (λ chunk. batch_weight chunk.rows.items ≤ 262_144 * vec_len chunk.rows) }
{
    let mut rows = Vec::with_capacity(alloc, BATCH_ROWS.min(messages.len() - start))?;
    let mut end = start;
    'messages: while end < messages.len() && rows.len() < BATCH_ROWS {
        if let Some(row) = read_row(alloc, now, messages.at(end))? {
            rows.push(row)?;
        }
        end += 1;
    }
    Ok(Chunk { rows, end })
}

/// Returns the row of a message that came in at this moment, if it has one.
fn read_row(alloc: Global, now: i64, message: &[u8]) -> Result<Option<Row>, AllocError>
    requires { pos 0 ≤ℤ now }
    ensures outcome { IfOk result (IsMessageOutcome (unsigned_abs now) message.now) }
    ensures rules { IfOk result (λ row. IfSome row IsRow) }
{
    match row_of_syslog(alloc, now, message) {
        Ok(row) => Ok(Some(row)),
        Err(SyslogKind::Memory) => Err(AllocError),
        Err(SyslogKind::Message(_)) => Ok(None),
        Err(SyslogKind::Row(_)) => Ok(None),
    }
}

/// Inserts rows as one batch, if there are any.
fn insert_rows<R: Wait>(
    access: &Access<'_, R>,
    pass: &mut Pass,
    rows: Vec<Row>,
) -> Result<(), SyslogEnd>
    requires pass { IsPassOf access.now.desk.now pass.old }
    requires few { vec_len rows ≤ batch_rows }
    requires light { batch_weight rows.items ≤ 262_144 * vec_len rows }
    ensures ok { OnOk result (TakesAll (caller_of pass.old) (seen_of pass.old) (batches_of_rows rows.items)
        (seen_of pass.new)) }
    ensures refused { IfErr result (HoldsUp rows.items (seen_of pass.new)) }
    ensures has { IfErr result (λ end. Has (caller_of pass.old) (seen_of pass.old) (seen_of pass.new)
        (end_effect end)) }
    ensures pass { IsPassOf access.now.desk.now pass.new }
    ensures caller { caller_of pass.new ≡ caller_of pass.old }
{
    let batch = match Batch::try_of(rows) {
        Ok(batch) => batch,
        Err((BatchFault::NoRows, _)) => return Ok(()),
        Err((BatchFault::Large { .. }, _)) => unreachable!(),
    };
    match access.insert(pass, batch) {
        Ok(_) => Ok(()),
        Err(fault) => Err(SyslogEnd::from(fault)),
    }
}
