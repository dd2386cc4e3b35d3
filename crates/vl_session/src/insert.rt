//! Inserts lines of JSON into the desk.
ghost use Rattle.std.specs.Prelude.{◌≡◌, ◌≤ℤ◌, IfErr, IfOk, List, Some, length, pos, unsigned_abs};
ghost use Rattle.ingest_row.specs.Intake.{Outcome};
ghost use Rattle.log_desk.specs.Passes.{IsPassOf};
ghost use Rattle.vl_session.specs.Incoming.{Commits, IsIncoming, IsUncommitted, IsNoBatch};
ghost use Rattle.log_desk.specs.Seen.{caller_of, seen_of};
ghost use Rattle.vl_session.specs.Insert.{CanBeBatch};
ghost use Rattle.vl_session.specs.Insertion.{IsInsertion, IsOfLines, RefusesLines};
ghost use Rattle.vl_session.specs.Seen.{HasRoom};

use crate::access::Access;
use ingest_row::{LineFault, Options, Weighed, intake_law, weigh_body};
use log_desk::{Desk, InsertFault, Pass, PreparedBatch};
use std::alloc::{AllocError, Global};
use std::sync::Wait;
use vl_row::{Batch, BatchFault, Items};

/// What became of a body of lines.
#[derive(Drop)]
pub struct Insertion {
    /// How many lines gave a row.
    pub accepted: u64,
    /// The number of the batch of these rows, where there are any.
    pub batch: Option<u64>,
    /// The lines that gave no row, in their order.
    pub refused: Items<LineFault>,
}

/// Why nothing of a body was inserted.
#[derive(Clone, Copy, Debug, PartialEq, Eq, Drop)]
pub enum InsertionFault {
    /// The rows weigh this much together, which is more than a batch may, or the largest `u64` where that is more.
    Large { weight: u64 },
    /// This many batches wait to be settled, and no more may.
    Full { held: u64 },
    /// All batch numbers are used.
    Spent,
    /// Memory ran out.
    Memory,
}

impl From<AllocError> for InsertionFault {
    ghost use Rattle.vl_session.specs.declared.insert.InsertionFault.TheVariants.{Memory};

    ghost from_gives = { λ _ fault. fault ≡ Memory };

    fn from(_: AllocError) -> InsertionFault {
        InsertionFault::Memory
    }
}

impl From<InsertFault> for InsertionFault {
    ghost use Rattle.vl_session.specs.Incoming.{fault_of};

    ghost from_gives = { λ fault refused. refused ≡ fault_of fault };

    fn from(fault: InsertFault) -> InsertionFault {
        match fault {
            InsertFault::Full { held } => InsertionFault::Full { held },
            InsertFault::Spent => InsertionFault::Spent,
            InsertFault::Memory => InsertionFault::Memory,
        }
    }
}

/// Inserts the lines of a body that came at the moment `now`, in nanoseconds since the start of 1970. Their rows
/// become one batch. Where no line gives a row there is no batch.
///
/// All memory is taken before the batch is inserted.
pub fn insert_lines<R: Wait>(
    rt: &R,
    alloc: Global,
    desk: &Desk,
    pass: &mut Pass,
    options: &Options,
    now: i64,
    body: &[u8],
) -> Result<Insertion, InsertionFault>
    requires pass { IsPassOf desk.now pass.old }
    requires moment { pos 0 ≤ℤ now }
    ensures inserted { IfOk result (IsInsertion (caller_of pass.old) options.now (unsigned_abs now) body.now
        (seen_of pass.old) (seen_of pass.new)) }
    ensures refused { IfErr result (RefusesLines (caller_of pass.old) options.now (unsigned_abs now) body.now
        (seen_of pass.old) (seen_of pass.new)) }

    // Where there is room for another batch, lines are refused only for their weight, or because memory ran out.
    ensures room { HasRoom (seen_of pass.new) → IfErr result IsOfLines }

    // And lines with rows that can be a batch are accepted as one then, unless memory runs out.
    ensures batch { (outcomes : List Outcome) → CanBeBatch options.now (unsigned_abs now) body.now outcomes
        → IfOk result (λ insertion. insertion.batch ≡ Some (length (seen_of pass.new).history)) }
    ensures complete { (outcomes : List Outcome) → CanBeBatch options.now (unsigned_abs now) body.now outcomes
        → HasRoom (seen_of pass.new) → IfErr result (λ fault. fault ≡ InsertionFault.Memory) }
    ensures pass { IsPassOf desk.now pass.new }
    ensures caller { caller_of pass.new ≡ caller_of pass.old }
{
    intake_law();
    let access = Access { rt, alloc, desk };
    let incoming = Incoming::read(alloc, options, now, body)?;
    incoming.commit(&access, pass)
}

/// What a body of lines gives, before it is committed. The rows are read, and are in blocks already, so that little is
/// left to be done at the desk.
#[derive(Drop)]
pub struct Incoming {
    pub(crate) accepted: u64,
    pub(crate) batch: Option<PreparedBatch>,
    pub(crate) refused: Items<LineFault>,
}

impl Incoming {
    /// Reads the lines of a body that came at the moment `now`, and makes the part of their rows. It needs no desk, so
    /// threads can read bodies side by side. Fails only if the rows exceed the batch limit or memory runs out.
    pub fn read(
        alloc: Global,
        options: &Options,
        now: i64,
        body: &[u8],
    ) -> Result<Incoming, InsertionFault>
        requires moment { pos 0 ≤ℤ now }
        ensures read { IfOk result (λ incoming. (outcomes : List Outcome)
            × IsIncoming options.now now body.now outcomes incoming) }
        ensures unread { IfErr result (IsNoBatch options.now now body.now) }
    {
        let intake = match weigh_body(alloc, options, now, body)? {
            Weighed::Light(intake) => intake,
            Weighed::Heavy { weight } => return Err(InsertionFault::Large { weight }),
        };
        let refused = intake.refused;
        let rows = intake.rows.into_vec();
        let accepted = rows.len() as u64;
        match Batch::try_of(rows) {
            Ok(batch) => {
                let prepared = PreparedBatch::of(alloc, &batch)?;
                Ok(Incoming {
                    accepted,
                    batch: Some(prepared),
                    refused,
                })
            }
            Err((BatchFault::NoRows, _)) => Ok(Incoming {
                accepted,
                batch: None,
                refused,
            }),
            Err((BatchFault::Large { weight }, _)) => Err(InsertionFault::Large { weight }),
        }
    }

    /// Inserts the rows as one batch, if there are any.
    pub fn commit<R: Wait>(
        self,
        access: &Access<'_, R>,
        pass: &mut Pass,
    ) -> Result<Insertion, InsertionFault>
        requires pass { IsPassOf access.now.desk.now pass.old }
        ensures committed { IfOk result (Commits (caller_of pass.old) self (seen_of pass.old) (seen_of pass.new)) }
        ensures refused { IfErr result (IsUncommitted (caller_of pass.old) self (seen_of pass.old) (seen_of pass.new)) }
        ensures pass { IsPassOf access.now.desk.now pass.new }
        ensures caller { caller_of pass.new ≡ caller_of pass.old }
    {
        let Incoming {
            accepted,
            batch,
            refused,
        } = self;
        let Some(batch) = batch else {
            return Ok(Insertion {
                accepted,
                batch: None,
                refused,
            });
        };
        match access.insert_prepared(pass, batch) {
            Ok(number) => Ok(Insertion {
                accepted,
                batch: Some(number),
                refused,
            }),
            Err(fault) => Err(InsertionFault::from(fault)),
        }
    }
}
