//! Takes in lines one after another, and weighs their rows.
ghost use Rattle.std.specs.Prelude.{◌≡◌, ◌≤ℤ◌, ◌<◌, ◌+◌, ◌-◌, ◌^◌, [], ◌∷◌, ◌++◌, List, None, IfOk, IsFalse, OnOk, ℕ};
ghost use Rattle.std.specs.Prelude.{length, min, pos};
ghost use Rattle.log_model.specs.Line.{lines_of};
ghost use Rattle.log_model.specs.Row.{batch_weight};
ghost use Rattle.ingest_row.specs.Intake.{Outcome, outcome_of, refused_from, rows_read};
ghost use Rattle.ingest_row.specs.Weighing.{IsTakingIn, IsWeighing};

use crate::body::{Intake, LineOutcome, read_line};
use crate::held::{Added, bytes_of, members_of};
use crate::kind::LineKind;
use crate::line::ROOM;
use crate::lines::next_line;
use crate::options::Options;
use std::alloc::{AllocError, Global};
use vl_row::Row;

/// The largest weight of a batch.
pub(crate) const LIMIT: u64 = 67_108_864;

/// Added fields may take this many times the bytes that rows may take, since those of refused rows are not kept.
const WORK: u64 = 16;

/// Rows and refusals read so far.
#[derive(Drop)]
pub(crate) struct Taking {
    intake: Intake,
    /// The number of the last line.
    number: u64,
    /// How many fields are expected of the next line.
    room: usize,
    /// What the rows weigh together, or the largest `u64` where that is more.
    pub(crate) weight: u64,
    /// At most how many bytes the rows take, and the blocks that are made of them.
    held: u64,
    /// The fields that are added to a line.
    added: Added,
    /// Whether they are added to a line with a long name, too.
    are_added_to_long: bool,
    /// How many bytes the added fields of all lines took.
    made: u64,
    /// How many bytes the rows may take before reading stops. It also stops where they weigh more than a batch may.
    most: Option<u64>,
}

impl Taking {
    pub(crate) fn new(alloc: Global, o: &Options, most: Option<u64>) -> Taking
        ensures rows { result.intake.rows ≡ [] }
        ensures refused { result.intake.refused ≡ [] }
        ensures number { result.number ≡ 0 }
        ensures weight { result.weight ≡ 0 }
        ensures most { result.most ≡ most }
    {
        Taking {
            intake: Intake::new(alloc),
            number: 0,
            room: ROOM,
            weight: 0,
            held: 0,
            added: Added::of(o),
            are_added_to_long: !o.are_short(),
            made: 0,
            most,
        }
    }

    /// Returns whether the rows take or weigh too much. Then reading stops.
    pub(crate) fn is_full(&self) -> bool
        ensures { self.now.most ≡ None → IsFalse result }
    {
        match self.most {
            Some(most) => self.held > most || self.weight > LIMIT,
            None => false,
        }
    }

    /// Returns the bytes that were made once another line has this outcome. The error is that this is more than may be
    /// made of a body.
    fn made_with(&self, made: u64, outcome: &LineOutcome) -> Result<u64, AllocError> {
        if !self.is_complete(outcome) {
            return Ok(made);
        }
        let made = made.saturating_add(self.added.bytes);
        match self.most {
            Some(most) if made > most.saturating_mul(WORK) => Err(AllocError),
            _ => Ok(made),
        }
    }

    /// Returns whether the fields that are added to each line were added to this one. A line with a long name is
    /// refused before, unless an option names such a field.
    fn is_complete(&self, outcome: &LineOutcome) -> bool {
        match outcome {
            LineOutcome::Read(_) => true,
            LineOutcome::Refused(LineKind::NameLong) => self.are_added_to_long,
            LineOutcome::Refused(kind) => {
                matches!(kind, LineKind::ManyFields | LineKind::RowLarge)
            }
            LineOutcome::PassedOver => false,
        }
    }

    /// Adds the row or the refusal of the next line, which is this one.
    fn add(&mut self, alloc: Global, line: &[u8], outcome: LineOutcome) -> Result<(), AllocError>
        requires { self.old.number + 1 < 2 ^ 64 }
        ensures rows { OnOk result
            (self.new.intake.rows ≡ self.old.intake.rows ++ rows_read (outcome_of outcome ∷ [])) }
        ensures refused { OnOk result (self.new.intake.refused
            ≡ self.old.intake.refused ++ refused_from (self.old.number + 1) (outcome_of outcome ∷ [])) }
        ensures number { OnOk result (self.new.number ≡ self.old.number + 1) }
        ensures weight { OnOk result (self.new.weight
            ≡ min (self.old.weight + batch_weight (rows_read (outcome_of outcome ∷ []))) (2 ^ 64 - 1)) }
        ensures most { OnOk result (self.new.most ≡ self.old.most) }
    {
        self.number += 1;
        self.weight = self.weight.saturating_add(weight_of(&outcome));
        self.made = self.made_with(self.made, &outcome)?;
        match outcome {
            LineOutcome::Read(row) => self.add_row(alloc, line, row),
            other => self.intake.add(self.number, other),
        }
    }

    /// Adds the row of a line, and counts what it takes.
    fn add_row(&mut self, alloc: Global, line: &[u8], row: Row) -> Result<(), AllocError>
        ensures rows { OnOk result (self.new.intake.rows ≡ self.old.intake.rows ++ row ∷ []) }
        ensures refused { OnOk result (self.new.intake.refused ≡ self.old.intake.refused) }
        ensures number { self.new.number ≡ self.old.number }
        ensures weight { self.new.weight ≡ self.old.weight }
        ensures most { self.new.most ≡ self.old.most }
    {
        let slots = self
            .added
            .slots(self.room, members_of(line), row.fields().len());
        let row = fitted(alloc, row, slots.is_wide)?;
        self.room = slots.next;
        self.held = self.held.saturating_add(bytes_of(&row, slots.most));
        self.intake.add(self.number, LineOutcome::Read(row))
    }

    pub(crate) fn into_intake(self) -> Intake
        ensures { result ≡ self.intake }
    {
        self.intake
    }
}

/// Returns what the row of a line weighs.
fn weight_of(outcome: &LineOutcome) -> u64
    ensures { result ≡ batch_weight (rows_read (outcome_of outcome.now ∷ [])) }
{
    match outcome {
        LineOutcome::Read(row) => row.weight(),
        LineOutcome::PassedOver | LineOutcome::Refused(_) => 0,
    }
}

/// Returns the row, copied into lists without room to spare if it is wide.
fn fitted(alloc: Global, row: Row, is_wide: bool) -> Result<Row, AllocError>
    ensures { IfOk result (λ fit. fit ≡ row) }
{
    if is_wide {
        row.try_copy(alloc)
    } else {
        Ok(row)
    }
}

/// Reads the first of these lines, and returns the others.
pub(crate) fn take_lines<'a>(
    alloc: Global,
    o: &Options,
    now: i64,
    lines: &'a [u8],
    taking: &mut Taking,
) -> Result<&'a [u8], AllocError>
    requires since { pos 0 ≤ℤ now }
    requires fits { taking.old.number + length lines.now < 2 ^ 64 }
    ensures takes { IfOk result (λ left. (body : List ℕ) → IsTakingIn o.now now body lines.now taking.old
        → IsTakingIn o.now now body left.now taking.new) }
    ensures fits { IfOk result (λ left. taking.new.number + length left.now < 2 ^ 64) }
    ensures all { taking.old.most ≡ None → IfOk result (λ left. lines_of left.now ≡ []) }
{
    let mut rest = lines;
    'lines: while !taking.is_full() {
        let Some((line, after)) = next_line(rest) else {
            return Ok(rest);
        };
        let outcome = read_line(alloc, o, now, line, taking.room)?;
        taking.add(alloc, line, outcome)?;
        rest = after;
    }
    Ok(rest)
}

/// Returns what the rows of these lines weigh together with those that were read, or the largest `u64` where that is
/// more. It keeps no row.
pub(crate) fn weigh_lines(
    alloc: Global,
    o: &Options,
    now: i64,
    lines: &[u8],
    taking: &Taking,
) -> Result<u64, AllocError>
    requires { pos 0 ≤ℤ now }
    ensures { IfOk result (λ weight. (outcomes : List Outcome)
        × IsWeighing o.now now lines.now taking.now.weight outcomes weight) }
{
    let mut weight = taking.weight;
    let mut made = taking.made;
    let mut room = ROOM;
    let mut rest = lines;
    while let Some((line, after)) = next_line(rest) {
        let outcome = read_line(alloc, o, now, line, room)?;
        made = taking.made_with(made, &outcome)?;
        weight = weight.saturating_add(weight_of(&outcome));
        if let LineOutcome::Read(row) = &outcome {
            room = row.fields().len() + 1;
        }
        rest = after;
    }
    Ok(weight)
}
