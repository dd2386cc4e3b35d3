//! From a body to its rows, and to the lines that are none.
ghost use Rattle.std.specs.Prelude.{◌≡◌, ◌≤ℤ◌, [], ◌∷◌, ◌++◌, List, pos, IfOk, OnOk};
ghost use Rattle.ingest_row.specs.Intake.{IsOutcome, IsTaken, Outcome, outcome_of, refused_from, rows_read};

use crate::kind::LineKind;
use crate::line::row_with_room;
use crate::lines::is_blank;
use crate::options::Options;
use crate::taking::{Taking, take_lines};
use std::alloc::{AllocError, Global};
use vl_row::{Items, Row};

/// A line that gives no row: its number, counted from 1, and why.
#[derive(Clone, Copy, Debug, PartialEq, Eq)]
pub struct LineFault {
    pub line: u64,
    pub kind: LineKind,
}

/// The rows of a body, and the lines that gave none, both in their order.
#[derive(Drop)]
pub struct Intake {
    pub rows: Items<Row>,
    pub refused: Items<LineFault>,
}

/// What becomes of a line.
#[derive(Drop)]
pub(crate) enum LineOutcome {
    PassedOver,
    Read(Row),
    Refused(LineKind),
}

impl Intake {
    pub(crate) fn new(alloc: Global) -> Intake
        ensures rows { result.rows ≡ [] }
        ensures refused { result.refused ≡ [] }
    {
        Intake {
            rows: Items::of(Vec::new(alloc)),
            refused: Items::of(Vec::new(alloc)),
        }
    }

    /// Takes in what became of the line with this number.
    pub(crate) fn add(&mut self, number: u64, outcome: LineOutcome) -> Result<(), AllocError>
        ensures rows { OnOk result (self.new.rows ≡ self.old.rows ++ rows_read (outcome_of outcome ∷ [])) }
        ensures refused { OnOk result (self.new.refused
            ≡ self.old.refused ++ refused_from number (outcome_of outcome ∷ [])) }
    {
        match outcome {
            LineOutcome::PassedOver => Ok(()),
            LineOutcome::Read(row) => self.rows.push(row).map_err(|refused| refused.0),
            LineOutcome::Refused(kind) => {
                let fault = LineFault { line: number, kind };
                self.refused.push(fault).map_err(|refused| refused.0)
            }
        }
    }
}

/// Returns what becomes of one line. `room` is how many fields are expected.
pub(crate) fn read_line(
    alloc: Global,
    o: &Options,
    now: i64,
    line: &[u8],
    room: usize,
) -> Result<LineOutcome, AllocError>
    requires { pos 0 ≤ℤ now }
    ensures { IfOk result (λ outcome. IsOutcome o.now now line.now (outcome_of outcome)) }
{
    if is_blank(line) {
        return Ok(LineOutcome::PassedOver);
    }
    match row_with_room(alloc, o, now, line, room) {
        Ok(row) => Ok(LineOutcome::Read(row)),
        Err(kind) if kind == LineKind::Memory => Err(AllocError),
        Err(kind) => Ok(LineOutcome::Refused(kind)),
    }
}

/// Reads each line of a body that came in at the moment `now`, in nanoseconds since 1970. A body is cut at its line
/// feeds. Lines of blanks, tabs and carriage returns only are skipped.
pub fn batch_of_body(
    alloc: Global,
    o: &Options,
    now: i64,
    body: &[u8],
) -> Result<Intake, AllocError>
    requires { pos 0 ≤ℤ now }
    ensures { IfOk result (λ intake. (outcomes : List Outcome) × IsTaken o.now now body.now outcomes intake) }
{
    let mut taking = Taking::new(alloc, o, None);
    take_lines(alloc, o, now, body, &mut taking)?;
    Ok(taking.into_intake())
}
