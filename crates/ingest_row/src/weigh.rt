//! Reads a body whose rows are to be one batch.
ghost use Rattle.std.specs.Prelude.{◌≤ℤ◌, List, pos, IfOk};
ghost use Rattle.ingest_row.specs.Intake.{Outcome};
ghost use Rattle.ingest_row.specs.Weighing.{IsWeighed};

use crate::body::Intake;
use crate::lines::next_line;
use crate::options::Options;
use crate::taking::{LIMIT, Taking, take_lines, weigh_lines};
use std::alloc::{AllocError, Global};

/// How many bytes the rows of a body may always take, with the blocks that are made of them.
const LEAST: u64 = 50_331_648;

/// How many times the bytes of the body they may take, where that is more.
const TIMES: u64 = 17;

/// The rows of a body that are to be one batch.
#[derive(Drop)]
pub enum Weighed {
    /// Its rows weigh at most 67,108,864 together. There may be none.
    Light(Intake),
    /// Its rows weigh this much together, which is more, or the largest `u64` where that is more. They are not kept.
    Heavy { weight: u64 },
}

/// Reads each line of a body, as `batch_of_body` does, if its rows can be one batch. Where they weigh too much, it
/// stops keeping rows and only weighs the lines that are left. Memory runs out where the rows and their blocks would
/// take more than 48 MiB and more than 17 times the bytes of the body, or the added fields of all lines 16 times that.
pub fn weigh_body(alloc: Global, o: &Options, now: i64, body: &[u8]) -> Result<Weighed, AllocError>
    requires { pos 0 ≤ℤ now }
    ensures { IfOk result (λ weighed. (outcomes : List Outcome) × IsWeighed o.now now body.now outcomes weighed) }
{
    let most = (body.len() as u64).saturating_mul(TIMES).max(LEAST);
    let mut taking = Taking::new(alloc, o, Some(most));
    let rest = take_lines(alloc, o, now, body, &mut taking)?;
    let weight = weigh_lines(alloc, o, now, rest, &taking)?;
    if weight > LIMIT {
        return Ok(Weighed::Heavy { weight });
    }
    if taking.is_full() {
        return Err(AllocError);
    }
    match next_line(rest) {
        Some(_) => Err(AllocError),
        None => Ok(Weighed::Light(taking.into_intake())),
    }
}
