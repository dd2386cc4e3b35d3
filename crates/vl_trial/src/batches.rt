//! Cuts the rows of a trial into batches.
ghost use Rattle.std.specs.Prelude.{◌≡◌, ◌++◌, ◌≤◌, ◌<◌, ◌+◌, [], length, flat_map, IfOk, OnErr, Ok};
ghost use Rattle.std.specs.Prelude.{None, option_to_list};
ghost use Rattle.vl_row.specs.Faults.{batch_fault};
ghost use Rattle.vl_trial.specs.Trial.{trial_batches, trial_rows, state_at};
ghost use Rattle.vl_trial.specs.Left.{rows_from};

use crate::row::{next_state, trial_row};
use std::alloc::{AllocError, Global};
use std::marker::Model;
use vl_row::{Batch, Row, Text};

/// How many rows a batch has. The last one may have fewer.
const BATCH_ROWS: u64 = 1_000;

/// Makes the batches of the rows of a trial, one after another.
///
/// A contract sees the batches that are left.
#[derive(Drop)]
pub struct TrialBatches {
    state: u64,
    next: u64,
    rows: u64,
}

impl Model for TrialBatches {
    ghost use Rattle.std.specs.Prelude.{◌-◌, ◌≤◌, List};
    ghost use Rattle.log_model.specs.Row.{Batch as Rows};
    ghost use Rattle.vl_trial.specs.Left.{batches_from};

    ghost Value = { List Rows };

    ghost view = { λ t. batches_from t.state t.next (t.rows - t.next) };

    ghost invariant = { λ t. (t.next ≤ t.rows) × (t.rows ≤ 1_000_000) };
}

impl TrialBatches {
    /// Makes the batches of `rows` rows from `seed`.
    pub fn new(seed: u64, rows: u64) -> TrialBatches
        requires { rows ≤ 1_000_000 }
        ensures batches { result ≡ trial_batches seed rows }
        // Together they are the rows, one after another.
        ensures whole { flat_map (λ batch. batch) result ≡ trial_rows seed rows }
        ensures few { length result ≤ 1000 }
    {
        TrialBatches {
            state: seed,
            next: 0,
            rows,
        }
    }

    /// Returns the next batch, or `None` after the last. If memory runs out, no batch is lost.
    pub fn next_batch(&mut self, alloc: Global) -> Result<Option<Batch>, AllocError>
        ensures given { IfOk result (λ next. self.old ≡ option_to_list next ++ self.new) }
        ensures ended { result ≡ Ok None → self.old ≡ [] }
        ensures kept { OnErr result (self.new ≡ self.old) }
    {
        let count = (self.rows - self.next).min(BATCH_ROWS);
        if count == 0 {
            return Ok(None);
        }
        let (rows, state) = rows_from(alloc, self.state, self.next, count)?;
        self.state = state;
        self.next += count;
        Ok(Some(batch_of(rows)))
    }
}

/// Makes `count` rows from number `first` on, where the generator's state is `state`, and returns its state after them.
fn rows_from(
    alloc: Global,
    mut state: u64,
    first: u64,
    count: u64,
) -> Result<(Vec<Row>, u64), AllocError>
    requires { first + count ≤ 1_000_000 }
    ensures rows { IfOk result (λ made. made.0.items ≡ rows_from state first count) }
    ensures state { IfOk result (λ made. made.1 ≡ state_at state count) }
{
    let labels = [Text::try_of(alloc, "app")?];
    let mut rows = Vec::with_capacity(alloc, count as usize)?;
    for number in first..first + count {
        state = next_state(state);
        rows.push(trial_row(alloc, &labels, number, state >> 32)?)?;
    }
    Ok((rows, state))
}

/// Makes a batch of these rows.
fn batch_of(rows: Vec<Row>) -> Batch
    requires { batch_fault rows.items ≡ None }
    ensures { result ≡ rows.items }
{
    match Batch::try_of(rows) {
        Ok(batch) => batch,
        Err(_) => unreachable!(),
    }
}
