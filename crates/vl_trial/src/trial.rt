//! Inserts the rows of a trial and prints the answers to its queries.
ghost use Rattle.std.specs.Prelude.{◌≡◌, ◌≤◌, ◌≤ℤ◌, ◌++◌, [], IfOk, OnOk, pos, string_bytes, unsigned_abs};
ghost use Rattle.log_model.specs.History.{batches_in, rows_of};
ghost use Rattle.vl_trial.specs.QueryTexts.{count_text, errors_text, slow_text};
ghost use Rattle.vl_trial.specs.Trial.{trial_batches, trial_rows};
ghost use Rattle.lone_desk.specs.Answer.{HasRecords};
ghost use Rattle.lone_desk.specs.Kept.{MayKeepAlone};
ghost use Rattle.vl_trial.specs.Answer.{AreLines, IsTrialAnswer};

use crate::batches::TrialBatches;
use crate::kept::{open_desk, round_after};
use crate::laws::{trial_law, trial_queries_law};
use log_desk::InsertFault;
use lone_desk::{AnswerFault, Keeper, LoneDesk};
use std::alloc::{AllocError, Global};
use std::random::RandomSource;
use std::sync::Wait;
use vl_row::Text;
use vl_vault::MemoryVault;

/// Counts all rows.
const COUNTED: &str = "* | stats count() as n";

/// Counts the rows with errors of each app, and sums their milliseconds.
const ERRORS: &str = "error | stats by (app) count() as n, sum(ms) as s";

/// Counts the slow rows of the database on the first day.
const SLOW: &str = "_time:2024-05-01Z {app=\"db\"} ms:>500 | stats count() as n";

/// Inserts `rows` rows made from `seed`, batch by batch, and returns the lines of the three queries over them, one
/// query after another. `now` is in nanoseconds since 1970.
pub fn trial_lines<R: Wait + RandomSource>(
    rt: &R,
    alloc: Global,
    seed: u64,
    rows: u64,
    now: i64,
) -> Result<String, AllocError>
    requires rows { rows ≤ 1_000_000 }
    requires moment { pos 0 ≤ℤ now }
    ensures { IfOk result (λ lines. IsTrialAnswer seed rows (unsigned_abs now) (string_bytes lines)) }
{
    trial_queries_law();
    trial_law();
    let (mut desk, mut keeper) = open_desk(rt, alloc)?;
    insert_rows(&mut desk, &mut keeper, alloc, seed, rows)?;
    let counted = lines_of(&mut desk, COUNTED, now)?;
    let errors = lines_of(&mut desk, ERRORS, now)?;
    let slow = lines_of(&mut desk, SLOW, now)?;
    joined(alloc, counted.as_str(), errors.as_str(), slow.as_str())
}

/// Joins the three texts.
fn joined(alloc: Global, counted: &str, errors: &str, slow: &str) -> Result<String, AllocError>
    ensures { IfOk result (λ text. string_bytes text ≡ counted.now ++ (errors.now ++ slow.now)) }
{
    format!(in alloc; "{counted}{errors}{slow}")
}

/// Inserts the batches of the rows. The keeper has a round after each 16 of them.
fn insert_rows<R: Wait>(
    desk: &mut LoneDesk<'_, R>,
    keeper: &mut Keeper<MemoryVault>,
    alloc: Global,
    seed: u64,
    rows: u64,
) -> Result<(), AllocError>
    requires rows { rows ≤ 1_000_000 }
    requires nothing { desk.old.history ≡ [] }
    requires keeps { MayKeepAlone keeper.old desk.old }
    ensures entered { OnOk result (batches_in desk.new.history ≡ trial_batches seed rows) }
    ensures rows { OnOk result (rows_of desk.new.history ≡ trial_rows seed rows) }
{
    let mut batches = TrialBatches::new(seed, rows);
    while let Some(batch) = batches.next_batch(alloc)? {
        match desk.insert(batch) {
            Ok(number) => round_after(desk, keeper, number)?,
            Err(InsertFault::Full { .. }) => unreachable!(),
            Err(InsertFault::Spent) => unreachable!(),
            Err(InsertFault::Memory) => return Err(AllocError),
        }
    }
    Ok(())
}

/// Returns the lines of a query that has records.
fn lines_of<R: Wait + RandomSource>(
    desk: &mut LoneDesk<'_, R>,
    text: &str,
    now: i64,
) -> Result<Text, AllocError>
    requires has { HasRecords text.now (unsigned_abs now) desk.old.history }
    requires moment { pos 0 ≤ℤ now }
    ensures lines { IfOk result (AreLines text.now (unsigned_abs now) (rows_of desk.old.history)) }
    ensures same { desk.new.history ≡ desk.old.history }
{
    match desk.answer_query(text, now) {
        Ok(answer) => Ok(answer.lines),
        Err(AnswerFault::Memory) => Err(AllocError),
        Err(_) => unreachable!(),
    }
}
