//! A query over the batches of a vault.
ghost use Rattle.std.specs.Prelude.{◌≡◌, ◌≢◌, ◌≤◌, ◌≤ℤ◌, List, pos, unsigned_abs};
ghost use Rattle.log_model.specs.History.{rows_of};
ghost use Rattle.log_model.specs.Row.{Batch};
ghost use Rattle.vl_io.specs.Change.{change_of};
ghost use Rattle.vl_vault.specs.Moments.{Always, EachImage};
ghost use Rattle.part_store.specs.Finds.{Finds};
ghost use Rattle.part_store.specs.Reopening.{AreListedDurable};
ghost use Rattle.lone_desk.specs.Asked.{IsReadableQuery};
ghost use Rattle.lone_desk.specs.Question.{question};
ghost use Rattle.vl_open.specs.Opening.{LeavesContent};
ghost use Rattle.vl_pipe.specs.Stored.{EndsAnswer, EndsQuery, IsQueried};
ghost use Rattle.vl_pipe.specs.VaultChange.{vault_change};

use crate::pipe::write_answer;
use crate::report::{report_interrupt, report_refused};
use crate::stored_desk::open_desk;
use lone_desk::{LoneDesk, Search, read_query};
use std::alloc::AllocGlobal;
use std::random::RandomSource;
use std::sync::Wait;
use vl_io::Sink;
use vl_status::Status;
use vl_vault::Vault;

/// What `query` asks.
#[derive(Clone, Copy)]
pub struct StoredQuery<'q> {
    /// The text of the query.
    pub text: &'q str,
    /// The moment at which it is asked, in nanoseconds since the start of 1970.
    pub moment: i64,
}

/// Answers a query over the batches of a vault, which comes back, or says why not. A query that is refused makes no
/// call on the vault.
pub fn run_query<R: AllocGlobal + Wait + RandomSource, O: Sink, E: Sink, V: Vault>(
    rt: &R,
    asked: &StoredQuery<'_>,
    vault: V,
    out: &mut O,
    err: &mut E,
) -> (Status, V)
    requires moment { pos 0 ≤ℤ asked.now.moment }
    requires durable { V.is_told → AreListedDurable (V.past vault) }
    ensures ends { IsQueried V.is_told (record {
      text = asked.now.text.now;
      now = unsigned_abs asked.now.moment;
      vault = vault_change V.past V.faults vault result.1;
      output = change_of O.written O.faults out.old out.new;
      errors = change_of E.written E.faults err.old err.new;
    }) result.0 }

    // Where each image of the vault finds the same batches, each image finds them at every moment of the run.
    ensures survives { V.is_told → LeavesContent (V.past vault) → (held : List Batch)
        → EachImage (Finds held) (V.past vault)
        → Always (EachImage (Finds held)) (V.past vault) (V.past result.1) }
    ensures unread { (IsReadableQuery asked.now.text.now → ⊥) → result.1 ≡ vault }
    ensures untouched { result.0 ≢ Status.Done → result.0 ≢ Status.WriteFault → out.new ≡ out.old }
    ensures stays { V.faults vault ≤ V.faults result.1 }
{
    match read_query(rt.alloc(), asked.text) {
        Ok(search) => {
            let prepared = PreparedQuery {
                search: &search,
                asked,
            };
            answer_stored(rt, &prepared, vault, out, err)
        }
        Err(refusal) => (report_refused(rt.alloc(), refusal, err), vault),
    }
}

/// What `query` asks, once its text is read.
#[derive(Clone, Copy)]
struct PreparedQuery<'p> {
    search: &'p Search,
    asked: &'p StoredQuery<'p>,
}

/// Opens the vault and writes the answer, or says why not.
fn answer_stored<R: AllocGlobal + Wait + RandomSource, O: Sink, E: Sink, V: Vault>(
    rt: &R,
    prepared: &PreparedQuery<'_>,
    vault: V,
    out: &mut O,
    err: &mut E,
) -> (Status, V)
    requires moment { pos 0 ≤ℤ prepared.now.asked.now.moment }
    requires durable { V.is_told → AreListedDurable (V.past vault) }
    ensures ends { EndsQuery V.is_told (question prepared.now.search.now) (unsigned_abs prepared.now.asked.now.moment)
        (vault_change V.past V.faults vault result.1) (change_of O.written O.faults out.old out.new)
        (change_of E.written E.faults err.old err.new) result.0 }
    ensures survives { V.is_told → LeavesContent (V.past vault) → (held : List Batch)
        → EachImage (Finds held) (V.past vault)
        → Always (EachImage (Finds held)) (V.past vault) (V.past result.1) }
    ensures untouched { result.0 ≢ Status.Done → result.0 ≢ Status.WriteFault → out.new ≡ out.old }
    ensures stays { V.faults vault ≤ V.faults result.1 }
{
    let (mut desk, keeper) = match open_desk(rt, vault, err) {
        Ok(opened) => opened,
        Err(refused) => return refused,
    };
    let status = tell_answer(rt, &mut desk, prepared, out, err);
    (status, keeper.into_store().into_vault())
}

/// Writes the answer over all batches of the desk, or says why not.
fn tell_answer<R: AllocGlobal + Wait + RandomSource, O: Sink, E: Sink>(
    rt: &R,
    desk: &mut LoneDesk<'_, R>,
    prepared: &PreparedQuery<'_>,
    out: &mut O,
    err: &mut E,
) -> Status
    ensures ends { EndsAnswer (question prepared.now.search.now) prepared.now.asked.now.moment
        (rows_of desk.old.history) (change_of O.written O.faults out.old out.new)
        (change_of E.written E.faults err.old err.new) result }
    ensures untouched { result ≢ Status.Done → result ≢ Status.WriteFault → out.new ≡ out.old }
{
    match write_answer(desk, prepared.search, prepared.asked.moment, out) {
        Ok(()) => Status::Done,
        Err(interrupt) => report_interrupt(rt.alloc(), interrupt, err),
    }
}
