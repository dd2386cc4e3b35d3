//! A load into the store of a vault.
ghost use Rattle.std.specs.Prelude.{◌≡◌, ◌+◌, ◌^◌, ◌<◌, ◌≤◌, [], IfErr, IfOk, List, OnOk, length};
ghost use Rattle.std.specs.Prelude.{ℕ};
ghost use Rattle.log_model.specs.History.{batches_in};
ghost use Rattle.log_model.specs.Line.{lines_of};
ghost use Rattle.log_model.specs.Row.{Batch};
ghost use Rattle.vl_io.specs.Change.{Took, change_of};
ghost use Rattle.vl_vault.specs.Moments.{EachImage};
ghost use Rattle.part_store.specs.Finds.{Finds, HaveRows};
ghost use Rattle.part_store.specs.Reopening.{AreListedDurable};
ghost use Rattle.ingest_row.specs.Intake.{Outcome};
ghost use Rattle.vl_open.specs.Opening.{LeavesContent};
ghost use Rattle.vl_pipe.specs.Flushing.{flush_size};
ghost use Rattle.vl_pipe.specs.Groups.{Arrival as Came, refusals_from};
ghost use Rattle.vl_pipe.specs.Load.{IsUnderWay, Run, TakesGroup, errors_of};
ghost use Rattle.vl_pipe.specs.Opened.{IsOpenDesk};
ghost use Rattle.vl_pipe.specs.StoredLoad.{EndsLoad, LoadSurvives, LoadsAll};
ghost use Rattle.vl_pipe.specs.Storing.{Base, HasStopped, IsStoring, LoadsSafely, StopsInsert, StopsStored};
ghost use Rattle.vl_pipe.specs.VaultChange.{vault_change};
ghost use Rattle.vl_pipe.specs.Window.{AreReadGroups, IsReadGroup, bodies_of};

use crate::arrival::Arrival;
use crate::flush::{StoredDesk, flush_if_due, flush_rest};
use crate::load::{GROUP_LINES, INPUT_LIMIT, take_group};
use crate::load_stop::LoadStop;
use crate::report::report_stop;
use crate::stored_desk::open_desk;
use crate::window::{Group, WINDOW_GROUPS, Window, read_window};
use std::alloc::AllocGlobal;
use std::sync::Wait;
use std::thread::Threads;
use vl_io::{GroupReader, Sink, Source};
use vl_status::Status;
use vl_vault::Vault;

/// The last number that a batch may have.
const LAST_NUMBER: u64 = 9_223_372_036_854_775_807;

/// Loads the lines of the source into the batches of a vault, which comes back. After each 16 batches, and at the end
/// if any are not settled, all batches are written to the vault, and the line `flushed n` to the output.
pub fn run_load<R: AllocGlobal + Threads + Wait + Sync, S: Source, O: Sink, E: Sink, V: Vault>(
    rt: &R,
    arrival: &Arrival,
    vault: V,
    src: &mut S,
    out: &mut O,
    err: &mut E,
) -> (Status, V)
    requires durable { V.is_told → AreListedDurable (V.past vault) }
    ensures ends { EndsLoad V.is_told (record {
      arrival = arrival.now;
      source = change_of S.left S.faults src.old src.new;
      vault = vault_change V.past V.faults vault result.1;
      output = change_of O.written O.faults out.old out.new;
      errors = change_of E.written E.faults err.old err.new;
    }) result.0 }

    // Where each image of the vault finds the same batches, none is lost, and each line that was written holds.
    ensures survives { V.is_told → LeavesContent (V.past vault) → (held : List Batch) → HaveRows held
        → EachImage (Finds held) (V.past vault) → LoadSurvives held (record {
          arrival = arrival.now;
          source = change_of S.left S.faults src.old src.new;
          vault = vault_change V.past V.faults vault result.1;
          output = change_of O.written O.faults out.old out.new;
          errors = change_of E.written E.faults err.old err.new;
        }) }
    ensures stays { V.faults vault ≤ V.faults result.1 }
{
    let (desk, keeper) = match open_desk(rt, vault, err) {
        Ok(opened) => opened,
        Err(refused) => return refused,
    };
    let count = keeper.front();
    let mut stored = StoredDesk {
        alloc: rt.alloc(),
        desk,
        keeper,
        count,
    };
    match load_stored(rt, &mut stored, arrival, src, out, err) {
        Ok(()) => (Status::Done, into_vault(stored)),
        Err(stop) => (report_stop(rt.alloc(), stop, err), into_vault(stored)),
    }
}

/// Returns the vault of the store.
fn into_vault<R, V: Vault>(stored: StoredDesk<'_, R, V>) -> V
    ensures { result ≡ stored.entry.keeper.vault }
{
    let StoredDesk { keeper, .. } = stored;
    keeper.into_store().into_vault()
}

/// Loads the input into the desk, group by group, and writes the batches to the vault. Groups are read in windows, as
/// for a query over an input.
fn load_stored<R: Threads + Wait + Sync, S: Source, O: Sink, E: Sink, V: Vault>(
    rt: &R,
    stored: &mut StoredDesk<'_, R, V>,
    arrival: &Arrival,
    src: &mut S,
    out: &mut O,
    err: &mut E,
) -> Result<(), LoadStop>
    requires opened { IsOpenDesk stored.old.keeper stored.old.desk }
    requires counted { stored.old.count ≡ stored.old.keeper.front }
    ensures loaded { OnOk result (LoadsAll arrival.now (length (batches_in stored.old.desk.history))
        (change_of S.left S.faults src.old src.new) (change_of O.written O.faults out.old out.new)
        (Took (change_of E.written E.faults err.old err.new))) }
    ensures stopped { IfErr result (StopsStored V.is_told arrival.now (batches_in stored.old.desk.history)
        (change_of S.left S.faults src.old src.new) (change_of O.written O.faults out.old out.new)
        (change_of E.written E.faults err.old err.new)
        (vault_change V.past V.faults stored.old.keeper.vault stored.new.keeper.vault)) }
    ensures safe { LoadsSafely V.is_told arrival.now (batches_in stored.old.desk.history)
        (change_of S.left S.faults src.old src.new) (change_of O.written O.faults out.old out.new)
        (V.past stored.old.keeper.vault) (V.past stored.new.keeper.vault) }
    ensures faults { E.faults err.old ≤ E.faults err.new }
    ensures stays { V.faults stored.old.keeper.vault ≤ V.faults stored.new.keeper.vault }
{
    stored.keeper.finds_law();
    let mut reader = GroupReader::of(stored.alloc, GROUP_LINES, INPUT_LIMIT)?;
    let mut lines: u64 = 0;
    let mut most = 1;
    'windows: loop {
        let Window { groups, more } = read_window(
            rt,
            stored.alloc,
            arrival,
            &mut reader,
            src,
            most,
        );
        lines = store_groups(stored, groups, lines, out, err)?;
        if !more? {
            return flush_rest(stored, out);
        }
        most = (most * 2).min(WINDOW_GROUPS);
    }
}

/// Takes in groups that were read, one after another, where this many lines came before them, and writes the batches to
/// the vault where that is due. Returns how many lines there are with them, as if each group were whole.
fn store_groups<R: Wait, O: Sink, E: Sink, V: Vault>(
    stored: &mut StoredDesk<'_, R, V>,
    groups: Vec<Group>,
    lines_before: u64,
    out: &mut O,
    err: &mut E,
) -> Result<u64, LoadStop>
    requires next { (run : Run) × (base : Base) × AreReadGroups run.arrival groups.items
        × IsUnderWay run (bodies_of groups.items) (E.written err.old) (E.faults err.old) stored.old.desk lines_before
        × IsStoring V.is_told V.past V.faults run.opened base stored.old.keeper stored.old.desk stored.old.count
        (O.written out.old) (O.faults out.old) × (stored.old.count < stored.old.keeper.front + flush_size) }
    ensures taken { (run : Run) (base : Base) → AreReadGroups run.arrival groups.items
        → IsUnderWay run (bodies_of groups.items) (E.written err.old) (E.faults err.old) stored.old.desk lines_before
        → IsStoring V.is_told V.past V.faults run.opened base stored.old.keeper stored.old.desk stored.old.count
        (O.written out.old) (O.faults out.old)
        → stored.old.count < stored.old.keeper.front + flush_size
        → IfOk result (λ lines. IsUnderWay run [] (E.written err.new) (E.faults err.new) stored.new.desk lines
        × IsStoring V.is_told V.past V.faults run.opened base stored.new.keeper stored.new.desk stored.new.count
        (O.written out.new) (O.faults out.new)) }
    ensures room { OnOk result (stored.new.count < stored.new.keeper.front + flush_size) }
    ensures stopped { (run : Run) (base : Base) → AreReadGroups run.arrival groups.items
        → IsUnderWay run (bodies_of groups.items) (E.written err.old) (E.faults err.old) stored.old.desk lines_before
        → IsStoring V.is_told V.past V.faults run.opened base stored.old.keeper stored.old.desk stored.old.count
        (O.written out.old) (O.faults out.old)
        → stored.old.count < stored.old.keeper.front + flush_size
        → IfErr result (HasStopped V.is_told V.past V.faults run.arrival run.opened run.source
        (errors_of run (E.written err.new) (E.faults err.new)) base stored.new.keeper (O.written out.new)
        (O.faults out.new)) }
    ensures faults { E.faults err.old ≤ E.faults err.new }
{
    let mut lines = lines_before;
    for group in groups {
        store_group(stored, group, lines, err)?;
        flush_if_due(stored, out)?;
        lines += GROUP_LINES as u64;
    }
    Ok(lines)
}

/// Takes one group in, where this many lines came before it, if there is a number for its batch.
fn store_group<R: Wait, E: Sink, V: Vault>(
    stored: &mut StoredDesk<'_, R, V>,
    group: Group,
    lines_before: u64,
    err: &mut E,
) -> Result<(), LoadStop>
    requires read { (arrival : Came) × IsReadGroup arrival group }
    requires numbers { lines_before + length group.body.items < 2 ^ 64 }
    requires lines { length (lines_of group.body.items) ≤ 1000 }
    requires counted { stored.old.count ≡ length stored.old.desk.history }
    ensures taken { (arrival : Came) → IsReadGroup arrival group → OnOk result ((outcomes : List Outcome)
        × TakesGroup arrival group.body.items outcomes stored.old.desk stored.new.desk
        × Took (change_of E.written E.faults err.old err.new) (refusals_from (lines_before + 1) outcomes)) }
    ensures counted { OnOk result (stored.new.count ≡ length stored.new.desk.history) }
    ensures stopped { (arrival : Came) → IsReadGroup arrival group
        → IfErr result (StopsInsert arrival group.body.items lines_before stored.old.desk stored.new.desk
        (change_of E.written E.faults err.old err.new)) }
    ensures keeper { stored.new.keeper ≡ stored.old.keeper }
    ensures faults { E.faults err.old ≤ E.faults err.new }
{
    if stored.count >= LAST_NUMBER {
        return Err(LoadStop::Spent);
    }
    match take_group(&mut stored.desk, group, lines_before, err)? {
        Some(number) => {
            stored.count = number;
            Ok(())
        }
        None => Ok(()),
    }
}
