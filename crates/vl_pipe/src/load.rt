//! The way of an input to the desk.
ghost use Rattle.std.specs.Prelude.{◌≡◌, ◌+◌, ◌^◌, ◌≤◌, ◌<◌, List, [], IfErr, IfOk, OnOk, length};
ghost use Rattle.vl_io.specs.Change.{Took, change_of};
ghost use Rattle.log_model.specs.Core.{held_limit};
ghost use Rattle.log_model.specs.History.{batches_in};
ghost use Rattle.log_model.specs.Line.{lines_of};
ghost use Rattle.ingest_row.specs.Intake.{Outcome, refused_from};
ghost use Rattle.lone_desk.specs.Alone.{last_number};
ghost use Rattle.vl_pipe.specs.Groups.{Arrival as Came, refusals_from};
ghost use Rattle.vl_pipe.specs.Load.{AreSettled, IsHeld, IsLast, IsLoaded, IsUnderWay, RefusesGroup, Run};
ghost use Rattle.vl_pipe.specs.Load.{StopsGroup, StopsLoad, TakesGroup, errors_of};
ghost use Rattle.vl_pipe.specs.Window.{AreReadGroups, IsReadGroup, bodies_of};

use crate::arrival::Arrival;
use crate::interrupt::{Interrupt, Limit};
use crate::names::names_after;
use crate::window::{Group, WINDOW_GROUPS, Window, read_window};
use lone_desk::{Insertion, InsertionFault, LoneDesk};
use std::alloc::{AllocGlobal, Global};
use std::sync::Wait;
use std::thread::Threads;
use vl_io::{Failed, GroupReader, Sink, Source, put_all};

/// How many lines form a group.
pub(crate) const GROUP_LINES: usize = 1_000;

/// The most bytes that an input may have.
pub(crate) const INPUT_LIMIT: usize = 4_294_967_296;

/// Returns a desk of only the input.
pub(crate) fn load_fresh<'r, R: AllocGlobal + Threads + Wait + Sync, S: Source, E: Sink>(
    rt: &'r R,
    arrival: &Arrival,
    src: &mut S,
    err: &mut E,
) -> Result<LoneDesk<'r, R>, Interrupt>
    ensures loaded { IfOk result (IsLoaded arrival.now [] (change_of S.left S.faults src.old src.new)
        (change_of E.written E.faults err.old err.new)) }
    ensures settled { IfOk result (AreSettled []) }
    ensures stopped { IfErr result (StopsLoad arrival.now (change_of S.left S.faults src.old src.new)
        (change_of E.written E.faults err.old err.new)) }
    ensures faults { E.faults err.old ≤ E.faults err.new }
{
    let mut desk = LoneDesk::fresh(rt, rt.alloc())?;
    load(rt, &mut desk, rt.alloc(), arrival, src, err)?;
    Ok(desk)
}

/// Loads the input into the desk, group by group: the rows of a group become one batch, and then its refused lines are
/// named. Groups are read in windows, and a window's groups side by side. The first windows are small, so that a short
/// input starts no thread and its first refused lines are named soon.
fn load<R: Threads + Wait + Sync, S: Source, E: Sink>(
    rt: &R,
    desk: &mut LoneDesk<'_, R>,
    alloc: Global,
    arrival: &Arrival,
    src: &mut S,
    err: &mut E,
) -> Result<(), Interrupt>
    requires opened { IsHeld (batches_in desk.old.history) desk.old [] }
    requires settled { AreSettled (batches_in desk.old.history) desk.old }
    requires numbers { desk.old.settled + held_limit < last_number }
    ensures loaded { OnOk result (IsLoaded arrival.now (batches_in desk.old.history)
        (change_of S.left S.faults src.old src.new) (change_of E.written E.faults err.old err.new) desk.new) }
    ensures settled { OnOk result (desk.new.settled ≡ desk.old.settled) }
    ensures stopped { IfErr result (StopsLoad arrival.now (change_of S.left S.faults src.old src.new)
        (change_of E.written E.faults err.old err.new)) }
    ensures faults { E.faults err.old ≤ E.faults err.new }
{
    let mut reader = GroupReader::of(alloc, GROUP_LINES, INPUT_LIMIT)?;
    let mut lines: u64 = 0;
    let mut most = 1;
    'windows: loop {
        let Window { groups, more } = read_window(rt, alloc, arrival, &mut reader, src, most);
        lines = take_groups(desk, groups, lines, err)?;
        if !more? {
            return Ok(());
        }
        most = (most * 2).min(WINDOW_GROUPS);
    }
}

/// Takes in groups that were read, one after another, where this many lines came before them. Returns how many lines
/// there are with them, as if each group were whole.
fn take_groups<R: Wait, E: Sink>(
    desk: &mut LoneDesk<'_, R>,
    groups: Vec<Group>,
    lines_before: u64,
    err: &mut E,
) -> Result<u64, Interrupt>
    requires next { (run : Run) × AreReadGroups run.arrival groups.items
        × IsUnderWay run (bodies_of groups.items) (E.written err.old) (E.faults err.old) desk.old lines_before }
    requires numbers { desk.old.settled + held_limit < last_number }
    ensures taken { (run : Run) → AreReadGroups run.arrival groups.items
        → IsUnderWay run (bodies_of groups.items) (E.written err.old) (E.faults err.old) desk.old lines_before
        → IfOk result (IsUnderWay run [] (E.written err.new) (E.faults err.new) desk.new) }
    ensures settled { OnOk result (desk.new.settled ≡ desk.old.settled) }
    ensures stopped { (run : Run) → AreReadGroups run.arrival groups.items
        → IsUnderWay run (bodies_of groups.items) (E.written err.old) (E.faults err.old) desk.old lines_before
        → AreSettled run.opened desk.old
        → IfErr result (StopsLoad run.arrival run.source (errors_of run (E.written err.new) (E.faults err.new))) }
    ensures faults { E.faults err.old ≤ E.faults err.new }
{
    let mut lines = lines_before;
    for group in groups {
        take_group(desk, group, lines, err)?;
        lines += GROUP_LINES as u64;
    }
    Ok(lines)
}

/// Takes one group in, where this many lines came before it. Returns the number of its batch, if it has rows.
pub(crate) fn take_group<R: Wait, E: Sink>(
    desk: &mut LoneDesk<'_, R>,
    group: Group,
    lines_before: u64,
    err: &mut E,
) -> Result<Option<u64>, Interrupt>
    requires read { (arrival : Came) × IsReadGroup arrival group }
    requires numbers { lines_before + length group.body.items < 2 ^ 64 }
    requires lines { length (lines_of group.body.items) ≤ 1000 }
    requires numbered { length desk.old.history < last_number }
    ensures taken { (arrival : Came) → IsReadGroup arrival group → OnOk result ((outcomes : List Outcome)
        × TakesGroup arrival group.body.items outcomes desk.old desk.new
        × Took (change_of E.written E.faults err.old err.new) (refusals_from (lines_before + 1) outcomes)) }
    ensures stopped { (arrival : Came) → IsReadGroup arrival group
        → IfErr result (StopsGroup arrival group.body.items lines_before desk.old
        desk.new (change_of E.written E.faults err.old err.new)) }
    ensures numbered { IfOk result (IsLast desk.old.history desk.new.history) }
    ensures faults { E.faults err.old ≤ E.faults err.new }
{
    let insertion = insert_group(desk, group)?;
    let number = insertion.batch;
    let refused = insertion.refused.into_vec();
    let refusals = names_after(*refused.allocator(), lines_before, refused.as_slice())?;
    match put_all(err, refusals.as_bytes()) {
        Ok(()) => Ok(number),
        Err(Failed) => Err(Interrupt::Unwritable),
    }
}

/// Inserts the lines of one group.
fn insert_group<R: Wait>(desk: &mut LoneDesk<'_, R>, group: Group) -> Result<Insertion, Interrupt>
    requires read { (arrival : Came) × IsReadGroup arrival group }
    requires lines { length (lines_of group.body.items) ≤ 1000 }
    requires numbered { length desk.old.history < last_number }
    ensures taken { (arrival : Came) → IsReadGroup arrival group → IfOk result (λ insertion. (outcomes : List Outcome)
        × TakesGroup arrival group.body.items outcomes desk.old desk.new
        × (insertion.refused ≡ refused_from 1 outcomes)) }
    ensures numbered { IfOk result (λ insertion. IsLast desk.old.history desk.new.history insertion.batch) }
    ensures refused { (arrival : Came) → IsReadGroup arrival group
        → IfErr result (RefusesGroup arrival group.body.items desk.old) }
{
    match desk.insert_read(group.read) {
        Ok(insertion) => Ok(insertion),
        Err(InsertionFault::Large { weight }) => Err(Interrupt::Beyond(Limit::Large(weight))),
        Err(InsertionFault::Full { .. }) => Err(Interrupt::Beyond(Limit::Full)),
        Err(InsertionFault::Spent) => unreachable!(),
        Err(InsertionFault::Memory) => Err(Interrupt::NoMemory),
    }
}
