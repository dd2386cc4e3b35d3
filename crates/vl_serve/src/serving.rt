//! Serving doors side by side, with the keeper beside them.
ghost use Rattle.std.specs.Prelude.{◌≡◌, ◌<◌, ◌≤◌, [], None, false, length, map, vec_capacity, vec_len};
ghost use Rattle.std.specs.List.{AllByRecursion, AllZip};
ghost use Rattle.log_desk.specs.Calls.{KeepsMark};
ghost use Rattle.log_desk.specs.Keeping.{MayKeep};
ghost use Rattle.log_desk.specs.Passes.{IsPassOf, StaysAtSplit};
ghost use Rattle.log_desk.specs.Seen.{caller_of, seen_of};
ghost use Rattle.vl_serve.specs.Doors.{AreServed, EndDoors, GoesOn, door_change, door_changes};
ghost use Rattle.vl_serve.specs.Keeping.{HasKeptCause, HaveRounds, HoldsThat, IsKeeping};
ghost use Rattle.vl_serve.specs.Workers.{HasWorked, HaveEnded, IsOfDesk};

use crate::door::serve_door;
use crate::keep::{Kept, keep_on, keep_once};
use crate::worker::Worker;
use log_desk::{Desk, KeepFault, Keeper, Pass};
use std::alloc::Global;
use std::random::RandomSource;
use std::sync::Wait;
use std::sync::atomic::{AtomicU64, Ordering};
use std::thread::{Threads, join_mut};
use std::{mem, thread};
use vl_io::{Clock, Doors};
use vl_vault::Vault;

/// The outcome of serving all listeners.
#[derive(Clone, Copy, Debug, PartialEq, Eq)]
pub struct ServeEnd {
    /// How many doors ended because they failed.
    pub door_faults: u64,
    /// Why a round of the keeper failed first, other than for want of memory.
    pub kept: Option<KeepFault>,
    /// Whether memory ran out before there were workers, or in a round.
    pub memory: bool,
}

/// Serves all visits of the doors, each as one session over the desk, and has the keeper write the batches meanwhile.
/// It returns once each door has failed or has no visit left, and a last round has run.
///
/// Each door gets a worker, and a pass that is split from `pass`. Where no more passes can be split, or memory runs out
/// before there are workers, the doors without one are served after the others, one after another, with `pass` itself.
/// Then one more round follows.
///
/// Where rounds fail, the doors are served all the same.
///
/// The tests show, and no clause says, that each door for which there is a pass has a worker of its own with it, so
/// that doors are served side by side, that rounds run meanwhile, and that all doors have ended when the last round
/// begins.
pub fn serve<
    R: Threads + Wait + RandomSource + Sync,
    D: Doors + Send + Drop,
    V: Vault + Send,
    C: Clock + Send,
>(
    rt: &R,
    alloc: Global,
    desk: &Desk,
    pass: &mut Pass,
    keeper: &mut Keeper<V>,
    doors: &mut Vec<D>,
    clock: &mut C,
) -> ServeEnd
where
    D::S: Send,
    D::K: Send,
    D::C: Send,
    requires keeps { MayKeep desk.now keeper.old pass.old }
    requires doors { length doors.old.items ≤ 64 }
    ensures doors { length doors.new.items ≡ length doors.old.items }

    // It returns only where each door failed, or, where it tells, has no visit left. The doors that failed are counted.
    ensures ends { EndDoors (door_changes D.left D.faults doors.old.items doors.new.items) result.door_faults }

    // So rounds may go on.
    ensures keeps { MayKeep desk.now keeper.new pass.new }

    // At every moment a crash leaves what the store held, and further batches.
    ensures keeping { IsKeeping V.is_told V.past keeper.old keeper.new pass.old pass.new }
    ensures kept { HasKeptCause V.faults keeper.old keeper.new result.kept }
    ensures front { result.kept ≡ None → result.memory ≡ false → length pass.old.seen ≤ keeper.new.front }
    ensures stays { V.faults keeper.old.vault ≤ V.faults keeper.new.vault }
{
    let count = doors.len();
    let (Ok(workers), Ok(room)) = (
        Vec::with_capacity(alloc, count),
        Vec::with_capacity(alloc, count),
    ) else {
        let door_faults = serve_in_turn(rt, alloc, desk, pass, doors);
        let kept = keep_once(rt, alloc, desk, pass, keeper);
        return ServeEnd {
            door_faults,
            kept: kept.fault,
            memory: true,
        };
    };
    let mut workers = assign_workers(desk, pass, mem::replace(doors, room), workers);
    let kept = work_beside(rt, alloc, desk, pass, keeper, workers.as_mut_slice(), clock);
    let (door_faults, alone) = put_back(rt, desk, pass, workers, doors);
    let kept = kept.then(keep_last(rt, alloc, desk, pass, keeper, alone));
    ServeEnd {
        door_faults,
        kept: kept.fault,
        memory: kept.memory,
    }
}

/// Gives each door a worker, for whom there is room, and a pass, while there are more.
fn assign_workers<D: Doors + Drop>(
    desk: &Desk,
    pass: &mut Pass,
    doors: Vec<D>,
    mut workers: Vec<Worker<D>>,
) -> Vec<Worker<D>>
    requires pass { IsPassOf desk.now pass.old }
    requires none { workers.items ≡ [] }
    requires room { vec_len doors ≤ vec_capacity workers }
    ensures doors { map (λ worker. worker.door) result.items ≡ doors.items }
    ensures desk { AllByRecursion (IsOfDesk desk.now) result.items }
    ensures pass { IsPassOf desk.now pass.new }
    ensures stays { StaysAtSplit pass.old pass.new }
{
    for door in doors {
        let worker = Worker {
            door,
            pass: desk.split(pass).ok(),
            is_fault: false,
        };
        let Ok(()) = workers.push(worker) else {
            unreachable!()
        };
    }
    workers
}

/// Has the workers and the keeper work side by side. The keeper's last round begins once the workers have ended.
fn work_beside<
    R: Threads + Wait + RandomSource + Sync,
    D: Doors + Send + Drop,
    V: Vault + Send,
    C: Clock + Send,
>(
    rt: &R,
    alloc: Global,
    desk: &Desk,
    pass: &mut Pass,
    keeper: &mut Keeper<V>,
    workers: &mut [Worker<D>],
    clock: &mut C,
) -> Kept
where
    D::S: Send,
    D::K: Send,
    D::C: Send,
    requires keeps { MayKeep desk.now keeper.old pass.old }
    requires desk { AllByRecursion (IsOfDesk desk.now) workers.old }
    ensures worked { AllZip (HasWorked (door_change D.left D.faults)) workers.old workers.new }
    ensures keeps { MayKeep desk.now keeper.new pass.new }
    ensures rounds { HaveRounds V.is_told V.past V.faults keeper.old keeper.new pass.old pass.new result }
    ensures holds { HoldsThat keeper.new pass.old result }
{
    let ended = AtomicU64::new(0);
    let (kept, ()) = join_mut(
        rt,
        &mut || -> Kept
            requires { MayKeep desk.now keeper.now pass.now }
            ensures keeps { MayKeep desk.entry.now keeper.exit.now pass.exit.now }
            ensures rounds { HaveRounds V.is_told V.past V.faults
                keeper.entry.now keeper.exit.now pass.entry.now pass.exit.now result }
            ensures holds { HoldsThat keeper.exit.now pass.entry.now result }
        { keep_on(rt, alloc, desk, pass, keeper, clock, &ended) },
        &mut ||
            requires { AllByRecursion (IsOfDesk desk.now) workers.now }
            ensures { AllZip (HasWorked (door_change D.left D.faults)) workers.entry.now workers.exit.now }
        {
            work_side_by_side(rt, alloc, desk, workers);
            ended.store(1, Ordering::SeqCst);
        },
    );
    kept
}

/// Has all workers work, each in a thread of its own where there can be one.
fn work_side_by_side<R: Threads + Wait + RandomSource + Sync, D: Doors + Send + Drop>(
    rt: &R,
    alloc: Global,
    desk: &Desk,
    workers: &mut [Worker<D>],
)
where
    D::S: Send,
    D::K: Send,
    D::C: Send,
    requires { AllByRecursion (IsOfDesk desk.now) workers.old }
    ensures { AllZip (HasWorked (door_change D.left D.faults)) workers.old workers.new }
{
    let threads = workers.len().max(1);
    thread::for_each_mut(
        rt,
        workers,
        threads,
        &|_i: usize, worker: &mut Worker<D>|
            requires { IsOfDesk desk.now worker.old }
            ensures { HasWorked (door_change D.left D.faults) worker.old worker.new }
        { worker.work(rt, alloc, desk) },
    );
}

/// Puts the doors of the workers back, for whom there is room. The doors of workers without a pass are served now. It
/// answers how many doors ended at a fault, and whether a door was served now.
fn put_back<R: Wait + RandomSource, D: Doors + Drop>(
    rt: &R,
    desk: &Desk,
    pass: &mut Pass,
    workers: Vec<Worker<D>>,
    doors: &mut Vec<D>,
) -> (u64, bool)
    requires pass { IsPassOf desk.now pass.old }
    requires none { doors.old.items ≡ [] }
    requires room { vec_len workers ≤ vec_capacity doors.old }
    ensures ended { HaveEnded (door_change D.left D.faults) workers.items doors.new.items result.0 }
    ensures pass { IsPassOf desk.now pass.new }
    ensures caller { caller_of pass.new ≡ caller_of pass.old }
    ensures mark { KeepsMark pass.old pass.new }
    ensures goes_on { GoesOn (seen_of pass.old) (seen_of pass.new) }
{
    let alloc = *doors.allocator();
    let (mut door_faults, mut alone) = (0, false);
    for worker in workers {
        alone |= worker.pass.is_none();
        let (door, is_fault) = worker.finish(rt, alloc, desk, pass);
        door_faults += u64::from(is_fault);
        let Ok(()) = doors.push(door) else {
            unreachable!()
        };
    }
    (door_faults, alone)
}

/// Runs one more round, where doors were served alone.
fn keep_last<R: Wait, V: Vault>(
    rt: &R,
    alloc: Global,
    desk: &Desk,
    pass: &mut Pass,
    keeper: &mut Keeper<V>,
    alone: bool,
) -> Kept
    requires { MayKeep desk.now keeper.old pass.old }
    ensures keeps { MayKeep desk.now keeper.new pass.new }
    ensures rounds { HaveRounds V.is_told V.past V.faults keeper.old keeper.new pass.old pass.new result }
{
    if alone {
        return keep_once(rt, alloc, desk, pass, keeper);
    }
    keeper.finds_law();
    Kept::new()
}

/// Serves the doors one after another, and answers how many of them ended at a fault.
fn serve_in_turn<R: Wait + RandomSource, D: Doors>(
    rt: &R,
    alloc: Global,
    desk: &Desk,
    pass: &mut Pass,
    doors: &mut Vec<D>,
) -> u64
    requires { IsPassOf desk.now pass.old }
    ensures doors { length doors.new.items ≡ length doors.old.items }
    ensures served { AreServed (door_changes D.left D.faults doors.old.items doors.new.items) result }
    ensures pass { IsPassOf desk.now pass.new }
    ensures caller { caller_of pass.new ≡ caller_of pass.old }
    ensures mark { KeepsMark pass.old pass.new }
    ensures goes_on { GoesOn (seen_of pass.old) (seen_of pass.new) }
{
    let mut door_faults = 0;
    for door in doors.iter_mut() {
        door_faults += u64::from(serve_door(rt, alloc, desk, pass, door));
    }
    door_faults
}
