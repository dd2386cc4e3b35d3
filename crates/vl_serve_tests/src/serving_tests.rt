//! How serving ends over a store in memory.
ghost use Rattle.std.specs.Prelude.{◌≡◌, ◌≤◌, IfOk, None, length};
ghost use Rattle.part_store.specs.Finds.{HoldsBatches};

use crate::doors_tests::{Asks, TestDoors, crossing_doors, door_of, visit_of};
use crate::visitors_tests::{Awaited, Counter, CountingClock};
use log_desk::Desk;
use part_store::Store;
use std::alloc::{AllocError, AllocGlobal, Global};
use std::random::RandomSource;
use std::rt::Clock as SystemTimer;
use std::sync::atomic::{AtomicU64, Ordering};
use std::sync::{Arc, Wait};
use std::thread::Threads;
use vl_io::{Clock, MemDoors, SystemClock};
use vl_serve::{ServeEnd, serve};
use vl_vault::MemoryVault;

/// The calls on the vault that fail once the store was opened.
const FAILING: &[u64] = &[12, 13, 14, 15, 16];

/// Returns the store of a new vault, whose calls of these numbers fail.
fn new_store(alloc: Global, failing: &[u64]) -> Result<Store<MemoryVault>, AllocError>
    ensures { IfOk result (λ store. HoldsBatches store × (store.halted ≡ None)) }
{
    let vault = MemoryVault::of(alloc, failing)?;
    match Store::reopen(alloc, vault) {
        Ok(store) => Ok(store),
        Err(_) => Err(AllocError),
    }
}

/// Returns what serving came to: how many doors failed, whether memory ran out, and why a round failed first.
fn end_text(alloc: Global, end: &ServeEnd) -> Result<String, AllocError> {
    match end.kept {
        Some(fault) => format!(in alloc; "{} {} {fault}", end.door_faults, end.memory),
        None => format!(in alloc; "{} {} kept", end.door_faults, end.memory),
    }
}

/// Serves the doors over a new store, and returns what that came to, how many replies are written, how many batches
/// there are then, how many of them are settled, and how many the store holds.
fn serve_all<
    R: Threads + Wait + RandomSource + Sync + SystemTimer + Copy + Drop + Send,
    C: Clock + Send,
>(
    rt: &R,
    alloc: Global,
    passes: u32,
    failing: &[u64],
    replies: &Counter,
    doors: &mut Vec<TestDoors<R>>,
    clock: &mut C,
) -> Result<String, AllocError>
    requires passes { (1 ≤ passes) × (passes ≤ 65536) }
    requires doors { length doors.old.items ≤ 64 }
{
    let store = new_store(alloc, failing)?;
    let Ok((desk, mut pass, mut keeper)) = Desk::of_store(rt, alloc, store, passes) else {
        return Err(AllocError);
    };
    let end = serve(rt, alloc, &desk, &mut pass, &mut keeper, doors, clock);
    let text = end_text(alloc, &end)?;
    let written = replies.load(Ordering::SeqCst);
    let (count, settled) = desk.status(rt, &mut pass);
    let front = keeper.front();
    format!(in alloc; "{text}, {written} replies, {count} batches, {settled} settled, {front} held")
}

/// Doors are served side by side.
pub fn crossing<
    R: AllocGlobal + Threads + Wait + RandomSource + Sync + SystemTimer + Copy + Drop + Send,
>(rt: &R) -> Result<String, AllocError> {
    let alloc = rt.alloc();
    let replies: Counter = Arc::new(alloc, AtomicU64::new(0))?;
    let mut doors = crossing_doors(*rt, alloc, &replies)?;
    let mut clock = SystemClock::new(*rt);
    serve_all(rt, alloc, 5, &[], &replies, &mut doors, &mut clock)
}

/// Each door is served to its end. With three passes each door has its own, with two one of them, and with one none.
/// The second door fails after its first visit.
pub fn each<
    R: AllocGlobal + Threads + Wait + RandomSource + Sync + SystemTimer + Copy + Drop + Send,
>(rt: &R, passes: u32) -> Result<String, AllocError>
    requires { (1 ≤ passes) × (passes ≤ 65536) }
{
    let alloc = rt.alloc();
    let (insert, message) = ((Asks::Insert, 0), (Asks::Message, 0));
    let replies: Counter = Arc::new(alloc, AtomicU64::new(0))?;
    let mut doors = Vec::new(alloc);
    doors.push(door_of(*rt, alloc, &replies, &[insert, message, insert], &[])?)?;
    doors.push(door_of(*rt, alloc, &replies, &[insert, insert], &[1])?)?;
    let mut clock = SystemClock::new(*rt);
    serve_all(rt, alloc, passes, &[], &replies, &mut doors, &mut clock)
}

/// Without doors serving ends.
pub fn none<
    R: AllocGlobal + Threads + Wait + RandomSource + Sync + SystemTimer + Copy + Drop + Send,
>(rt: &R) -> Result<String, AllocError> {
    let alloc = rt.alloc();
    let replies: Counter = Arc::new(alloc, AtomicU64::new(0))?;
    let mut doors: Vec<TestDoors<R>> = Vec::new(alloc);
    let mut clock = SystemClock::new(*rt);
    serve_all(rt, alloc, 1, &[], &replies, &mut doors, &mut clock)
}

/// While the vault fails, inserts and queries are answered.
pub fn failing<
    R: AllocGlobal + Threads + Wait + RandomSource + Sync + SystemTimer + Copy + Drop + Send,
>(rt: &R) -> Result<String, AllocError> {
    let alloc = rt.alloc();
    let replies: Counter = Arc::new(alloc, AtomicU64::new(0))?;
    let pauses: Counter = Arc::new(alloc, AtomicU64::new(0))?;
    let further = Awaited::Further(1_000);
    let mut visits = Vec::new(alloc);
    let none = Awaited::Count(0);
    visits.push(visit_of(*rt, alloc, Asks::Insert, &replies, &pauses, none)?)?;
    visits.push(visit_of(*rt, alloc, Asks::Insert, &replies, &pauses, further)?)?;
    visits.push(visit_of(*rt, alloc, Asks::Query, &replies, &pauses, further)?)?;
    let mut doors = Vec::new(alloc);
    doors.push(MemDoors::of(alloc, visits, &[])?)?;
    let mut clock = CountingClock { counter: pauses };
    serve_all(rt, alloc, 2, FAILING, &replies, &mut doors, &mut clock)
}

/// A round runs while a door is open: its second visitor comes 1,000 pauses of the keeper's clock after the first, and
/// is told that its batch is settled.
pub fn meanwhile<
    R: AllocGlobal + Threads + Wait + RandomSource + Sync + SystemTimer + Copy + Drop + Send,
>(rt: &R) -> Result<String, AllocError> {
    let alloc = rt.alloc();
    let replies: Counter = Arc::new(alloc, AtomicU64::new(0))?;
    let pauses: Counter = Arc::new(alloc, AtomicU64::new(0))?;
    let further = Awaited::Further(1_000);
    let mut visits = Vec::new(alloc);
    let none = Awaited::Count(0);
    visits.push(visit_of(*rt, alloc, Asks::Insert, &replies, &pauses, none)?)?;
    visits.push(visit_of(*rt, alloc, Asks::Status, &replies, &pauses, further)?)?;
    let mut doors = Vec::new(alloc);
    doors.push(MemDoors::of(alloc, visits, &[])?)?;
    let mut clock = CountingClock { counter: pauses };
    serve_all(rt, alloc, 2, &[], &replies, &mut doors, &mut clock)
}
