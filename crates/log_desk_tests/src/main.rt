//! Tests of the shared state (`log_core`) and of its desk (`log_desk`).
//!
//! A line names a check, and the program writes whether it holds. `look COUNT` looks at a shelf of this many batches
//! before and after one more. `swap FRONT` swaps in day parts for this many of 200 batches, and others later.
//! `settled COUNT` begins with a shelf of day parts only. The other words name a check that stands in the code. All of
//! them hold by the pages of the two crates.
#![tactic(auto)]

mod batches_tests;
mod callers_tests;
mod desk_tests;
mod keeper_tests;
mod kept_tests;
mod keys_tests;
mod parts_tests;
mod shelf_tests;
mod threads_tests;

use std::alloc::AllocGlobal;
use std::io;
use std::sync::Wait;
use std::thread::Threads;
use std::time::Clock;

fn main(rt: HostRuntime) -> io::Result<()> {
    for line in rt.lines(rt.alloc()) {
        let line = line?;
        let holds = holds(&rt, line.as_str())?;
        println!(rt; "{line}: {holds}")?;
    }
    Ok(())
}

/// Returns whether the check of this line holds.
fn holds<R: AllocGlobal + Clock + Threads + Wait + Sync>(rt: &R, line: &str) -> io::Result<bool> {
    let alloc = rt.alloc();
    let (name, number) = line.split_once(' ').unwrap_or((line, ""));
    let number = number.parse::<u64>().unwrap_or(0);
    let holds = match name {
        "look" => shelf_tests::looks_stay(alloc, number)?,
        "swap" => shelf_tests::swaps_leave_the_later(alloc, number)?,
        "full_shelf" => shelf_tests::full_shelf(alloc)?,
        "settled" => shelf_tests::settled_from_the_start(alloc, number)?,
        "swap_behind" => shelf_tests::swap_behind(alloc)?,
        "shared_box" => shelf_tests::shared_box(alloc)?,
        "spent_split" => desk_tests::spent_split(rt, alloc)?,
        "two_passes" => desk_tests::two_passes(rt, alloc)?,
        "split_pass" => desk_tests::split_pass(rt, alloc)?,
        "joined_pass" => desk_tests::joined_pass(rt, alloc)?,
        "full_desk" => desk_tests::full_desk(rt, alloc)?,
        "faults_print" => desk_tests::faults_print(alloc)?,
        "eight_callers" => threads_tests::eight_callers(rt)?,
        "rounds_settle" => keeper_tests::rounds_settle(rt, alloc)?,
        "full_settles" => keeper_tests::full_settles(rt, alloc)?,
        "quiet_rounds" => keeper_tests::quiet_rounds(rt, alloc)?,
        "faults_halt" => keeper_tests::faults_halt(rt, alloc)?,
        "days_part" => keeper_tests::days_part(rt, alloc)?,
        "goes_on" => keeper_tests::goes_on(rt, alloc)?,
        "crashes_leave" => keeper_tests::crashes_leave(rt, alloc)?,
        _ => false,
    };
    Ok(holds)
}
