//! Servers that crash, or whose vault fails, while visitors insert rows.
ghost use Rattle.std.specs.Prelude.{◌≤◌, IfOk, length};

use crate::program_tests::{Ended, query_after_crash, serve};
use crate::vaults_tests::{new_vault, spread_choice};
use crate::visitors_tests::{Replies, TestDoors, insertions};
use std::alloc::{AllocError, AllocGlobal, Global};
use std::fmt::Write;
use std::random::RandomSource;
use std::rt::Clock as SystemTimer;
use std::sync::atomic::{AtomicU64, Ordering};
use std::sync::{Arc, Wait};
use std::test::Fail;
use std::thread::Threads;

/// How many images of each moment are tried.
const CHOICES: u64 = 20;

/// How many visitors a door has.
const VISITORS: u64 = 5;

/// The query for all rows.
const ROWS: &str = "* | fields _msg";

/// Returns a counter of replies.
fn no_replies(alloc: Global) -> Result<Replies, AllocError> {
    Ok(Arc::new(alloc, AtomicU64::new(0))?)
}

/// Returns a door of so many visitors.
fn one_door<R: SystemTimer + Copy + Drop>(
    rt: R,
    alloc: Global,
    replies: &Replies,
    visitors: u64,
    pauses: u64,
) -> Result<Vec<TestDoors<R>>, AllocError>
    ensures few { IfOk result (λ doors. length doors.items ≤ 64) }
{
    let mut doors = Vec::new(alloc);
    doors.push(insertions(rt, alloc, replies, "a", visitors, pauses)?)?;
    Ok(doors)
}

/// Returns four doors.
fn four_doors<R: SystemTimer + Copy + Drop>(
    rt: R,
    alloc: Global,
    replies: &Replies,
) -> Result<Vec<TestDoors<R>>, AllocError>
    ensures few { IfOk result (λ doors. length doors.items ≤ 64) }
{
    let mut doors = Vec::new(alloc);
    doors.push(insertions(rt, alloc, replies, "a", VISITORS, 2)?)?;
    doors.push(insertions(rt, alloc, replies, "b", VISITORS, 1)?)?;
    doors.push(insertions(rt, alloc, replies, "c", VISITORS, 1)?)?;
    doors.push(insertions(rt, alloc, replies, "d", VISITORS, 0)?)?;
    Ok(doors)
}

/// Returns the answer that has all rows of a door.
fn all_rows(alloc: Global, letter: &str) -> Result<String, AllocError> {
    let mut text = String::new(alloc);
    for number in 0..VISITORS {
        write!(text, "{{\"_msg\":\"{letter}{number}\"}}\n")?;
    }
    Ok(text)
}

/// Returns the lines of the answer that are rows of a door.
fn rows_of(alloc: Global, answer: &str, letter: &str) -> Result<String, AllocError> {
    let start = format!(in alloc; "{{\"_msg\":\"{letter}")?;
    let mut text = String::new(alloc);
    for line in answer.split_inclusive('\n') {
        if line.starts_with(start.as_str()) {
            text.push_str(line)?;
        }
    }
    Ok(text)
}

/// Returns whether the rows are the first of these.
fn is_front(rows: &str, all: &str) -> bool {
    all.starts_with(rows) && (rows.is_empty() || rows.ends_with("\n"))
}

/// Returns whether of each door the first rows are found.
fn has_fronts(alloc: Global, ended: &Ended, letters: &[&str]) -> Result<bool, AllocError> {
    let mut held = ended.status == 0;
    let mut length = 0usize;
    for letter in letters {
        let rows = rows_of(alloc, ended.output(), letter)?;
        held = held && is_front(rows.as_str(), all_rows(alloc, letter)?.as_str());
        length = length.saturating_add(rows.as_str().len());
    }
    Ok(held && length == ended.output().len())
}

#[test]
fn a_crash_leaves_the_first_rows(rt: HostRuntime) -> Result<(), Fail> {
    let alloc = rt.alloc();
    let replies = no_replies(alloc)?;
    let doors = one_door(rt, alloc, &replies, VISITORS, 2)?;
    let served = serve(&rt, doors, new_vault(alloc, &[])?)?;
    assert_eq!(rt; served.shown(alloc)?.as_str(), "0 \"\" \"\"");
    assert_eq!(rt; replies.load(Ordering::SeqCst), VISITORS);
    let all = all_rows(alloc, "a")?;
    let calls = served.vault.calls();
    for call in 0..calls.saturating_add(1) {
        for number in 0..CHOICES {
            let choice = spread_choice(number);
            let ended = query_after_crash(&rt, ROWS, &served.vault, call, choice)?;
            let rows = ended.output();
            assert!(rt;
                ended.status == 0 && is_front(rows, all.as_str()),
                "{rows:?} after {call} by {choice}"
            );
            assert!(rt; call < calls || rows == all.as_str(), "the end by {choice}");
        }
    }
    Ok(())
}

#[test]
fn a_crash_leaves_the_first_rows_of_each_door(rt: HostRuntime) -> Result<(), Fail> {
    let alloc = rt.alloc();
    let replies = no_replies(alloc)?;
    let doors = four_doors(rt, alloc, &replies)?;
    let served = serve(&rt, doors, new_vault(alloc, &[])?)?;
    assert_eq!(rt; served.shown(alloc)?.as_str(), "0 \"\" \"\"");
    assert_eq!(rt; replies.load(Ordering::SeqCst), 4 * VISITORS);
    let calls = served.vault.calls();
    let letters = ["a", "b", "c", "d"];
    for call in 0..calls.saturating_add(1) {
        for number in 5..8 {
            let choice = spread_choice(number);
            let ended = query_after_crash(&rt, ROWS, &served.vault, call, choice)?;
            let rows = ended.output();
            assert!(rt;
                has_fronts(alloc, &ended, &letters)?,
                "{rows:?} after {call} by {choice}"
            );
        }
    }
    let ended = query_after_crash(&rt, "* | stats count() as n", &served.vault, calls, 0)?;
    assert_eq!(rt; ended.count(), Some(20));
    Ok(())
}

/// Returns the number of calls of a server that has so many visitors.
fn calls_of<
    R: AllocGlobal + Threads + Wait + RandomSource + Sync + SystemTimer + Copy + Drop + Send,
>(rt: &R, visitors: u64) -> Result<u64, AllocError> {
    let alloc = rt.alloc();
    let replies = no_replies(alloc)?;
    let doors = one_door(*rt, alloc, &replies, visitors, 0)?;
    let served = serve(rt, doors, new_vault(alloc, &[])?)?;
    Ok(served.vault.calls())
}

#[test]
fn serve_tells_the_fault(rt: HostRuntime) -> Result<(), Fail> {
    let alloc = rt.alloc();
    let all = all_rows(alloc, "a")?;
    // The calls of the reopening, and then those of the first round.
    let (opening, both) = (calls_of(&rt, 0)?, calls_of(&rt, 1)?);
    assert!(rt; 0 < opening && opening < both);
    for failing in 0..both {
        let replies = no_replies(alloc)?;
        let doors = one_door(rt, alloc, &replies, VISITORS, 0)?;
        let served = serve(&rt, doors, new_vault(alloc, &[failing])?)?;
        let shown = served.shown(alloc)?;
        assert_eq!(rt;
            shown.as_str(),
            "5 \"\" \"vault fault\\n\"",
            "call {failing} fails"
        );
        // Where the vault is not opened nobody is served.
        let wanted = if failing < opening { 0 } else { VISITORS };
        assert_eq!(rt;
            replies.load(Ordering::SeqCst),
            wanted,
            "call {failing} fails"
        );
        for call in failing..served.vault.calls().saturating_add(1) {
            for number in 0..CHOICES {
                let choice = spread_choice(number);
                let ended = query_after_crash(&rt, ROWS, &served.vault, call, choice)?;
                let rows = ended.output();
                assert!(rt;
                    ended.status == 0 && is_front(rows, all.as_str()),
                    "{rows:?} where {failing} fails, after {call} by {choice}"
                );
            }
        }
    }
    Ok(())
}
