//! The checks, by their names.
use crate::{pace_tests, serving_tests};
use std::alloc::{AllocError, AllocGlobal};
use std::random::RandomSource;
use std::rt::Clock as SystemTimer;
use std::sync::Wait;
use std::thread::Threads;

/// Returns what comes of the check of this name.
pub fn answer<
    R: AllocGlobal + Threads + Wait + RandomSource + Sync + SystemTimer + Copy + Drop + Send,
>(rt: &R, name: &str) -> Result<String, AllocError> {
    match name {
        "longest wait" => pace_tests::waits(rt.alloc()),
        "waiting" => pace_tests::by_waiting(rt.alloc()),
        "pauses" => pace_tests::by_pauses(rt.alloc()),
        "ended" => pace_tests::by_end(rt.alloc()),
        "crossing doors" => serving_tests::crossing(rt),
        "one pass" => serving_tests::each(rt, 1),
        "two passes" => serving_tests::each(rt, 2),
        "three passes" => serving_tests::each(rt, 3),
        "no doors" => serving_tests::none(rt),
        "failing vault" => serving_tests::failing(rt),
        "meanwhile" => serving_tests::meanwhile(rt),
        _ => String::from_str(rt.alloc(), "no such check"),
    }
}
