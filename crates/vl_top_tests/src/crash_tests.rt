//! Crashes while `load` runs.
use crate::inputs_tests::group_lines;
use crate::program_tests::{count_after_crash, load};
use crate::vaults_tests::spread_choice;
use std::test::Fail;

/// How many images of each moment are tried.
const CHOICES: u64 = 20;

/// Returns whether so many rows can be found after this call, where the first 16 are told durable after `flushed` calls
/// and all 17 after `ended`.
fn may_be_found(rows: Option<u64>, call: u64, flushed: u64, ended: u64) -> bool {
    match rows {
        Some(0) => call < flushed,
        Some(16) => call < ended,
        Some(17) => true,
        _ => false,
    }
}

#[test]
fn a_crash_leaves_settled_batches(rt: HostRuntime) -> Result<(), Fail> {
    let alloc = rt.alloc();
    let first = load(&rt, &group_lines(alloc, 16)?, &[])?;
    assert_eq!(rt; first.output(), "flushed 16\n");
    let all = load(&rt, &group_lines(alloc, 17)?, &[])?;
    let (flushed, ended) = (first.vault.calls(), all.vault.calls());
    assert!(rt; 0 < flushed && flushed < ended);
    for call in 0..ended.saturating_add(1) {
        for number in 0..CHOICES {
            let choice = spread_choice(number);
            let rows = count_after_crash(&rt, &all.vault, call, choice)?;
            assert!(rt;
                may_be_found(rows, call, flushed, ended),
                "{rows:?} after {call} by {choice}"
            );
        }
    }
    Ok(())
}
