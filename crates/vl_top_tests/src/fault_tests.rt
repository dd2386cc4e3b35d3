//! Vaults that fail at one call.
use crate::inputs_tests::group_lines;
use crate::program_tests::{count_after_crash, load, query};
use crate::vaults_tests::{copied, spread_choice};
use std::test::Fail;

/// How many images of each moment are tried.
const CHOICES: u64 = 20;

/// Returns how many batches are told durable, or nothing where the output is not of whole lines.
fn told(output: &str) -> Option<u64> {
    match output {
        "" => Some(0),
        "flushed 16\n" => Some(16),
        _ => None,
    }
}

/// Returns whether so many of 17 rows are what a round left, and no fewer than these.
fn is_front(rows: Option<u64>, least: u64) -> bool {
    matches!(rows, Some(n) if least <= n && (n == 0 || n == 16 || n == 17))
}

#[test]
fn load_tells_the_fault(rt: HostRuntime) -> Result<(), Fail> {
    let input = group_lines(rt.alloc(), 17)?;
    let calls = load(&rt, &input, &[])?.vault.calls();
    for failing in 0..calls {
        let ended = load(&rt, &input, &[failing])?;
        assert_eq!(rt; ended.status, 5, "call {failing} fails");
        assert_eq!(rt;
            ended.err.bytes(),
            b"vault fault\n".as_slice(),
            "call {failing} fails"
        );
        let least = told(ended.output()).ok_or("the output is not of whole lines")?;
        for call in failing..ended.vault.calls().saturating_add(1) {
            for number in 0..CHOICES {
                let choice = spread_choice(number);
                let rows = count_after_crash(&rt, &ended.vault, call, choice)?;
                assert!(rt;
                    is_front(rows, least),
                    "{rows:?} where {failing} fails, after {call} by {choice}"
                );
            }
        }
    }
    Ok(())
}

#[test]
fn query_tells_the_fault(rt: HostRuntime) -> Result<(), Fail> {
    let alloc = rt.alloc();
    let loaded = load(&rt, &group_lines(alloc, 17)?, &[])?;
    let copy = copied(alloc, &loaded.vault, &[])?;
    let before = copy.calls();
    let answered = query(&rt, "*", copy)?;
    assert_eq!(rt; answered.status, 0);
    let after = answered.vault.calls();
    assert!(rt; before < after);
    for failing in before..after {
        let copy = copied(alloc, &loaded.vault, &[failing])?;
        let ended = query(&rt, "*", copy)?;
        let shown = ended.shown(alloc)?;
        assert_eq!(rt;
            shown.as_str(),
            "5 \"\" \"vault fault\\n\"",
            "call {failing} fails"
        );
    }
    Ok(())
}
