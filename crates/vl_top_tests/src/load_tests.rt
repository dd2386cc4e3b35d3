//! What `load` keeps, and which words make no call on the vault.
use crate::inputs_tests::{group_lines, row_lines};
use crate::program_tests::{count_after_crash, load, run_on};
use crate::vaults_tests::new_vault;
use std::test::Fail;

/// What is written where 17 batches come, of which 16 are settled at once.
const BOTH: &str = "0 \"flushed 16\\nflushed 17\\n\" \"\"";

#[test]
fn batches_are_loaded_and_found(rt: HostRuntime) -> Result<(), Fail> {
    let alloc = rt.alloc();
    let input = group_lines(alloc, 17)?;
    let ended = load(&rt, &input, &[])?;
    assert_eq!(rt; ended.shown(alloc)?.as_str(), BOTH);
    let found = count_after_crash(&rt, &ended.vault, ended.vault.calls(), 0)?;
    assert_eq!(rt; found, Some(17));
    Ok(())
}

#[test]
fn full_batches_are_loaded_and_found(rt: HostRuntime) -> Result<(), Fail> {
    let alloc = rt.alloc();
    let input = row_lines(alloc, 17_000)?;
    let ended = load(&rt, &input, &[])?;
    assert_eq!(rt; ended.shown(alloc)?.as_str(), BOTH);
    let found = count_after_crash(&rt, &ended.vault, ended.vault.calls(), 0)?;
    assert_eq!(rt; found, Some(17_000));
    Ok(())
}

/// Words, and how they end over a vault of empty files without a call on it.
const NO_CALL: &[(&[&str], &str)] = &[
    (
        &["query", "--dir", "d", "x:"],
        "1 \"\" \"query: Syntax at 2\\n\"",
    ),
    (&["query", "--dir", "d"], "2"),
    (&["load"], "2"),
    (
        &["pipe", "* | stats count() as n"],
        "0 \"{\\\"n\\\":\\\"1\\\"}\\n\" \"\"",
    ),
    (&["trial", "0", "0"], "0"),
];

#[test]
fn no_call_is_made(rt: HostRuntime) -> Result<(), Fail> {
    let alloc = rt.alloc();
    for (words, wanted) in NO_CALL {
        let ended = run_on(&rt, words, b"{\"_msg\":\"a\"}\n", new_vault(alloc, &[])?)?;
        let shown = ended.shown(alloc)?;
        assert!(rt;
            shown.as_str().starts_with(wanted),
            "{words:?} gives {shown}"
        );
        assert_eq!(rt; ended.vault.calls(), 0, "calls of {words:?}");
    }
    Ok(())
}
