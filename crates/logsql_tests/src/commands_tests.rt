//! Commands: the words, and how they end.
use crate::program_tests::{Failing, NONE, end_of};
use std::alloc::{AllocError, AllocGlobal};
use std::random::RandomSource;
use std::sync::Wait;
use std::thread::Threads;

/// The source fails at its first read.
const UNREAD: Failing<'static> = Failing {
    reads: &[0],
    ..NONE
};

/// Appends how commands end: what is no command, refused queries, options and trials, each trial twice.
pub fn write_all<R: AllocGlobal + Threads + Wait + RandomSource + Sync>(
    rt: &R,
    text: &mut String,
) -> Result<(), AllocError> {
    write_no_commands(rt, text)?;
    write_refused_queries(rt, text)?;
    write_labelled(rt, text)?;
    write_trials(rt, text)?;
    write_trials(rt, text)
}

const NO_COMMAND: &[&[&str]] = &[
    &[],
    &["pipe"],
    &["pipe", "a", "b"],
    &["load", "a"],
    &["PIPE", "a"],
    &["trial", "07", "1"],
    &["trial", "1", "1000001"],
    &["serve"],
];

/// What is no command is refused before anything is read.
fn write_no_commands<R: AllocGlobal + Threads + Wait + RandomSource + Sync>(
    rt: &R,
    text: &mut String,
) -> Result<(), AllocError> {
    for words in NO_COMMAND {
        let end = end_of(rt, words, b"x\n", UNREAD)?;
        write!(text, "{words:?} {end}\n")?;
    }
    Ok(())
}

const REFUSED: &[&str] = &[
    "",
    "Or",
    "a b)",
    "x:",
    "\"abc",
    "\u{301}",
    "a | stats by (x)",
    "* | limit x",
    "* | stats by (_time:5q) count()",
    "~\"a\" | filter x:~\"(\"",
    "* | stats count() if (x:~\"(\") as n",
    "x:>1.5",
    "_time:5q",
    "_time:99999999999999w",
    "~\"(\"",
    "a ~\"b\" ~\"(\"",
    "(((((((((((((((((((((((((((((((((((((((((((((((((((((((((((((((((",
    "{a=~\")(\"}",
];

/// A refused query is told before anything is read.
fn write_refused_queries<R: AllocGlobal + Threads + Wait + RandomSource + Sync>(
    rt: &R,
    text: &mut String,
) -> Result<(), AllocError> {
    for query in REFUSED {
        let end = end_of(rt, &["pipe", query], b"x\n", UNREAD)?;
        write!(text, "{query:?} {end}\n")?;
    }
    Ok(())
}

/// The words of a query with options, and its input.
const LABELLED: &[(&[&str], &str)] = &[
    (
        &["pipe", "{app=\"nginx\"} | fields _msg"],
        "{\"_msg\":\"m\",\"app\":\"nginx\"}\n",
    ),
    (
        &[
            "pipe",
            "--stream-fields",
            "app",
            "{app=\"nginx\"} | fields _msg",
        ],
        "{\"_msg\":\"m\",\"app\":\"nginx\"}\n",
    ),
    (
        &["pipe", "--stream-fields=b,a", "* | fields _stream"],
        "{\"a\":\"1\",\"b\":\"2\",\"c\":\"3\"}\n",
    ),
    (
        &["pipe", "--stream-fields=", "* | fields _stream"],
        "{\"a\":\"1\"}\n",
    ),
    (&["pipe", "--", "-x | stats count() as n"], ""),
];

/// Rows have the labels that are asked for.
fn write_labelled<R: AllocGlobal + Threads + Wait + RandomSource + Sync>(
    rt: &R,
    text: &mut String,
) -> Result<(), AllocError> {
    for (words, input) in LABELLED {
        let end = end_of(rt, words, input.as_bytes(), NONE)?;
        write!(text, "{words:?} {end}\n")?;
    }
    Ok(())
}

/// A seed and a number of rows.
const TRIALS: &[(&str, &str)] = &[
    ("0", "0"),
    ("0", "1"),
    ("0", "3"),
    ("10", "1"),
    ("7", "200000"),
];

/// A trial answers three queries, and reads nothing.
fn write_trials<R: AllocGlobal + Threads + Wait + RandomSource + Sync>(
    rt: &R,
    text: &mut String,
) -> Result<(), AllocError> {
    for (seed, rows) in TRIALS {
        let end = end_of(rt, &["trial", seed, rows], b"x\n", NONE)?;
        write!(text, "trial {seed} {rows} {end}\n")?;
    }
    Ok(())
}
