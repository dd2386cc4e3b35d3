//! Calls that fail, and lines that no case can have.
use crate::program_tests::{Failing, NONE, end_of};
use std::alloc::{AllocError, AllocGlobal, Global};
use std::random::RandomSource;
use std::sync::Wait;
use std::thread::Threads;

/// Appends how `pipe` ends where calls fail, and over lines that no case can have.
pub fn write_all<R: AllocGlobal + Threads + Wait + RandomSource + Sync>(
    rt: &R,
    text: &mut String,
) -> Result<(), AllocError> {
    write_faults(rt, text)?;
    write_unsaid(rt, text)?;
    write_lines(rt, text)?;
    let cut = end_of(rt, &["pipe", "*"], CUT.as_bytes(), NONE)?;
    write!(text, "cut lines {cut}\n")
}

/// Which calls fail: in words, and each object's. The source is asked once more after its last byte, which is its fifth
/// read.
const FAULTS: &[(&str, Failing<'static>)] = &[
    (
        "first read",
        Failing {
            reads: &[0],
            ..NONE
        },
    ),
    (
        "third read",
        Failing {
            reads: &[2],
            ..NONE
        },
    ),
    (
        "first answer",
        Failing {
            answers: &[0],
            ..NONE
        },
    ),
    (
        "first report",
        Failing {
            reports: &[0],
            ..NONE
        },
    ),
    // A fault while another status is told changes no status.
    (
        "third read, first report",
        Failing {
            reads: &[2],
            answers: &[],
            reports: &[0],
        },
    ),
];

/// A fault ends the run with its status.
fn write_faults<R: AllocGlobal + Threads + Wait + RandomSource + Sync>(
    rt: &R,
    text: &mut String,
) -> Result<(), AllocError> {
    let input = "x\n{\"_msg\":\"an error: x\"}\n";
    for (name, failing) in FAULTS {
        let end = end_of(rt, &["pipe", "error"], input.as_bytes(), *failing)?;
        write!(text, "{name} {end}\n")?;
    }
    Ok(())
}

const NUMBERS: &str = "{\"app\":\"a\",\"n\":9223372036854775807}\nx\n{\"app\":\"a\",\"n\":1}\n\
    {\"app\":\"b\",\"n\":2}\n";

/// What cannot be said changes no status. What was taken in before a fault is named: the whole first group.
fn write_unsaid<R: AllocGlobal + Threads + Wait + RandomSource + Sync>(
    rt: &R,
    text: &mut String,
) -> Result<(), AllocError> {
    let unsaid = Failing {
        reports: &[0],
        ..NONE
    };
    let end = end_of(rt, &["pipe"], b"", unsaid)?;
    write!(text, "unsaid usage {end}\n")?;

    let untold = Failing {
        reports: &[1],
        ..NONE
    };
    let words = ["pipe", "* | stats sum(n)"];
    let end = end_of(rt, &words, NUMBERS.as_bytes(), untold)?;
    write!(text, "untold overflow {end}\n")?;

    let input = spread(rt.alloc(), "x", 1_000, "y\n")?;
    let unread = Failing {
        reads: &[4],
        ..NONE
    };
    let end = end_of(rt, &["pipe", "*"], &input, unread)?;
    write!(text, "unread group {end}\n")
}

/// Returns a line, this many line feeds, and another line.
pub fn spread(alloc: Global, first: &str, feeds: usize, last: &str) -> Result<Vec<u8>, AllocError> {
    let mut input = Vec::from_slice(alloc, first.as_bytes())?;
    for _ in 0..feeds {
        input.push(b'\n')?;
    }
    input.extend_from_slice(last.as_bytes())?;
    Ok(input)
}

const NO_ROWS: &[&[u8]] = &[b"\0", b"{\"_msg\":\"\xff\"}", b"{\"_msg\":\"a\0b\"}"];

/// A line that is no row is named, and nothing else is lost. Deep nesting is refused.
fn write_lines<R: AllocGlobal + Threads + Wait + RandomSource + Sync>(
    rt: &R,
    text: &mut String,
) -> Result<(), AllocError> {
    for line in NO_ROWS {
        let input = surrounded(rt.alloc(), line)?;
        let end = end_of(rt, &["pipe", "*"], &input, NONE)?;
        write!(text, "{line:?} {end}\n")?;
    }
    write_nested(rt, text, b'[')?;
    write_nested(rt, text, b'{')
}

/// Appends how a line of very many brackets is refused.
fn write_nested<R: AllocGlobal + Threads + Wait + RandomSource + Sync>(
    rt: &R,
    text: &mut String,
    bracket: u8,
) -> Result<(), AllocError> {
    let deep = vec![in rt.alloc(); bracket; 100_000]?;
    let input = surrounded(rt.alloc(), &deep)?;
    let end = end_of(rt, &["pipe", "*"], &input, NONE)?;
    write!(text, "brackets {bracket} {end}\n")
}

/// Returns the line between two good ones.
fn surrounded(alloc: Global, line: &[u8]) -> Result<Vec<u8>, AllocError> {
    let good = b"{\"_msg\":\"good\"}\n";
    let mut input = Vec::from_slice(alloc, good)?;
    input.extend_from_slice(line)?;
    input.extend_from_slice(b"\n")?;
    input.extend_from_slice(good)?;
    Ok(input)
}

/// Lines are cut at line feeds, and blank ones are passed over.
const CUT: &str =
    "\n \t\r\n{\"b\":\"2\",\"A\":\"1\"}\r\n { \"a\" : \"1\" , \"a\" : \"2\" } \n{\"a\":\"x\",\"b\":\"\"}\n\n\
    {\"_t\":\"\x7f\"}";
