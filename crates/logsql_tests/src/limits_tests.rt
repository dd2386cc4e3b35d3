//! Limits: of a query, of the lines and the weight of a group, and of the batches that are not settled.
use crate::faults_tests::spread;
use crate::program_tests::{NONE, clock_at, end_of, run_words};
use std::alloc::{AllocError, AllocGlobal, Global};
use std::random::RandomSource;
use std::sync::Wait;
use std::thread::Threads;

/// Appends how `pipe` ends at limits.
pub fn write_all<R: AllocGlobal + Threads + Wait + RandomSource + Sync>(
    rt: &R,
    text: &mut String,
) -> Result<(), AllocError> {
    let query = repeated(rt.alloc(), "a", 16_385)?;
    let query = str::from_utf8(&query).unwrap_or("");
    let end = end_of(rt, &["pipe", query], b"", NONE)?;
    write!(text, "16385 letters {end}\n")?;
    write!(text, "2500 rows {}\n", all_are_answered(rt, 2_500)?)?;
    write!(text, "4096 batches {}\n", held(rt, 4_096)?)?;
    write!(text, "4097 batches {}\n", held(rt, 4_097)?)?;
    write!(text, "256 heavy lines {}\n", weighs(rt, 256)?)?;
    write!(text, "257 heavy lines {}\n", weighs(rt, 257)?)
}

/// Returns this text, this many times.
fn repeated(alloc: Global, text: &str, times: usize) -> Result<Vec<u8>, AllocError> {
    let mut bytes = Vec::new(alloc);
    for _ in 0..times {
        bytes.extend_from_slice(text.as_bytes())?;
    }
    Ok(bytes)
}

/// Returns whether this many lines `{"_msg":"error"}` give as many rows, and nothing else.
fn all_are_answered<R: AllocGlobal + Threads + Wait + RandomSource + Sync>(
    rt: &R,
    lines: usize,
) -> Result<bool, AllocError> {
    let input = repeated(rt.alloc(), "{\"_msg\":\"error\"}\n", lines)?;
    let row =
        "{\"_msg\":\"error\",\"_stream\":\"{}\",\"_stream_id\":\"44136fa355b3678a1146ad16f7e8649e\",\
        \"_time\":\"1970-01-01T00:00:00.000000005Z\"}\n";
    let out = repeated(rt.alloc(), row, lines)?;
    let clock = clock_at(rt.alloc(), 5)?;
    let ended = run_words(rt, &["pipe", "error"], &input, NONE, clock)?;
    Ok(ended.status == 0 && ended.out.bytes() == out.as_slice() && ended.err.bytes().is_empty())
}

/// Returns how a run ends over this many groups with a row each.
fn held<R: AllocGlobal + Threads + Wait + RandomSource + Sync>(
    rt: &R,
    groups: usize,
) -> Result<String, AllocError> {
    let group = spread(rt.alloc(), "{\"a\":\"b\"}", 1_000, "")?;
    let text = str::from_utf8(group.as_slice()).unwrap_or("");
    let input = repeated(rt.alloc(), text, groups)?;
    end_of(rt, &["pipe", "error"], &input, NONE)
}

/// Returns how a run ends over this many lines with one field of 262,144 bytes, its name counted.
fn weighs<R: AllocGlobal + Threads + Wait + RandomSource + Sync>(
    rt: &R,
    lines: usize,
) -> Result<String, AllocError> {
    let mut line = Vec::from_slice(rt.alloc(), b"{\"a\":\"")?;
    line.extend_from_slice(&repeated(rt.alloc(), "b", 262_143)?)?;
    line.extend_from_slice(b"\"}\n")?;
    let text = str::from_utf8(line.as_slice()).unwrap_or("");
    let input = repeated(rt.alloc(), text, lines)?;
    end_of(rt, &["pipe", "error"], &input, NONE)
}
