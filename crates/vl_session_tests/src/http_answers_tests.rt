//! What connections of HTTP come to.
use crate::case_tests::input;
use crate::http_sessions_tests::{Setting, Told, tell};
use std::alloc::{AllocError, AllocGlobal};
use std::random::RandomSource;
use std::sync::Wait;
use vl_session::End;

/// The longest connection that is also cut and of which each read fails.
const SHORT: usize = 200;

/// More writes than any case has.
const WRITES: u64 = 8;

pub fn answer<R: AllocGlobal + Wait + RandomSource>(
    rt: &R,
    line: &str,
) -> Result<String, AllocError> {
    let (name, case) = line.split_once(" | ").unwrap_or((line, ""));
    let bytes = input(rt.alloc(), case, " | ")?;
    let whole = tell(rt, &bytes, Setting::default())?;
    let mut answer = format!(in rt.alloc(); "{name} | {}", whole.text)?;
    if bytes.len() <= SHORT {
        push_cut(rt, &bytes, &whole, &mut answer)?;
        push_reads(rt, &bytes, &whole, &mut answer)?;
    }
    push_writes(rt, &bytes, &whole, &mut answer)?;
    Ok(answer)
}

/// Reads a byte at a time.
fn push_cut<R: AllocGlobal + Wait + RandomSource>(
    rt: &R,
    bytes: &[u8],
    whole: &Told,
    answer: &mut String,
) -> Result<(), AllocError> {
    let cut = Setting {
        by_bytes: true,
        ..Setting::default()
    };
    let told = tell(rt, bytes, cut)?;
    if told.text.as_str() != whole.text.as_str() {
        answer.push_str("; a byte at a time: ")?;
        answer.push_str(told.text.as_str())?;
    }
    Ok(())
}

/// Lets each read fail in turn. The session ends there, as it would where the input ended there, but for how it ends.
fn push_reads<R: AllocGlobal + Wait + RandomSource>(
    rt: &R,
    bytes: &[u8],
    whole: &Told,
    answer: &mut String,
) -> Result<(), AllocError> {
    for call in 0..=bytes.len() {
        let failing = Setting {
            by_bytes: true,
            failing_read: Some(call as u64),
            ..Setting::default()
        };
        let told = tell(rt, bytes, failing)?;
        if !is_stopped(rt, &bytes[..call], whole, &told)? {
            answer.push_str("; a read fails: ")?;
            answer.push_str(told.text.as_str())?;
        }
    }
    Ok(())
}

/// Returns whether a session is the one whose source failed after these bytes, or ended before that.
fn is_stopped<R: AllocGlobal + Wait + RandomSource>(
    rt: &R,
    read: &[u8],
    whole: &Told,
    told: &Told,
) -> Result<bool, AllocError> {
    if told.text.as_str() == whole.text.as_str() && told.end != End::SourceFault {
        return Ok(true);
    }
    let before = tell(rt, read, Setting::default())?;
    let same = told.written.as_slice() == before.written.as_slice();
    Ok(same && told.end == End::SourceFault)
}

/// Lets each write fail in turn.
fn push_writes<R: AllocGlobal + Wait + RandomSource>(
    rt: &R,
    bytes: &[u8],
    whole: &Told,
    answer: &mut String,
) -> Result<(), AllocError> {
    for call in 0..WRITES {
        let failing = Setting {
            failing_write: Some(call),
            ..Setting::default()
        };
        let told = tell(rt, bytes, failing)?;
        let same = told.text.as_str() == whole.text.as_str();
        let front = whole.written.as_slice().starts_with(&told.written);
        if !same && (told.end != End::SinkFault || !front) {
            answer.push_str("; a write fails: ")?;
            answer.push_str(told.text.as_str())?;
        }
    }
    Ok(())
}
