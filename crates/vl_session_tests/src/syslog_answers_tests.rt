//! What sessions of syslog come to.
use crate::case_tests::input;
use crate::syslog_sessions_tests::{Setting, Told, tell};
use std::alloc::{AllocError, AllocGlobal};
use std::fmt::Write;
use std::random::RandomSource;
use std::sync::Wait;
use vl_session::SyslogEnd;

/// The longest input that is also cut and of which each read fails.
const SHORT: usize = 200;

pub fn answer<R: AllocGlobal + Wait + RandomSource>(
    rt: &R,
    line: &str,
) -> Result<String, AllocError> {
    let (name, rest) = line.split_once(" / ").unwrap_or((line, ""));
    let (query, rest) = rest.split_once(" / ").unwrap_or((rest, ""));
    let (piece, case) = rest.split_once(" / ").unwrap_or((rest, ""));
    let setting = Setting {
        piece: piece.parse().unwrap_or(0),
        failing_read: None,
    };
    let bytes = input(rt.alloc(), case, " / ")?;
    let whole = tell(rt, &bytes, query, setting)?;
    let mut answer = format!(in rt.alloc(); "{name}: ")?;
    push_told(&whole, &mut answer)?;
    write!(answer, ", {} batches:{}", whole.batches, whole.lines)?;
    if bytes.len() <= SHORT {
        push_cut(rt, &bytes, query, &whole, &mut answer)?;
        push_reads(rt, &bytes, query, &mut answer)?;
    }
    Ok(answer)
}

pub fn push_told(told: &Told, out: &mut String) -> Result<(), AllocError> {
    let report = told.report;
    write!(
        out,
        "accepted {}, refused {}, {:?}",
        report.accepted, report.refused, report.end
    )
}

/// Reads a byte at a time.
fn push_cut<R: AllocGlobal + Wait + RandomSource>(
    rt: &R,
    bytes: &[u8],
    query: &str,
    whole: &Told,
    answer: &mut String,
) -> Result<(), AllocError> {
    let cut = Setting {
        piece: 1,
        failing_read: None,
    };
    let told = tell(rt, bytes, query, cut)?;
    if told.report != whole.report || told.lines.as_str() != whole.lines.as_str() {
        answer.push_str("; a byte at a time: ")?;
        push_told(&told, answer)?;
        answer.push_str(told.lines.as_str())?;
    }
    Ok(())
}

/// Lets each read fail in turn. The session is then the one whose input ended there, but for how it ends, and for a
/// message that the end would make.
fn push_reads<R: AllocGlobal + Wait + RandomSource>(
    rt: &R,
    bytes: &[u8],
    query: &str,
    answer: &mut String,
) -> Result<(), AllocError> {
    for call in 0..=bytes.len() {
        let failing = Setting {
            piece: 1,
            failing_read: Some(call as u64),
        };
        let told = tell(rt, bytes, query, failing)?;
        let closing = Setting {
            piece: 1,
            failing_read: None,
        };
        let closed = tell(rt, &bytes[..call], query, closing)?;
        if !is_stopped(&told, &closed) {
            write!(answer, "; read {call} fails: ")?;
            push_told(&told, answer)?;
            answer.push_str(told.lines.as_str())?;
        }
    }
    Ok(())
}

/// Returns whether a session is the one whose source failed where the other one's input ended.
fn is_stopped(told: &Told, closed: &Told) -> bool {
    match closed.report.end {
        SyslogEnd::Closed => {
            let front = closed.lines.as_str().starts_with(told.lines.as_str());
            told.report.end == SyslogEnd::SourceFault && front && is_one_less(told, closed)
        }
        SyslogEnd::BadFrame(syslog_in::FrameFault::Cut { .. }) => {
            told.report.end == SyslogEnd::SourceFault
                && told.lines.as_str() == closed.lines.as_str()
        }
        _ => told.report == closed.report && told.lines.as_str() == closed.lines.as_str(),
    }
}

/// Returns whether it has as many messages as the other one, or one less.
fn is_one_less(told: &Told, closed: &Told) -> bool {
    let has = told.report.accepted.saturating_add(told.report.refused);
    let all = closed.report.accepted.saturating_add(closed.report.refused);
    has == all || has.saturating_add(1) == all
}
