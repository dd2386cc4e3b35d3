//! What messages and streams come to.
use crate::spelling_tests::{bytes_of, push_spelled};
use std::alloc::{AllocError, Global};
use std::fmt::Write;
use syslog_in::{FrameFault, Framer, Frames, SyslogRow, read_message};

pub fn answer(alloc: Global, line: &str) -> Result<String, AllocError> {
    if let Some(message) = line.strip_prefix("message ") {
        return message_answer(alloc, message);
    }
    match line.strip_prefix("frames ") {
        Some(pieces) => frames_answer(alloc, pieces),
        None => format!(in alloc; "no such case"),
    }
}

fn message_answer(alloc: Global, text: &str) -> Result<String, AllocError> {
    let bytes = bytes_of(alloc, text)?;
    match read_message(alloc, &bytes) {
        Ok(row) => row_answer(alloc, &row),
        Err(fault) => format!(in alloc; "{fault}"),
    }
}

fn row_answer(alloc: Global, row: &SyslogRow) -> Result<String, AllocError> {
    let mut answer = match row.time {
        Some(time) => format!(in alloc; "{time}")?,
        None => format!(in alloc; "nil")?,
    };
    for field in row.fields.as_slice() {
        answer.push_str(" ")?;
        push_spelled(field.name().as_bytes(), &mut answer)?;
        answer.push_str("=")?;
        push_spelled(field.value().as_bytes(), &mut answer)?;
    }
    Ok(answer)
}

fn frames_answer(alloc: Global, pieces: &str) -> Result<String, AllocError> {
    let mut framer = Framer::new(alloc);
    let mut answer = String::new(alloc);
    for piece in pieces.split(' ') {
        push_call(alloc, &mut framer, piece, &mut answer)?;
    }
    Ok(answer)
}

fn push_call(
    alloc: Global,
    framer: &mut Framer,
    piece: &str,
    answer: &mut String,
) -> Result<(), AllocError> {
    let mut frames = Frames::new(alloc);
    let outcome = call(alloc, framer, piece, &mut frames)?;
    for i in 0..frames.len() {
        answer.push_str("[")?;
        push_spelled(frames.at(i), answer)?;
        answer.push_str("]")?;
    }
    match outcome {
        Ok(()) => answer.push_str(";"),
        Err(fault) => write!(answer, "{fault};"),
    }
}

fn call(
    alloc: Global,
    framer: &mut Framer,
    piece: &str,
    frames: &mut Frames,
) -> Result<Result<(), FrameFault>, AllocError> {
    if piece == "." {
        return Ok(framer.finish(frames));
    }
    let bytes = bytes_of(alloc, piece)?;
    Ok(framer.feed(alloc, &bytes, frames))
}
