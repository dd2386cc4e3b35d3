//! Reading the frames of a piece, after what is kept of an unfinished one.
ghost use Rattle.std.specs.Prelude.{◌≡◌, ◌<◌, ◌≤◌, ◌++◌, List, ℕ, length, take, vec_len, OnOk, OnErr, IfOk};
ghost use Rattle.syslog_in.specs.Framing.{BeginsWithFrames, unless_empty};
ghost use Rattle.syslog_in.specs.Reading.{Reads, short, step_at, why_step};

use crate::frames::Frames;
use crate::scan::{Scan, begins_length, first_frame, length_at, line_len};
use std::alloc::{AllocError, Global};

/// Why no further frame is read.
#[derive(Clone, Copy)]
pub(crate) enum Why {
    /// More bytes are needed.
    Short,
    /// The length has a wrong byte, so far after the frame's start.
    BadLength { behind: usize },
    TooLong,
}

/// Where reading stops.
#[derive(Clone, Copy)]
pub(crate) struct Stop {
    /// How many bytes the whole frames had.
    pub(crate) passed: u64,
    pub(crate) why: Why,
}

/// Appends a message, unless it is empty.
pub(crate) fn push_message(message: &[u8], out: &mut Frames) -> Result<(), AllocError>
    ensures ok { OnOk result (out.new ≡ out.old ++ unless_empty message.now) }
    ensures err { OnErr result (out.new ≡ out.old) }
{
    if message.is_empty() {
        return Ok(());
    }
    out.push(message)
}

/// Appends the messages of all whole frames, and gives what follows them.
fn read_whole<'a>(bytes: &'a [u8], out: &mut Frames) -> Result<(&'a [u8], Why), AllocError>
    ensures ok { IfOk result (λ x. (messages : List (List ℕ)) × BeginsWithFrames bytes.now messages x.0.now
        × (out.new ≡ out.old ++ messages) × (step_at x.0.now ≡ why_step x.1)) }
    ensures err { OnErr result ((messages : List (List ℕ)) × (out.new ≡ out.old ++ messages)) }
{
    let mut rest = bytes;
    'frames: loop {
        match first_frame(rest) {
            Scan::Whole {
                message,
                rest: after,
            } => {
                push_message(message, out)?;
                rest = after;
            }
            Scan::Short => return Ok((rest, Why::Short)),
            Scan::BadLength { at } => return Ok((rest, Why::BadLength { behind: at })),
            Scan::TooLong => return Ok((rest, Why::TooLong)),
        }
    }
}

/// Returns the same, where what follows is kept in place of what was kept, if more bytes can make it a frame.
fn read_piece(
    alloc: Global,
    kept: &mut Vec<u8>,
    piece: &[u8],
    out: &mut Frames,
) -> Result<Stop, AllocError>
    ensures ok { IfOk result (λ stop. (rest : List ℕ) × Reads piece.now out.old out.new rest stop
        × (stop.why ≡ Why.Short → kept.new.items ≡ rest)) }
    ensures err { OnErr result ((messages : List (List ℕ)) × (kept.new ≡ kept.old)
        × (out.new ≡ out.old ++ messages)) }
{
    let (rest, why) = read_whole(piece, out)?;
    if let Why::Short = why {
        *kept = rest.to_vec(alloc)?;
    }
    Ok(Stop {
        passed: (piece.len() - rest.len()) as u64,
        why,
    })
}

/// Returns how many bytes more are surely of the frame that was begun.
fn wanted(kept: &[u8], piece: &[u8]) -> usize
    requires { 0 < length piece.now }
    ensures some { 0 < result }
    ensures most { result ≤ length piece.now }
{
    let more = if !begins_length(kept) {
        line_len(piece).saturating_add(1)
    } else {
        match length_at(kept) {
            Some((digits, value)) if digits < kept.len() => {
                value.saturating_sub(kept.len() - digits - 1)
            }
            _ => 1,
        }
    };
    more.max(1).min(piece.len())
}

/// Appends to the begun frame what it wants of the piece, or all of it, and gives how many bytes that were.
fn complete(kept: &mut Vec<u8>, piece: &[u8]) -> Result<usize, AllocError>
    ensures ok { IfOk result (λ used. kept.new.items ≡ kept.old.items ++ take used piece.now) }
    ensures bound { IfOk result (λ used. used ≤ length piece.now) }
    ensures all { IfOk result (λ used. step_at kept.new.items ≡ short → used ≡ length piece.now) }
    ensures err { OnErr result ((more : List ℕ) × (kept.new.items ≡ kept.old.items ++ more)) }
{
    let mut used = 0;
    'pieces: while used < piece.len() {
        let next = used + wanted(kept, &piece[used..]);
        kept.extend_from_slice(&piece[used..next])?;
        used = next;
        if !matches!(first_frame(kept), Scan::Short) {
            return Ok(used);
        }
    }
    Ok(used)
}

/// Reads a piece after what is kept of an unfinished frame, which may be nothing.
pub(crate) fn read_on(
    alloc: Global,
    kept: &mut Vec<u8>,
    piece: &[u8],
    out: &mut Frames,
) -> Result<Stop, AllocError>
    requires { step_at kept.old.items ≡ short }
    ensures ok { IfOk result (λ stop. (rest : List ℕ) × Reads (kept.old.items ++ piece.now) out.old out.new rest stop
        × (stop.why ≡ Why.Short → kept.new.items ≡ rest)) }
    ensures err { OnErr result ((more : List ℕ) × (messages : List (List ℕ))
        × (kept.new.items ≡ kept.old.items ++ more) × (out.new ≡ out.old ++ messages)) }
{
    if kept.is_empty() {
        return read_piece(alloc, kept, piece, out);
    }
    let used = complete(kept, piece)?;
    match first_frame(kept) {
        Scan::Whole { message, rest } => {
            let behind = rest.len();
            push_message(message, out)?;
            let first = (kept.len() - behind) as u64;
            let stop = read_piece(alloc, kept, &piece[used - behind..], out)?;
            Ok(Stop {
                passed: first.saturating_add(stop.passed),
                why: stop.why,
            })
        }
        Scan::Short => Ok(begun(Why::Short)),
        Scan::BadLength { at } => Ok(begun(Why::BadLength { behind: at })),
        Scan::TooLong => Ok(begun(Why::TooLong)),
    }
}

/// Returns a stop in the frame that was begun.
fn begun(why: Why) -> Stop
    ensures passed { result.passed ≡ 0 }
    ensures why { result.why ≡ why }
{
    Stop { passed: 0, why }
}
