//! What connections come to.
ghost use Rattle.std.specs.Prelude.{◌<◌, All, IfOk};

use crate::ends_tests::push_ends;
use crate::readings_tests::{Cutting, Reading, WHOLE, read};
use crate::spelling_tests::bytes_of;
use std::alloc::{AllocError, Global};
use std::fmt::Write;

/// The longest connection that is read a byte at a time too.
const SHORT: usize = 40_000;

/// The longest connection that is cut at each place, and of which each read fails in turn.
const SHORTER: usize = 250;

pub fn answer(alloc: Global, line: &str) -> Result<String, AllocError> {
    let (name, spelled) = line.split_once(" | ").unwrap_or((line, ""));
    let bytes = bytes_of(alloc, spelled)?;
    let reading = read(alloc, &bytes, WHOLE)?;
    let mut answer = format!(in alloc; "{name} | {}", reading.text)?;
    if bytes.len() <= SHORT {
        push_cut(alloc, &bytes, &reading, &mut answer)?;
    }
    if bytes.len() <= SHORTER {
        push_ends(alloc, &bytes, &mut answer)?;
    }
    Ok(answer)
}

/// Reads a byte at a time.
fn push_cut(
    alloc: Global,
    bytes: &[u8],
    wanted: &Reading,
    answer: &mut String,
) -> Result<(), AllocError> {
    let ones = ones(alloc, bytes.len())?;
    let cutting = Cutting {
        pieces: &ones,
        failing: &[],
    };
    let reading = read(alloc, bytes, cutting)?;
    push_difference(&reading, wanted, "a byte at a time", answer)?;
    if bytes.len() <= SHORTER {
        push_failing(alloc, bytes, &reading, answer)?;
        push_pieces(alloc, bytes, &reading, answer)?;
    }
    answer.push_str(" |")?;
    for reads in &reading.behind {
        write!(answer, " {reads}")?;
    }
    Ok(())
}

/// Lets each read fail in turn. That is answered once, unless the bytes before it have the fault that is answered.
fn push_failing(
    alloc: Global,
    bytes: &[u8],
    wanted: &Reading,
    answer: &mut String,
) -> Result<(), AllocError> {
    let ones = ones(alloc, bytes.len())?;
    for k in 0..wanted.reads {
        let cutting = Cutting {
            pieces: &ones,
            failing: &[k],
        };
        let reading = read(alloc, bytes, cutting)?;
        push_difference(&reading, wanted, "with a failing read", answer)?;
        let faults = if is_known(alloc, bytes, k, wanted)? {
            0
        } else {
            1
        };
        if reading.faults != faults {
            write!(answer, "; {} faults at read {k}", reading.faults)?;
        }
    }
    Ok(())
}

/// Returns whether this many of the bytes have the fault that all have.
fn is_known(alloc: Global, bytes: &[u8], count: u64, wanted: &Reading) -> Result<bool, AllocError> {
    if !wanted.out_of_form {
        return Ok(false);
    }
    let front = &bytes[..bytes.len().min(count as usize)];
    let reading = read(alloc, front, WHOLE)?;
    Ok(reading.text.as_str() == wanted.text.as_str())
}

/// Reads in two pieces, cut at each place. Where the first makes the first request whole, there is no second read.
fn push_pieces(
    alloc: Global,
    bytes: &[u8],
    wanted: &Reading,
    answer: &mut String,
) -> Result<(), AllocError> {
    let Some(first) = wanted.behind.first().copied() else {
        return Ok(());
    };
    for cut in 1..bytes.len() {
        let cutting = Cutting {
            pieces: &[cut],
            failing: &[],
        };
        let reading = read(alloc, bytes, cutting)?;
        push_difference(&reading, wanted, "in two pieces", answer)?;
        if cut as u64 >= first && reading.behind.first().copied() != Some(1) {
            write!(answer, "; a read too many where it is cut at {cut}")?;
        }
    }
    Ok(())
}

fn push_difference(
    reading: &Reading,
    wanted: &Reading,
    how: &str,
    answer: &mut String,
) -> Result<(), AllocError> {
    if reading.text.as_str() == wanted.text.as_str() {
        return Ok(());
    }
    write!(answer, "; {how} {}", reading.text)
}

/// Returns this many pieces of one byte.
fn ones(alloc: Global, count: usize) -> Result<Vec<usize>, AllocError>
    ensures { IfOk result (λ ones. All (λ piece. 0 < piece) ones.items) }
{
    vec![in alloc; 1; count]
}
