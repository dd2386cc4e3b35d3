//! What the readers and writers of items answer.
use crate::padded_tests::Padded;
use byte_format::{
    Stop, first_difference, put_i64s, put_text16, put_text32, put_u32s, put_u64s, read_exactly,
    take_i64, take_i64s, take_inside, take_text16, take_text32, take_u8, take_u16, take_u32,
    take_u32s, take_u64, take_u64s,
};
use std::alloc::{AllocError, Global};

pub fn answer(alloc: Global, line: &str) -> Result<String, AllocError> {
    let Some((call, rest)) = line.split_once(' ') else {
        return format!(in alloc; "no call");
    };
    let (count, digits) = match rest.split_once(' ') {
        Some((count, digits)) => (count.parse::<usize>().unwrap_or(0), digits),
        None => (0, rest),
    };
    let bytes = bytes_of(alloc, digits)?;
    let bytes = bytes.as_slice();
    match call {
        "u8" => one(alloc, take_u8(bytes)),
        "u16" => one(alloc, take_u16(bytes)),
        "u32" => one(alloc, take_u32(bytes)),
        "u64" => one(alloc, take_u64(bytes)),
        "i64" => signed(alloc, take_i64(bytes)),
        "text16" => text16(alloc, bytes),
        "text32" => text32(alloc, bytes),
        "u32s" => u32s(alloc, count, bytes),
        "u64s" => u64s(alloc, count, bytes),
        "i64s" => i64s(alloc, count, bytes),
        "padded" => padded(alloc, count, bytes),
        "window" => window(alloc, count, bytes),
        _ => differ(alloc, bytes, count),
    }
}

/// The bytes that pairs of hexadecimal digits stand for.
fn bytes_of(alloc: Global, digits: &str) -> Result<Vec<u8>, AllocError> {
    let mut bytes = Vec::new(alloc);
    let mut high = None;
    for c in digits.chars() {
        let digit = c.to_digit(16).unwrap_or(0) as u8 % 16;
        match high {
            None => high = Some(digit),
            Some(first) => {
                bytes.push(first % 16 * 16 + digit)?;
                high = None;
            }
        }
    }
    Ok(bytes)
}

fn one<T: Into<u64>>(alloc: Global, read: Result<(T, &[u8]), Stop>) -> Result<String, AllocError> {
    match read {
        Ok((n, rest)) => {
            let n: u64 = n.into();
            format!(in alloc; "{n} behind {}", rest.len())
        }
        Err(stop) => format!(in alloc; "{stop:?}"),
    }
}

fn signed(alloc: Global, read: Result<(i64, &[u8]), Stop>) -> Result<String, AllocError> {
    match read {
        Ok((n, rest)) => format!(in alloc; "{n} behind {}", rest.len()),
        Err(stop) => format!(in alloc; "{stop:?}"),
    }
}

fn text16(alloc: Global, bytes: &[u8]) -> Result<String, AllocError> {
    match take_text16(bytes) {
        Ok((text, rest)) => {
            let mut out = Vec::new(alloc);
            if text.len() < 1 << 16 {
                put_text16(&mut out, text)?;
            }
            let again = bytes.starts_with(out.as_slice());
            format!(in alloc; "{text} behind {} {again}", rest.len())
        }
        Err(stop) => format!(in alloc; "{stop:?}"),
    }
}

fn text32(alloc: Global, bytes: &[u8]) -> Result<String, AllocError> {
    match take_text32(bytes) {
        Ok((text, rest)) => {
            let mut out = Vec::new(alloc);
            if text.len() < 1 << 32 {
                put_text32(&mut out, text)?;
            }
            let again = bytes.starts_with(out.as_slice());
            format!(in alloc; "{text} behind {} {again}", rest.len())
        }
        Err(stop) => format!(in alloc; "{stop:?}"),
    }
}

fn u32s(alloc: Global, count: usize, bytes: &[u8]) -> Result<String, AllocError> {
    match take_u32s(alloc, count, bytes) {
        Ok((numbers, rest)) => {
            let mut out = Vec::new(alloc);
            put_u32s(&mut out, numbers.as_slice())?;
            let again = bytes.starts_with(out.as_slice());
            format!(in alloc; "{numbers:?} behind {} {again}", rest.len())
        }
        Err(stop) => format!(in alloc; "{stop:?}"),
    }
}

fn u64s(alloc: Global, count: usize, bytes: &[u8]) -> Result<String, AllocError> {
    match take_u64s(alloc, count, bytes) {
        Ok((numbers, rest)) => {
            let mut out = Vec::new(alloc);
            put_u64s(&mut out, numbers.as_slice())?;
            let again = bytes.starts_with(out.as_slice());
            format!(in alloc; "{numbers:?} behind {} {again}", rest.len())
        }
        Err(stop) => format!(in alloc; "{stop:?}"),
    }
}

fn i64s(alloc: Global, count: usize, bytes: &[u8]) -> Result<String, AllocError> {
    match take_i64s(alloc, count, bytes) {
        Ok((numbers, rest)) => {
            let mut out = Vec::new(alloc);
            put_i64s(&mut out, numbers.as_slice())?;
            let again = bytes.starts_with(out.as_slice());
            format!(in alloc; "{numbers:?} behind {} {again}", rest.len())
        }
        Err(stop) => format!(in alloc; "{stop:?}"),
    }
}

/// The number that the bytes spell, if it is at most this.
fn padded(alloc: Global, most: usize, bytes: &[u8]) -> Result<String, AllocError> {
    match read_exactly::<Padded>(alloc, most.min(255) as u8, bytes) {
        Ok(n) => format!(in alloc; "{n}"),
        Err(fault) => format!(in alloc; "{fault:?}"),
    }
}

/// The number in exactly the next bytes.
fn window(alloc: Global, length: usize, bytes: &[u8]) -> Result<String, AllocError> {
    match take_inside::<Padded>(alloc, 255, length, bytes) {
        Ok((padded, rest)) => format!(in alloc; "{} behind {}", padded.n, rest.len()),
        Err(stop) => format!(in alloc; "{stop:?}"),
    }
}

/// Where the bytes before a place differ from those behind it.
fn differ(alloc: Global, bytes: &[u8], at: usize) -> Result<String, AllocError> {
    let (left, right) = bytes.split_at(at.min(bytes.len()));
    match first_difference(left, right) {
        Some(d) => format!(in alloc; "differ at {d}"),
        None => format!(in alloc; "one begins the other"),
    }
}
