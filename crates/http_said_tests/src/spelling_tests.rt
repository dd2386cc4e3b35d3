//! Bytes in escaped form.
use std::alloc::{AllocError, Global};
use std::fmt::Write;

/// The largest number of bytes that are printed; of more, only their number is printed.
const LONGEST: usize = 400;

pub fn push_spelled(bytes: &[u8], out: &mut String) -> Result<(), AllocError> {
    if bytes.len() > LONGEST {
        return write!(out, "({} bytes)", bytes.len());
    }
    for byte in bytes {
        if byte.is_ascii_graphic() && *byte != b'\\' {
            out.push(*byte as char)?;
        } else {
            write!(out, "\\{byte:02x};")?;
        }
    }
    Ok(())
}

pub fn bytes_of(alloc: Global, text: &str) -> Result<Vec<u8>, AllocError> {
    let mut bytes = Vec::new(alloc);
    let mut pieces = text.split('\\');
    if let Some(first) = pieces.next() {
        bytes.extend_from_slice(first.as_bytes())?;
    }
    for piece in pieces {
        push_piece(piece, &mut bytes)?;
    }
    Ok(bytes)
}

fn push_piece(piece: &str, bytes: &mut Vec<u8>) -> Result<(), AllocError> {
    let (code, plain) = piece.split_once(';').unwrap_or((piece, ""));
    let (byte, count) = code.split_once('x').unwrap_or((code, "1"));
    let byte = u8::from_str_radix(byte, 16).unwrap_or(b'?');
    let count: u32 = count.parse().unwrap_or(0);
    for _ in 0..count {
        bytes.push(byte)?;
    }
    bytes.extend_from_slice(plain.as_bytes())
}
