//! Bytes as hexadecimal digits.
use std::alloc::{AllocError, Global};

/// The bytes that pairs of digits stand for.
pub fn bytes_of(alloc: Global, digits: &str) -> Result<Vec<u8>, AllocError> {
    let mut bytes = Vec::new(alloc);
    let mut high = None;
    for c in digits.chars() {
        let digit = c.to_digit(16).unwrap_or(0) as u8 % 16;
        match high {
            None => high = Some(digit),
            Some(first) => {
                bytes.push(first % 16 * 16 + digit)?;
                high = None;
            }
        }
    }
    Ok(bytes)
}

pub fn push_digits(answer: &mut String, bytes: &[u8]) -> Result<(), AllocError> {
    for byte in bytes {
        answer.push(digit(*byte / 16))?;
        answer.push(digit(*byte % 16))?;
    }
    Ok(())
}

fn digit(n: u8) -> char {
    char::from_digit(n as u32, 16).unwrap_or('?')
}
