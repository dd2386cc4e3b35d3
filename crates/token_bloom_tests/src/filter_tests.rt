//! What filters answer.
use std::alloc::{AllocError, Global};
use token_bloom::{Bloom, BloomFault, hash_of};

pub fn answer(alloc: Global, line: &str) -> Result<String, AllocError> {
    if let Some(length) = line.strip_prefix("length ") {
        return length_answer(alloc, length.parse::<usize>().unwrap_or(0));
    }
    if let Some(word) = line.strip_prefix("hash ") {
        return hash_answer(alloc, word);
    }
    let (added, asked) = line.split_once('|').unwrap_or((line, ""));
    let (room, words) = added.split_once(' ').unwrap_or((added, ""));
    let room = room.parse::<u32>().unwrap_or(0) as usize;
    let mut bloom = Bloom::with_room(alloc, room)?;
    for word in words.split(' ') {
        if !word.is_empty() {
            bloom.add(word.as_bytes());
        }
    }
    filter_answer(alloc, &bloom, asked)
}

fn filter_answer(alloc: Global, bloom: &Bloom, asked: &str) -> Result<String, AllocError> {
    let bytes = bloom.to_bytes(alloc)?;
    let again = match Bloom::from_bytes(alloc, bytes.as_slice()) {
        Ok(again) => again,
        Err(fault) => return format!(in alloc; "{fault:?}"),
    };
    let mut answer = digits_of(alloc, bytes.as_slice())?;
    for word in asked.split(' ') {
        let word = word.as_bytes();
        answer.push(if bloom.may_have(word) { '+' } else { '-' })?;
        answer.push(if again.may_have(word) { '+' } else { '-' })?;
    }
    Ok(answer)
}

/// The hash of a word, its most significant byte first.
fn hash_answer(alloc: Global, word: &str) -> Result<String, AllocError> {
    let bytes = hash_of(word.as_bytes()).to_be_bytes();
    digits_of(alloc, &bytes[..])
}

fn digits_of(alloc: Global, bytes: &[u8]) -> Result<String, AllocError> {
    let mut digits = String::new(alloc);
    for byte in bytes {
        digits.push(digit(*byte / 16))?;
        digits.push(digit(*byte % 16))?;
    }
    Ok(digits)
}

fn digit(n: u8) -> char {
    char::from_digit(n as u32, 16).unwrap_or('?')
}

fn length_answer(alloc: Global, length: usize) -> Result<String, AllocError> {
    let bytes = vec![in alloc; 0u8; length]?;
    match Bloom::from_bytes(alloc, bytes.as_slice()) {
        Ok(bloom) => format!(in alloc; "{} words", bloom.as_slice().len()),
        Err(BloomFault::BadLength) => format!(in alloc; "BadLength"),
        Err(BloomFault::Memory) => format!(in alloc; "Memory"),
    }
}
