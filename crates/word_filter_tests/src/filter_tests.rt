//! What filters answer.
ghost use Rattle.std.specs.Prelude.{◌≡◌, ◌<◌, ◌^◌, IfOk, length, map, sum_by};

use crate::hex_tests::{bytes_of, push_digits};
use byte_format::Stop;
use std::alloc::{AllocError, Global};
use std::fmt::Write;
use token_bloom::Bloom;
use word_filter::{filter_of, put_filter, take_filter};

/// No filter is made of more bytes.
const MOST_BYTES: usize = 4_194_304;

pub fn answer(alloc: Global, line: &str) -> Result<String, AllocError> {
    if let Some(digits) = line.strip_prefix("read ") {
        let mut answer = String::new(alloc);
        let bytes = bytes_of(alloc, digits)?;
        push_read(&mut answer, bytes.as_slice());
        return Ok(answer);
    }
    if let Some(list) = line.strip_prefix("again ") {
        let many = repeated(alloc, list)?;
        let values = values_of(alloc, many.as_str())?;
        return made(alloc, values.as_slice());
    }
    let values = values_of(alloc, line)?;
    made(alloc, values.as_slice())
}

/// The values of a list, as long as they are not too long together.
fn values_of(alloc: Global, list: &str) -> Result<Vec<&str>, AllocError>
    ensures { IfOk result (λ values. sum_by (λ t. length t.now) values.items < 2 ^ 32) }
{
    let mut values = Vec::new(alloc);
    let mut room = MOST_BYTES;
    for value in list.split(',') {
        if value.len() <= room {
            room -= value.len();
            values.push(value)?;
        }
    }
    Ok(values)
}

/// The list after the number at its front, so often.
fn repeated(alloc: Global, list: &str) -> Result<String, AllocError> {
    let (times, list) = list.split_once(' ').unwrap_or(("", list));
    let mut many = String::from_str(alloc, list)?;
    for _ in 1..times.parse::<u32>().unwrap_or(0) {
        many.push(',')?;
        many.push_str(list)?;
    }
    Ok(many)
}

fn made(alloc: Global, values: &[&str]) -> Result<String, AllocError>
    requires { sum_by (λ t. length t.now) values.now < 2 ^ 32 }
{
    let bloom = filter_of(alloc, values)?;
    shown(alloc, &bloom)
}

fn shown(alloc: Global, bloom: &Bloom) -> Result<String, AllocError>
    requires { length bloom.now < 2 ^ 32 }
{
    let mut bytes = Vec::new(alloc);
    put_filter(&mut bytes, bloom)?;
    let mut answer = String::new(alloc);
    push_digits(&mut answer, bytes.as_slice())?;
    answer.push(' ')?;
    push_read(&mut answer, bytes.as_slice());
    Ok(answer)
}

fn push_read(answer: &mut String, bytes: &[u8]) {
    let _ = match take_filter(bytes) {
        Ok((words, rest)) => write!(answer, "{words} words, {} bytes after it", rest.len()),
        Err(Stop::Left(left)) => write!(answer, "{left} bytes from the damaged item on"),
        Err(Stop::Memory) => write!(answer, "no memory"),
    };
}
