//! What the parts of columns answer, and what bytes of any kind say.
ghost use Rattle.std.specs.Prelude.{◌<◌, ◌^◌, IsTrue, length, sum_by};

use crate::column_tests::push_column;
use crate::hex_tests::{bytes_of, push_digits};
use block_column::{FoundColumn, Value, ValueColumn, take_kind, text_len};
use byte_format::Stop;
use std::alloc::{AllocError, Global};
use std::fmt::Write;

/// The bytes of all values, which are fewer than this.
const MAX_SIZE: usize = 4_294_967_296;

/// The kind, the body and the members of the column of these values.
pub fn parts_text(alloc: Global, values: &[&str]) -> Result<String, AllocError>
    requires { sum_by (λ t. length t.now) values.now < 2 ^ 32 }
{
    let column = ValueColumn::try_of(alloc, values)?;
    let mut body = Vec::new(alloc);
    column.put_body(&mut body)?;
    let mut answer = format!(in alloc; "{} ", column.kind())?;
    push_digits(&mut answer, body.as_slice())?;
    match column.members(alloc)? {
        Some(members) => push_members(&mut answer, members.as_slice()),
        None => answer.push_str(" none")?,
    }
    Ok(answer)
}

fn push_members(answer: &mut String, members: &[&str]) {
    for text in members {
        let _ = write!(answer, " [{text}]");
    }
}

/// What bytes say that are a column of so many rows, and the column of these values.
pub fn found_text(alloc: Global, rows: usize, rest: &str) -> Result<String, AllocError> {
    let (most, digits) = rest.split_once(' ').unwrap_or((rest, ""));
    let most = most.parse::<u32>().unwrap_or(0) as usize;
    let bytes = bytes_of(alloc, digits)?;
    match taken(alloc, rows, bytes.as_slice()) {
        Ok((found, left)) => {
            let mut answer = format!(in alloc; "{left} left")?;
            push_found(&mut answer, &found);
            push_made(alloc, &mut answer, found, most)?;
            Ok(answer)
        }
        Err(Stop::Left(left)) => format!(in alloc; "damaged {left} before the end"),
        Err(Stop::Memory) => format!(in alloc; "no memory"),
    }
}

fn taken(alloc: Global, rows: usize, bytes: &[u8]) -> Result<(FoundColumn, usize), Stop> {
    let (kind, rest) = take_kind(bytes)?;
    let (found, rest) = FoundColumn::take_body(alloc, rows, kind, rest)?;
    Ok((found, rest.len()))
}

/// Appends each value, and how many bytes its text has.
fn push_found(answer: &mut String, found: &FoundColumn) {
    for i in 0..found.len() {
        let value = found.value(i);
        let _ = match value {
            Value::Str(text) => write!(answer, " [{text}]"),
            Value::Int(integer) => write!(answer, " {integer}"),
        };
        let _ = write!(answer, " {}", text_len(value));
    }
}

fn push_made(
    alloc: Global,
    answer: &mut String,
    found: FoundColumn,
    most: usize,
) -> Result<(), AllocError> {
    if !are_short(&found, most) {
        answer.push_str(" too long")?;
        return Ok(());
    }
    let column = found.into_column(alloc)?;
    answer.push(' ')?;
    push_column(alloc, answer, &column)?;
    Ok(())
}

/// Whether no value is longer than `most`, and all are short together.
fn are_short(found: &FoundColumn, most: usize) -> bool
    ensures { IsTrue result → sum_by length found.now < 2 ^ 32 }
{
    let mut size = 0;
    for i in 0..found.len() {
        let len = text_len(found.value(i));
        if len > most || len >= MAX_SIZE - size {
            return false;
        }
        size += len;
    }
    true
}
