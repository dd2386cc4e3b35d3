//! What columns answer.
ghost use Rattle.std.specs.Prelude.{◌<◌, ◌^◌, length, sum_by};

use crate::hex_tests::{bytes_of, push_digits};
use crate::mask_tests;
use byte_format::Stop;
use col_codec::{ColumnFault, IntColumn, TextColumn};
use std::alloc::{AllocError, Global};
use std::fmt::Write;

/// No column of texts is made of more bytes.
const MOST_BYTES: usize = 1_048_576;

pub fn answer(alloc: Global, line: &str) -> Result<String, AllocError> {
    let (call, rest) = line.split_once(' ').unwrap_or((line, ""));
    let (rows, digits) = rest.split_once(' ').unwrap_or((rest, ""));
    let rows = rows.parse::<u32>().unwrap_or(0) as usize;
    match call {
        "ints" => ints(alloc, rest),
        "texts" => texts(alloc, rest),
        "read-ints" => read_ints(alloc, rows, digits),
        "read-texts" => read_texts(alloc, rows, digits),
        "take-ints" => take_ints(alloc, rows, digits),
        "take-texts" => take_texts(alloc, rows, digits),
        "masks" => masks(alloc, rest),
        _ => format!(in alloc; "no call"),
    }
}

fn ints(alloc: Global, list: &str) -> Result<String, AllocError> {
    let mut values = Vec::new(alloc);
    for value in list.split(',') {
        if let Ok(value) = value.parse::<i64>() {
            values.push(value)?;
        }
    }
    let column = IntColumn::try_of(alloc, values.as_slice())?;
    let bytes = column.to_bytes(alloc)?;
    let mut answer = String::new(alloc);
    push_digits(&mut answer, bytes.as_slice())?;
    push_ints(&mut answer, &column)?;
    match IntColumn::from_bytes(alloc, bytes.as_slice(), column.len()) {
        Ok(again) => push_ints(&mut answer, &again)?,
        Err(fault) => return fault_text(alloc, fault),
    }
    Ok(answer)
}

fn texts(alloc: Global, list: &str) -> Result<String, AllocError> {
    let mut values = Vec::new(alloc);
    let mut room = MOST_BYTES;
    for value in list.split(',') {
        if value.len() <= room {
            room -= value.len();
            values.push(value)?;
        }
    }
    column_of(alloc, values.as_slice())
}

fn column_of(alloc: Global, values: &[&str]) -> Result<String, AllocError>
    requires { sum_by (λ t. length t.now) values.now < 2 ^ 32 }
{
    let column = TextColumn::try_of(alloc, values)?;
    let bytes = column.to_bytes(alloc)?;
    let mut answer = String::new(alloc);
    push_digits(&mut answer, bytes.as_slice())?;
    push_texts(&mut answer, &column)?;
    match TextColumn::from_bytes(alloc, bytes.as_slice(), column.len()) {
        Ok(again) => push_texts(&mut answer, &again)?,
        Err(fault) => return fault_text(alloc, fault),
    }
    Ok(answer)
}

fn read_ints(alloc: Global, rows: usize, digits: &str) -> Result<String, AllocError> {
    let bytes = bytes_of(alloc, digits)?;
    match IntColumn::from_bytes(alloc, bytes.as_slice(), rows) {
        Ok(column) => {
            let mut answer = String::new(alloc);
            push_ints(&mut answer, &column)?;
            Ok(answer)
        }
        Err(fault) => fault_text(alloc, fault),
    }
}

fn read_texts(alloc: Global, rows: usize, digits: &str) -> Result<String, AllocError> {
    let bytes = bytes_of(alloc, digits)?;
    match TextColumn::from_bytes(alloc, bytes.as_slice(), rows) {
        Ok(column) => {
            let mut answer = String::new(alloc);
            push_texts(&mut answer, &column)?;
            Ok(answer)
        }
        Err(fault) => fault_text(alloc, fault),
    }
}

/// The integers at the front of the bytes, and their column as it is put behind the bytes that are left.
fn take_ints(alloc: Global, rows: usize, digits: &str) -> Result<String, AllocError> {
    let bytes = bytes_of(alloc, digits)?;
    match IntColumn::take(alloc, rows, bytes.as_slice()) {
        Ok((column, rest)) => {
            let mut out = rest.to_vec(alloc)?;
            column.put(&mut out)?;
            let mut answer = String::new(alloc);
            push_digits(&mut answer, out.as_slice())?;
            push_ints(&mut answer, &column)?;
            Ok(answer)
        }
        Err(stop) => stop_text(alloc, stop),
    }
}

/// The texts at the front of the bytes, and their column as it is put behind the bytes that are left.
fn take_texts(alloc: Global, rows: usize, digits: &str) -> Result<String, AllocError> {
    let bytes = bytes_of(alloc, digits)?;
    match TextColumn::take(alloc, rows, bytes.as_slice()) {
        Ok((column, rest)) => {
            let mut out = rest.to_vec(alloc)?;
            column.put(&mut out)?;
            let mut answer = String::new(alloc);
            push_digits(&mut answer, out.as_slice())?;
            push_texts(&mut answer, &column)?;
            Ok(answer)
        }
        Err(stop) => stop_text(alloc, stop),
    }
}

/// What the masks of columns of integers between two are.
fn masks(alloc: Global, text: &str) -> Result<String, AllocError> {
    let (least, most) = text.split_once(' ').unwrap_or((text, ""));
    mask_tests::answer(
        alloc,
        least.parse::<i64>().unwrap_or(0),
        most.parse::<i64>().unwrap_or(0),
    )
}

fn stop_text(alloc: Global, stop: Stop) -> Result<String, AllocError> {
    match stop {
        Stop::Left(left) => format!(in alloc; "damaged {left} ahead of the end"),
        Stop::Memory => format!(in alloc; "no memory"),
    }
}

fn fault_text(alloc: Global, fault: ColumnFault) -> Result<String, AllocError> {
    match fault {
        ColumnFault::Damaged { at } => format!(in alloc; "damaged at {at}"),
        ColumnFault::Memory => format!(in alloc; "no memory"),
    }
}

fn push_ints(answer: &mut String, column: &IntColumn) -> Result<(), AllocError> {
    answer.push_str(" [")?;
    for i in 0..column.len() {
        if i > 0 {
            answer.push(',')?;
        }
        let _ = write!(answer, "{}", column.get(i));
    }
    answer.push(']')
}

fn push_texts(answer: &mut String, column: &TextColumn) -> Result<(), AllocError> {
    answer.push_str(" [")?;
    for i in 0..column.len() {
        if i > 0 {
            answer.push(',')?;
        }
        answer.push_str(column.get(i))?;
    }
    answer.push(']')
}
