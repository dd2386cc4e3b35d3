//! What columns answer.
ghost use Rattle.std.specs.Prelude.{◌<◌, ◌^◌, IfOk, length, sum_by};

use crate::hex_tests::push_digits;
use crate::part_tests::{found_text, parts_text};
use block_column::{Value, ValueColumn};
use std::alloc::{AllocError, Global};
use std::fmt::Write;

/// No column is made of more bytes.
const MOST_BYTES: usize = 4_194_304;

pub fn answer(alloc: Global, line: &str) -> Result<String, AllocError> {
    let (call, rest) = line.split_once(' ').unwrap_or((line, ""));
    let (rows, digits) = rest.split_once(' ').unwrap_or((rest, ""));
    match call {
        "values" => {
            let values = values_of(alloc, rest)?;
            column_of(alloc, values.as_slice())
        }
        "parts" => {
            let values = values_of(alloc, rest)?;
            parts_text(alloc, values.as_slice())
        }
        "found" => found_text(alloc, rows.parse::<u32>().unwrap_or(0) as usize, digits),
        _ => format!(in alloc; "no call"),
    }
}

/// The values of a list, as long as they are not too long together.
fn values_of(alloc: Global, list: &str) -> Result<Vec<&str>, AllocError>
    ensures { IfOk result (λ values. sum_by (λ t. length t.now) values.items < 2 ^ 32) }
{
    let mut values = Vec::new(alloc);
    let mut room = MOST_BYTES;
    for value in list.split(',') {
        if value.len() <= room {
            room -= value.len();
            values.push(value)?;
        }
    }
    Ok(values)
}

fn column_of(alloc: Global, values: &[&str]) -> Result<String, AllocError>
    requires { sum_by (λ t. length t.now) values.now < 2 ^ 32 }
{
    let column = ValueColumn::try_of(alloc, values)?;
    let mut answer = String::new(alloc);
    push_column(alloc, &mut answer, &column)?;
    answer.push_str(" [")?;
    for i in 0..column.len() {
        if i > 0 {
            answer.push(',')?;
        }
        match column.value(i) {
            Value::Str(text) => answer.push_str(text)?,
            Value::Int(integer) => {
                let _ = write!(answer, "#{integer}");
            }
        }
    }
    answer.push(']')?;
    Ok(answer)
}

/// The kind and the body of a column.
pub fn push_column(
    alloc: Global,
    answer: &mut String,
    column: &ValueColumn,
) -> Result<(), AllocError> {
    let mut bytes = Vec::new(alloc);
    bytes.push(column.kind())?;
    column.put_body(&mut bytes)?;
    push_digits(answer, bytes.as_slice())
}
