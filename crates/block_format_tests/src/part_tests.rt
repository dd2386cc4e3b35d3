//! What the parts of blocks say.
ghost use Rattle.std.specs.Prelude.{◌<◌, ◌^◌, IsTrue, length, sum_by};
ghost use Rattle.std.specs.List.{AllByRecursion};
ghost use Rattle.block_format.specs.Labels.{IsShortLabel};

use crate::hex_tests::{bytes_of, push_digits};
use block_column::{FoundColumn, Value, ValueColumn};
use block_format::{Parts, put_column, put_labels, take_parts};
use byte_format::Stop;
use std::alloc::{AllocError, Global};
use std::fmt::Write;
use vl_row::{Field, FieldList, Row, Text};
use word_filter::filter_of;

/// No column is made of more bytes.
const MOST_BYTES: usize = 1_048_576;

pub fn answer(alloc: Global, line: &str) -> Result<String, AllocError> {
    if let Some(labels) = line.strip_prefix("labels ") {
        return labels_text(alloc, labels);
    }
    if let Some(column) = line.strip_prefix("column ") {
        return named_text(alloc, column);
    }
    let bytes = bytes_of(alloc, line)?;
    match take_parts(alloc, bytes.as_slice()) {
        Ok((parts, [])) => parts_text(alloc, &parts),
        Ok((_, rest)) => format!(in alloc; "{} left", rest.len()),
        Err(Stop::Left(left)) => format!(in alloc; "{left} left"),
        Err(Stop::Memory) => format!(in alloc; "no memory"),
    }
}

/// The bytes of the labels of a row all of whose fields are labels.
fn labels_text(alloc: Global, text: &str) -> Result<String, AllocError> {
    let mut names = Vec::new(alloc);
    let mut fields = FieldList::new(alloc);
    for field in text.split(',') {
        let (name, value) = field.split_once('=').unwrap_or((field, ""));
        names.push(Text::try_of(alloc, name)?)?;
        if !name.is_empty() {
            fields.set(alloc, name, value)?;
        }
    }
    match Row::try_new(alloc, 0, names.as_slice(), fields) {
        Ok(row) => row_labels(alloc, &row),
        Err(_) => format!(in alloc; "no row"),
    }
}

fn row_labels(alloc: Global, row: &Row) -> Result<String, AllocError> {
    let stream = row.stream();
    if stream.len() >= 65_536 || !are_short(stream.as_slice()) {
        return format!(in alloc; "too long labels");
    }
    let mut bytes = Vec::new(alloc);
    put_labels(&mut bytes, stream)?;
    let mut text = String::new(alloc);
    push_digits(&mut text, bytes.as_slice())?;
    Ok(text)
}

fn are_short(labels: &[Field]) -> bool
    ensures { IsTrue result → AllByRecursion IsShortLabel labels.now }
{
    for label in labels {
        if !is_short(label) {
            return false;
        }
    }
    true
}

fn is_short(label: &Field) -> bool
    ensures { IsTrue result → IsShortLabel label.now }
{
    label.name().len() < 65_536 && label.value().len() < 4_294_967_296
}

/// The bytes of a column.
fn named_text(alloc: Global, text: &str) -> Result<String, AllocError> {
    let (name, list) = text.split_once(' ').unwrap_or((text, ""));
    let mut values = Vec::new(alloc);
    let mut room = MOST_BYTES;
    for value in list.split(',') {
        if value.len() <= room {
            room -= value.len();
            values.push(value)?;
        }
    }
    column_text(alloc, name, values.as_slice())
}

fn column_text(alloc: Global, name: &str, values: &[&str]) -> Result<String, AllocError>
    requires { sum_by (λ t. length t.now) values.now < 2 ^ 32 }
{
    if name.len() >= 65_536 {
        return format!(in alloc; "too long a name");
    }
    let column = ValueColumn::try_of(alloc, values)?;
    let filter = filter_of(alloc, values)?;
    let mut bytes = Vec::new(alloc);
    put_column(&mut bytes, name, &filter, &column)?;
    let mut text = String::new(alloc);
    push_digits(&mut text, bytes.as_slice())?;
    Ok(text)
}

fn parts_text(alloc: Global, parts: &Parts) -> Result<String, AllocError> {
    let mut text = String::new(alloc);
    for label in &parts.labels {
        let _ = write!(text, "{}={} ", label.name(), label.value());
    }
    for key in &parts.keys {
        let _ = write!(text, "/ {} {} {} ", key.time, key.batch, key.place);
    }
    for column in &parts.columns {
        let _ = write!(text, "{}:", column.name.as_str());
        push_values(&mut text, &column.values);
    }
    Ok(text)
}

fn push_values(text: &mut String, values: &FoundColumn) {
    for i in 0..values.len() {
        let _ = match values.value(i) {
            Value::Str(value) => write!(text, "[{value}] "),
            Value::Int(value) => write!(text, "{value} "),
        };
    }
}
