//! What a line answers.
use crate::fields_tests;
use jsonline_in::{JsonFault, run};
use std::alloc::{AllocError, Global};
use vl_row::FieldList;

pub(crate) fn answer(alloc: Global, line: &[u8]) -> Result<String, AllocError> {
    if line.starts_with(b"run ") {
        let bytes = line.get(4..).unwrap_or(line);
        return run::plain_len(bytes).to_string(alloc);
    }
    if line == b"check count_over".as_slice() {
        let holds = fields_tests::count_over(alloc);
        return holds.unwrap_or(false).to_string(alloc);
    }
    if line == b"check memory_has_text".as_slice() {
        return fields_tests::memory_has_text(alloc)?.to_string(alloc);
    }
    both(alloc, line)
}

/// Returns the results of both implementations for the line.
fn both(alloc: Global, line: &[u8]) -> Result<String, AllocError> {
    let read = read(alloc, line)?;
    let plain = read_plainly(alloc, line)?;
    if read.as_str() == plain.as_str() {
        return Ok(read);
    }
    format!(in alloc; "{read} but plainly {plain}")
}

fn read(alloc: Global, line: &[u8]) -> Result<String, AllocError> {
    let mut fields = FieldList::new(alloc);
    let answer = jsonline_in::fields_of(alloc, line, &mut fields);
    shown(alloc, answer, &fields)
}

fn read_plainly(alloc: Global, line: &[u8]) -> Result<String, AllocError> {
    let mut fields = FieldList::new(alloc);
    let answer = jsonline_in_plain::fields_of(alloc, line, &mut fields);
    shown(alloc, answer, &fields)
}

pub(crate) fn shown(
    alloc: Global,
    answer: Result<(), JsonFault>,
    fields: &FieldList,
) -> Result<String, AllocError> {
    if let Err(fault) = answer {
        return format!(in alloc; "{fault}");
    }
    let mut text = String::new(alloc);
    for field in fields.as_slice() {
        write!(text, "{}={};", field.name(), field.value())?;
    }
    Ok(text)
}
