//! What pipes make of records.
use crate::notation_tests::{fields_of, pipe_of};
use row_pipes::{MakeFault, make};
use std::alloc::{AllocError, Global};
use vl_row::FieldList;

/// Returns the record that the pipe of a case makes, or the fault.
pub fn answer(alloc: Global, case: &str) -> Result<String, AllocError> {
    let (word, rest) = case.split_once('\t').unwrap_or((case, ""));
    let (first, rest) = rest.split_once('\t').unwrap_or((rest, ""));
    let (second, fields) = rest.split_once('\t').unwrap_or((rest, ""));
    let Some(pipe) = pipe_of(alloc, word, first, second)? else {
        return String::from_str(alloc, "no pipe");
    };
    let mut record = fields_of(alloc, fields)?;
    match make(alloc, &pipe, &mut record) {
        Ok(()) => text_of(alloc, &record),
        Err(MakeFault::Overflow { name }) => format!(in alloc; "Overflow in {}", name.as_str()),
        Err(MakeFault::Memory) => Err(AllocError),
    }
}

fn text_of(alloc: Global, record: &FieldList) -> Result<String, AllocError> {
    let mut text = String::new(alloc);
    for field in record.as_slice() {
        if !text.is_empty() {
            text.push('&')?;
        }
        write!(text, "{}={}", field.name(), field.value())?;
    }
    Ok(text)
}
