//! Pipes over records.
use crate::notation_tests::{pipes_of, record_of};
use lq_ast::Pipe;
use lq_pipes::{PipeFault, apply, lines};
use std::alloc::{AllocError, Global};
use vl_row::{FieldList, Recs, Text};

/// Returns the lines of the records that the pipes of a case make of those of the case, or why there are none.
pub fn answer(alloc: Global, case: &str) -> Result<Text, AllocError> {
    let mut parts = case.split('\t');
    let pipes = pipes_of(alloc, parts.next().unwrap_or(""))?;
    let mut records = Vec::new(alloc);
    for part in parts {
        records.push(record_of(alloc, part)?)?;
    }
    made(alloc, &pipes, records)
}

/// Returns the lines of the records that these pipes make of others, or why there are none.
pub fn made(alloc: Global, pipes: &[Pipe], records: Vec<FieldList>) -> Result<Text, AllocError> {
    if records.len() > 1000 {
        return Text::try_of(alloc, "too many records\n");
    }
    shown(alloc, apply(alloc, pipes, Recs::of(records)))
}

/// Returns the lines of these records, or why there are none.
pub fn shown(alloc: Global, made: Result<Recs, PipeFault>) -> Result<Text, AllocError> {
    let mut text = Text::new();
    match made {
        Ok(made) => lines(alloc, &made, &mut text)?,
        Err(PipeFault::RegexRefused { nth }) => {
            let fault = format!(in alloc; "RegexRefused number {nth}\n")?;
            text.push_str(alloc, fault.as_str())?;
        }
        Err(PipeFault::Overflow { name }) => {
            let fault = format!(in alloc; "Overflow in {}\n", name.as_str())?;
            text.push_str(alloc, fault.as_str())?;
        }
        Err(PipeFault::Memory) => text.push_str(alloc, "Memory\n")?,
    }
    Ok(text)
}
