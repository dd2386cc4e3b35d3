//! What the lines of `stdin` cannot show: white space with line feeds, existing fields, and running out of memory.
use crate::answers_tests::shown;
use jsonline_in::{JsonFault, fields_of};
use std::alloc::{AllocError, Global};
use vl_row::FieldList;

/// Returns the fields after reading these two lines.
fn after_both(alloc: Global, first: &[u8], second: &[u8]) -> Result<String, JsonFault> {
    let mut fields = FieldList::new(alloc);
    fields_of(alloc, first, &mut fields)?;
    fields_of(alloc, second, &mut fields)?;
    Ok(shown(alloc, Ok(()), &fields)?)
}

/// Returns whether the members of a line count over the fields before.
pub fn count_over(alloc: Global) -> Result<bool, JsonFault> {
    let text = after_both(
        alloc,
        b"{\"a\":1,\n\"b\"\n:{\"c\":2\n}}\n",
        b"{\"b\":{\"c\":null},\"d\":[\n]}",
    )?;
    Ok(text.as_str() == "a=1;d=[];")
}

/// Returns whether running out of memory has its text.
pub fn memory_has_text(alloc: Global) -> Result<bool, AllocError> {
    let text = format!(in alloc; "{}", JsonFault::from(AllocError))?;
    Ok(text.as_str() == "no memory")
}
