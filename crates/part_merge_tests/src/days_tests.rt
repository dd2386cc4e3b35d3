//! Parts split by days.
use crate::rows_tests::{part_of, put_blocks};
use day_parts::split_days;
use std::alloc::{AllocError, Global};
use std::fmt::Write;

/// Returns the text of each day and the rows of its part.
pub fn days_text(alloc: Global, text: &str) -> Result<String, AllocError> {
    let Some(part) = part_of(alloc, text)? else {
        return format!(in alloc; "no part");
    };
    let days = split_days(alloc, &part)?;
    let mut text = format!(in alloc; "{} days", days.len())?;
    for day in &days {
        let _ = write!(text, " {}: ", day.day);
        put_blocks(alloc, &mut text, day.part.blocks())?;
    }
    Ok(text)
}
