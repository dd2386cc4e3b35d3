//! Merged parts.
ghost use Rattle.std.specs.Prelude.{◌≡◌, IfOk, flat_map};
ghost use Rattle.std.specs.Arc.{arc_value};

use crate::rows_tests::{part_of, put_blocks};
use part_file::{Part, are_part_rows};
use part_merge::merge;
use part_picks::{picks_of, rows_of};
use std::alloc::{AllocError, Global};
use std::sync::Arc;
use vl_row::Numbered;

/// Returns the text of the part that these parts merge into.
pub fn merged_text(alloc: Global, text: &str) -> Result<String, AllocError> {
    let Some(parts) = parts_of(alloc, text)? else {
        return format!(in alloc; "no part");
    };
    let Some(part) = merged(alloc, parts.as_slice())? else {
        return format!(in alloc; "no merge");
    };
    let mut text = String::new(alloc);
    put_blocks(alloc, &mut text, part.blocks())?;
    Ok(text)
}

/// Returns the parts, or `None` if one of them is none.
fn parts_of(alloc: Global, text: &str) -> Result<Option<Vec<Arc<Part>>>, AllocError> {
    let mut parts = Vec::new(alloc);
    for one in text.split('/') {
        let Some(part) = part_of(alloc, one)? else {
            return Ok(None);
        };
        parts.push(Arc::new(alloc, part)?)?;
    }
    Ok(Some(parts))
}

/// Merges the parts, or returns `None` if their rows are not those of one part.
fn merged(alloc: Global, parts: &[Arc<Part>]) -> Result<Option<Part>, AllocError> {
    let rows = all_rows(alloc, parts)?;
    if !are_part_rows(alloc, rows.as_slice())? {
        return Ok(None);
    }
    if parts.is_empty() {
        return Ok(None);
    }
    let part = merge(alloc, parts)?;
    Ok(Some(part))
}

/// Returns copies of the rows of all parts.
fn all_rows(alloc: Global, parts: &[Arc<Part>]) -> Result<Vec<Numbered>, AllocError>
    ensures { IfOk result (λ rows. rows.items ≡ flat_map arc_value parts.now) }
{
    let mut rows = Vec::new(alloc);
    for part in parts {
        let picks = picks_of(alloc, part.blocks())?;
        let mut more = rows_of(alloc, picks.as_slice())?;
        rows.append(&mut more)?;
    }
    Ok(rows)
}
