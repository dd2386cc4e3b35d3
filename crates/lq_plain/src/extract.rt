//! The `extract` pipe.
ghost use Rattle.std.specs.Prelude.{◌≡◌, ◌≤◌, OnOk, drop, fold, length, map, nat_eq, option_map};
ghost use Rattle.std.specs.List.{starts_with};
ghost use Rattle.lq_ast.specs.Made.{extracted, left_after, put_extracted, split_once, taken};
ghost use Rattle.lq_ast.specs.MakingView.{pattern_piece};

use crate::put::put;
use lq_ast::Piece;
use std::alloc::{AllocError, Global};
use vl_row::FieldList;

/// Sets the names among the pieces to what they get from what is left of a value.
pub(crate) fn extract_fields(
    alloc: Global,
    made: &mut FieldList,
    pieces: &[Piece],
    left: Option<&str>,
) -> Result<(), AllocError>
    ensures { OnOk result (made.new ≡ fold put_extracted made.old
        (extracted (map pattern_piece pieces.now) (option_map (λ text. text.now) left.entry))) }
{
    match pieces {
        [] => Ok(()),
        [Piece::Plain(text), others @ ..] => {
            extract_fields(alloc, made, others, left_after(text.as_str(), left))
        }
        [Piece::Name(name), others @ ..] => {
            put_extracted(alloc, made, name.as_str(), taken(others, left))?;
            extract_fields(alloc, made, others, left)
        }
    }
}

/// Sets a field, unless its name is empty or `_`.
fn put_extracted(
    alloc: Global,
    made: &mut FieldList,
    name: &str,
    value: &str,
) -> Result<(), AllocError>
    ensures { OnOk result (made.new ≡ put_extracted made.old (name.now, value.now)) }
{
    if name == "_" {
        return Ok(());
    }
    put(alloc, made, name, value)
}

/// Returns what a name gets that stands before these pieces.
fn taken<'v>(pieces: &[Piece], left: Option<&'v str>) -> &'v str
    ensures { result.now ≡ taken (map pattern_piece pieces.now) (option_map (λ text. text.now) left.entry) }
{
    let Some(left) = left else {
        return "";
    };
    match pieces {
        [] => left,
        [Piece::Plain(text), ..] => match split_once(left, text.as_str()) {
            Some((before, _)) => before,
            None => "",
        },
        [Piece::Name(_), ..] => "",
    }
}

/// Returns what is left of a value after the text, or nothing once a text was not found.
fn left_after<'v>(text: &str, left: Option<&'v str>) -> Option<&'v str>
    ensures { option_map (λ text. text.now) result
        ≡ left_after text.now (option_map (λ text. text.now) left.entry) }
{
    let (_, after) = split_once(left?, text)?;
    Some(after)
}

/// Returns what stands before the first occurrence of the text in the value, and what stands after it.
fn split_once<'v>(value: &'v str, text: &str) -> Option<(&'v str, &'v str)>
    ensures { option_map (λ parts. (parts.0.now, parts.1.now)) result ≡ split_once text.now value.entry.now }
{
    for place in 0..value.len() + 1 {
        if starts_at(value, text, place) {
            return Some((&value[..place], &value[place + text.len()..]));
        }
    }
    None
}

/// Returns whether the bytes of the text are those of the value from `place` on.
fn starts_at(value: &str, text: &str, place: usize) -> bool
    requires within { place ≤ length value.now }
    ensures { result ≡ starts_with nat_eq (drop place value.now) text.now }
{
    value.as_bytes()[place..].starts_with(text.as_bytes())
}
