//! The members of the object of a row that is lent, one for each of its cells that has a value.
ghost use Rattle.std.specs.Prelude.{◌≡◌, ◌+◌, ◌<◌, ◌^◌, ◌||◌, [], ◌∷◌, ◌++◌, OnOk, IfOk, IfSome, IsNone};
ghost use Rattle.std.specs.Fmt.{signed_decimal};
ghost use Rattle.json.specs.Token.{key, string};
ghost use Rattle.log_model.specs.Field.{is_empty};
ghost use Rattle.lent_row.specs.Cells.{value_text};
ghost use Rattle.lq_pipes.specs.Cells.{StepsOver, fields_among, fields_behind};
ghost use Rattle.lq_pipes.specs.Merge.{fields_before, fields_from, is_after};
ghost use Rattle.lq_pipes.specs.Tokens.{members_tokens};

use crate::members::write_member;
use itoa::Buffer;
use json::Writer;
use lent_row::{LentRow, Value};
use std::alloc::AllocError;

/// Writes a member for each field from this cell on.
pub(crate) fn write_cells<R: LentRow>(
    writer: &mut Writer,
    row: &R,
    from: usize,
) -> Result<(), AllocError>
    ensures before { writer.new.before ≡ writer.old.before }
    ensures ok { OnOk result (writer.new.tokens
        ≡ writer.old.tokens ++ members_tokens (fields_behind from (R.cells row.now))) }
{
    let mut place = from;
    while place < row.cell_count() {
        write_cell(writer, row.name_at(place), row.value_at(place))?;
        place += 1;
    }
    Ok(())
}

/// Writes the fields from this cell on, as long as their names come before `name`, and then one more field of this name
/// and value. Returns the first cell that is left.
pub(crate) fn write_cells_through<R: LentRow>(
    writer: &mut Writer,
    row: &R,
    from: usize,
    name: &str,
    value: &str,
) -> Result<usize, AllocError>
    ensures before { writer.new.before ≡ writer.old.before }
    ensures ok { OnOk result (writer.new.tokens ≡ writer.old.tokens ++ members_tokens
        (fields_before name.now (fields_behind from (R.cells row.now)) ++ (name.now, value.now) ∷ [])) }
    ensures rest { IfOk result (λ next.
        fields_behind next (R.cells row.now) ≡ fields_from name.now (fields_behind from (R.cells row.now))) }
{
    let mut place = from;
    'cells: while let Some((here, held)) = cell_before(row, place, name) {
        write_cell(writer, here, held)?;
        place += 1;
    }
    write_member(writer, name, value)?;
    Ok(place)
}

/// Returns the name and the value of the cell at this place, if there is one and it stands before the place of `name`.
/// A cell without a value stands before any.
fn cell_before<'a, R: LentRow>(row: &'a R, place: usize, name: &str) -> Option<(&'a str, Value<'a>)>
    ensures some { IfSome result (λ cell.
        StepsOver name.now (R.cells row.entry.now) place (cell.0.now, value_text cell.1)) }
    ensures next { IfSome result (λ _. place + 1 < 2 ^ 64) }
    ensures none { IsNone result → fields_before name.now (fields_behind place (R.cells row.entry.now)) ≡ [] }
{
    if place >= row.cell_count() {
        return None;
    }
    let here = row.name_at(place);
    let value = row.value_at(place);
    if stands_before(name, here, value) {
        Some((here, value))
    } else {
        None
    }
}

fn stands_before(name: &str, here: &str, value: Value<'_>) -> bool
    ensures { result ≡ (is_empty (value_text value.entry) || is_after name.now (here.now, [])) }
{
    value.is_empty() || name > here
}

/// Writes the member of a cell, if it has a value.
#[tactic(auto, using(crate::proofs::CellWalks::none_written, crate::proofs::CellWalks::one_written))]
fn write_cell(writer: &mut Writer, name: &str, value: Value<'_>) -> Result<(), AllocError>
    ensures before { writer.new.before ≡ writer.old.before }
    ensures ok { OnOk result (writer.new.tokens
        ≡ writer.old.tokens ++ members_tokens (fields_among ((name.now, value_text value.entry) ∷ []))) }
{
    if value.is_empty() {
        return Ok(());
    }
    write_value(writer, name, value)
}

/// Writes one member: the name, and the text of the value as a string.
fn write_value(writer: &mut Writer, name: &str, value: Value<'_>) -> Result<(), AllocError>
    ensures before { writer.new.before ≡ writer.old.before }
    ensures ok { OnOk result (writer.new.tokens
        ≡ writer.old.tokens ++ key name.now ∷ string (value_text value.entry) ∷ []) }
{
    match value {
        Value::Str(text) => write_member(writer, name, text),
        Value::Int(integer) => write_integer(writer, name, integer),
    }
}

fn write_integer(writer: &mut Writer, name: &str, integer: i64) -> Result<(), AllocError>
    ensures before { writer.new.before ≡ writer.old.before }
    ensures ok { OnOk result (writer.new.tokens
        ≡ writer.old.tokens ++ key name.now ∷ string (signed_decimal integer) ∷ []) }
{
    let mut digits = Buffer::new();
    write_member(writer, name, digits.format(integer))
}
