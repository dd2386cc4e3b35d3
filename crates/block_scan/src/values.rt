//! What is asked of the values of a column.

ghost use Rattle.std.specs.Prelude.{◌≡◌, ◌&&◌, IfOk, OnOk, false, length, map, nat_lt, slice_index_or, true};
ghost use Rattle.std.specs.Fmt.{signed_decimal};
ghost use Rattle.std.specs.List.{list_all};
ghost use Rattle.block_column.specs.Lent.{AreCodes, values_lent};
ghost use Rattle.block_model.specs.Distinct.{text_at};
ghost use Rattle.lq_filter.specs.Value.{field_holds};
ghost use Rattle.block_scan.specs.Marks.{kept};

use crate::ends::{Ends, keep_ints};
use crate::marks::settle;
use col_codec::{IntColumn, TextColumn};
use column_block::ColumnValues;
use lq_filter::{Asking, FieldTest};
use std::alloc::AllocError;

/// Keeps the marks of the rows whose values are as asked.
pub(crate) fn keep_values<'p>(
    field: &'p FieldTest,
    asking: &mut Asking<'p>,
    values: ColumnValues<'_>,
    marks: &mut [bool],
) -> Result<(), AllocError>
    requires rows { length marks.old ≡ length (values_lent values) }
    requires codes { AreCodes values }
    ensures { OnOk result (marks.new ≡ kept (field_holds field.now) (values_lent values.entry) marks.old) }
{
    match values {
        ColumnValues::Constant(text, _) => keep_constant(field, asking, text, marks),
        ColumnValues::Integers(ints) => keep_integers(field, asking, ints, marks),
        ColumnValues::Dictionary(texts, codes) => keep_coded(field, asking, texts, codes, marks),
        ColumnValues::Plain(texts) => keep_texts(field, asking, texts, marks),
    }
}

/// Asks the text that all rows have.
fn keep_constant<'p>(
    field: &'p FieldTest,
    asking: &mut Asking<'p>,
    text: &str,
    marks: &mut [bool],
) -> Result<(), AllocError>
    ensures { OnOk result (marks.new ≡ map (λ mark. mark && field_holds field.now text.now) marks.old) }
{
    let stay = field.holds_text(asking, text)?;
    settle(marks, stay);
    Ok(())
}

/// Asks each integer. If a range of numbers is asked for, no text is made of them.
fn keep_integers<'p>(
    field: &'p FieldTest,
    asking: &mut Asking<'p>,
    ints: &IntColumn,
    marks: &mut [bool],
) -> Result<(), AllocError>
    requires { length marks.old ≡ length ints.now }
    ensures { OnOk result (marks.new ≡ kept (λ int. field_holds field.now (signed_decimal int)) ints.now marks.old) }
{
    match field.number_bounds() {
        Some((low, high)) => {
            keep_ints(ints, &Ends { low, high }, marks);
            Ok(())
        }
        None => keep_decimals(field, asking, ints, marks),
    }
}

/// Asks the decimal text of each integer.
fn keep_decimals<'p>(
    field: &'p FieldTest,
    asking: &mut Asking<'p>,
    ints: &IntColumn,
    marks: &mut [bool],
) -> Result<(), AllocError>
    requires { length marks.old ≡ length ints.now }
    ensures { OnOk result (marks.new ≡ kept (λ int. field_holds field.now (signed_decimal int)) ints.now marks.old) }
{
    for i in 0..marks.len() {
        if marks[i] {
            marks[i] = field.holds_integer(asking, ints.get(i))?;
        }
    }
    Ok(())
}

/// Asks each text once, and then looks up what each row's code stands for.
fn keep_coded<'p>(
    field: &'p FieldTest,
    asking: &mut Asking<'p>,
    texts: &TextColumn,
    codes: &[u8],
    marks: &mut [bool],
) -> Result<(), AllocError>
    requires rows { length marks.old ≡ length codes.now }
    requires codes { list_all (λ code. nat_lt code (length texts.now)) codes.now ≡ true }
    ensures { OnOk result (marks.new
        ≡ kept (λ code. field_holds field.now (text_at texts.now code)) codes.now marks.old) }
{
    let answers = answers_of(field, asking, texts)?;
    look_up(answers.as_slice(), codes, marks);
    Ok(())
}

/// Returns for each text whether it is as asked.
fn answers_of<'p>(
    field: &'p FieldTest,
    asking: &mut Asking<'p>,
    texts: &TextColumn,
) -> Result<Vec<bool>, AllocError>
    ensures { IfOk result (λ answers. answers.items ≡ map (field_holds field.now) texts.now) }
{
    let mut answers = Vec::with_capacity(asking.alloc(), texts.len())?;
    for i in 0..texts.len() {
        answers.push(field.holds_text(asking, texts.get(i))?)?;
    }
    Ok(answers)
}

/// Keeps the marks of the rows whose codes have the answer true.
fn look_up(answers: &[bool], codes: &[u8], marks: &mut [bool])
    requires rows { length marks.old ≡ length codes.now }
    requires codes { list_all (λ code. nat_lt code (length answers.now)) codes.now ≡ true }
    ensures { marks.new ≡ kept (λ code. slice_index_or answers.now code false) codes.now marks.old }
{
    for i in 0..marks.len() {
        marks[i] = marks[i] & answers[codes[i] as usize];
    }
}

/// Asks each text.
fn keep_texts<'p>(
    field: &'p FieldTest,
    asking: &mut Asking<'p>,
    texts: &TextColumn,
    marks: &mut [bool],
) -> Result<(), AllocError>
    requires { length marks.old ≡ length texts.now }
    ensures { OnOk result (marks.new ≡ kept (field_holds field.now) texts.now marks.old) }
{
    for i in 0..marks.len() {
        if marks[i] {
            marks[i] = field.holds_text(asking, texts.get(i))?;
        }
    }
    Ok(())
}
