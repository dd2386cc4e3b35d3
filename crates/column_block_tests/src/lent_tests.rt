//! What an opened block lends of its columns.

ghost use Rattle.std.specs.Prelude.{◌≡◌, length, nat_lt, true};
ghost use Rattle.std.specs.List.{list_all};
ghost use Rattle.block_column.specs.Lent.{AreCodes};
ghost use Rattle.block_model.specs.Columns.{names_of};

use col_codec::{IntColumn, TextColumn};
use column_block::{ColumnValues, Head, Open};
use std::fmt::Write;

/// Writes the stream, the times, of each column what it lends, and what is lent under a name that no row has.
pub(crate) fn push_lent(text: &mut String, opened: &Open<'_>, head: &Head)
    requires { length head.now.columns ≡ length (names_of opened.now) }
{
    for label in opened.stream().as_slice() {
        let _ = write!(text, "{}={} ", label.name(), label.value());
    }
    push_times(text, opened.times());
    push_columns(text, opened, head);
    push_named(text, opened, "nobody");
}

fn push_times(text: &mut String, times: &[i64]) {
    let _ = write!(text, "at");
    for time in times {
        let _ = write!(text, " {time}");
    }
}

fn push_columns(text: &mut String, opened: &Open<'_>, head: &Head)
    requires { length head.now.columns ≡ length (names_of opened.now) }
{
    for c in 0..head.columns() {
        push_named(text, opened, head.name(c));
        if let Some(ints) = opened.ints(c) {
            let _ = write!(text, ", {} integers", ints.len());
        }
    }
}

fn push_named(text: &mut String, opened: &Open<'_>, name: &str) {
    let _ = write!(text, "; {name}");
    push_values(text, &opened.values(name));
}

fn push_values(text: &mut String, values: &ColumnValues<'_>)
    requires { AreCodes values.now }
{
    match values {
        ColumnValues::Constant(value, rows) => {
            let _ = write!(text, " {rows} times [{value}]");
        }
        ColumnValues::Integers(ints) => push_ints(text, ints),
        ColumnValues::Dictionary(texts, codes) => push_coded(text, texts, codes),
        ColumnValues::Plain(texts) => push_lengths(text, texts),
    }
}

fn push_ints(text: &mut String, ints: &IntColumn) {
    for i in 0..ints.len() {
        let _ = write!(text, " {}", ints.get(i));
    }
}

fn push_coded(text: &mut String, texts: &TextColumn, codes: &[u8])
    requires { list_all (λ code. nat_lt code (length texts.now)) codes.now ≡ true }
{
    for code in codes {
        let _ = write!(text, " {code} [{}]", texts.get(*code as usize));
    }
}

fn push_lengths(text: &mut String, texts: &TextColumn) {
    for i in 0..texts.len() {
        let _ = write!(text, " {} bytes", texts.get(i).len());
    }
}
