//! A plain block: the rows as they are. It finds a column by going over the fields of all rows, each time anew.
use std::alloc::{AllocError, Global};
use std::collections::BTreeSet;
use std::fmt::Write;
use vl_row::{Numbered, number};
use word_tokens::is_word;

/// What a block of these rows says that was opened twice.
pub(crate) fn plain_text(alloc: Global, rows: &[Numbered]) -> Result<String, AllocError> {
    let names = names_of(alloc, rows)?;
    let mut text = String::new(alloc);
    push_outline(&mut text, rows, names.len());
    for name in &names {
        let words = words_of(alloc, rows, name)?;
        let _ = write!(text, " {name}:{}", words.len().div_ceil(4));
    }
    for numbered in rows {
        push_row(&mut text, rows, &names, numbered);
    }
    text.push(' ')?;
    Ok(text)
}

fn names_of<'a>(alloc: Global, rows: &'a [Numbered]) -> Result<BTreeSet<&'a str>, AllocError> {
    let mut names = BTreeSet::new(alloc);
    for numbered in rows {
        for field in numbered.row.fields().as_slice() {
            names.insert(field.name())?;
        }
    }
    Ok(names)
}

fn value_of<'a>(numbered: &'a Numbered, name: &str) -> &'a str {
    for field in numbered.row.fields().as_slice() {
        if field.name() == name {
            return field.value();
        }
    }
    ""
}

/// The words of all values of a column, each once.
fn words_of<'a>(
    alloc: Global,
    rows: &'a [Numbered],
    name: &str,
) -> Result<BTreeSet<&'a str>, AllocError> {
    let mut words = BTreeSet::new(alloc);
    for numbered in rows {
        for word in value_of(numbered, name).split(|c: char| !is_word(c)) {
            if !word.is_empty() {
                words.insert(word)?;
            }
        }
    }
    Ok(words)
}

/// Whether the column lends integers: not all values are the same text, and each is the text of an integer.
fn has_integers(rows: &[Numbered], name: &str) -> bool {
    let first = match rows {
        [first, ..] => value_of(first, name),
        [] => "",
    };
    let constant = !first.is_empty() && rows.iter().all(|other| value_of(other, name) == first);
    !constant
        && rows
            .iter()
            .all(|other| number(value_of(other, name)).is_some())
}

fn push_outline(text: &mut String, rows: &[Numbered], columns: usize) {
    let min = rows
        .iter()
        .map(|numbered| numbered.row.time())
        .min()
        .unwrap_or(0);
    let max = rows
        .iter()
        .map(|numbered| numbered.row.time())
        .max()
        .unwrap_or(0);
    let _ = write!(text, "2 {min} {max} {} {columns}", rows.len());
    if let [first, ..] = rows {
        for label in first.row.stream().as_slice() {
            let _ = write!(text, " {}={}", label.name(), label.value());
        }
    }
}

fn push_row(text: &mut String, rows: &[Numbered], names: &BTreeSet<&str>, numbered: &Numbered) {
    let time = numbered.row.time();
    let _ = write!(text, " / {time} {} {}", numbered.batch, numbered.place);
    for name in names {
        let value = value_of(numbered, name);
        let _ = if has_integers(rows, name) {
            write!(text, " {value}")
        } else {
            write!(text, " [{value}]")
        };
    }
    for field in numbered.row.fields().as_slice() {
        let _ = write!(text, " {}={}", field.name(), field.value());
    }
}
