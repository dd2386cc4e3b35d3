//! What a line answers.
use crate::limits_tests;
use ingest_row::{Options, row_of_line, row_of_syslog};
use std::alloc::{AllocError, Global};
use vl_row::{Field, Row, Text};

pub(crate) fn answer(alloc: Global, case: &str) -> Result<String, AllocError> {
    if case.starts_with('<') {
        return syslog_answer(alloc, case);
    }
    if let Some((arguments, line)) = case.split_once('\t') {
        return read(alloc, arguments, Some(line));
    }
    let (kind, rest) = case.split_once(' ').unwrap_or((case, ""));
    match kind {
        "long" => limits_tests::long_text(alloc, rest),
        "members" => limits_tests::members_text(alloc, rest),
        "lines" => limits_tests::lines_text(alloc, rest),
        "added" => limits_tests::added_text(alloc, rest),
        "check" => limits_tests::holds(alloc, rest)?.to_string(alloc),
        _ => read(alloc, case, None),
    }
}

fn read(alloc: Global, arguments: &str, line: Option<&str>) -> Result<String, AllocError> {
    match Options::read(alloc, &pairs(alloc, arguments)?) {
        Ok(options) => read_as_asked(alloc, &options, line),
        Err(fault) => format!(in alloc; "{fault}"),
    }
}

fn read_as_asked(
    alloc: Global,
    options: &Options,
    line: Option<&str>,
) -> Result<String, AllocError> {
    let Some(line) = line else {
        return options_text(alloc, options);
    };
    match row_of_line(alloc, options, 5, line.as_bytes()) {
        Ok(row) => row_text(alloc, &row),
        Err(kind) => format!(in alloc; "{kind}"),
    }
}

fn syslog_answer(alloc: Global, message: &str) -> Result<String, AllocError> {
    match row_of_syslog(alloc, 5, message.as_bytes()) {
        Ok(row) => row_text(alloc, &row),
        Err(kind) => format!(in alloc; "{kind:?}"),
    }
}

/// Returns the arguments, cut at each `&` and then at the first `=`.
fn pairs(alloc: Global, arguments: &str) -> Result<Vec<Field>, AllocError> {
    let mut pairs = Vec::new(alloc);
    for argument in arguments.split('&') {
        if let Some((name, value)) = argument.split_once('=') {
            let name = Text::try_of(alloc, name)?;
            let value = Text::try_of(alloc, value)?;
            pairs.push(Field { name, value })?;
        }
    }
    Ok(pairs)
}

/// Returns the labels, the moment's field, the message's fields, what is left out and what is added.
fn options_text(alloc: Global, options: &Options) -> Result<String, AllocError> {
    let mut text = String::new(alloc);
    push_names(&mut text, options.stream_fields())?;
    write!(text, "{}; ", options.time_field())?;
    push_names(&mut text, options.message_fields())?;
    push_names(&mut text, options.ignored_fields())?;
    push_fields(&mut text, options.extra_fields())?;
    Ok(text)
}

fn push_names(text: &mut String, names: &[Text]) -> Result<(), AllocError> {
    for name in names {
        write!(text, "[{}]", name.as_str())?;
    }
    text.push_str("; ")
}

fn push_fields(text: &mut String, fields: &[Field]) -> Result<(), AllocError> {
    for field in fields {
        write!(text, "[{}:{}]", field.name(), field.value())?;
    }
    Ok(())
}

/// Returns the moment, the labels and the fields.
pub(crate) fn row_text(alloc: Global, row: &Row) -> Result<String, AllocError> {
    let mut text = format!(in alloc; "{} ", row.time())?;
    push_fields(&mut text, row.stream().as_slice())?;
    text.push_str(" ")?;
    push_fields(&mut text, row.fields().as_slice())?;
    Ok(text)
}
