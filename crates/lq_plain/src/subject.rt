//! What a filter is evaluated on.
ghost use Rattle.std.specs.Prelude.{◌≡◌, ◌-ℤ◌, ◌&&◌, pos, int_le, int_lt, false, IfOk};
ghost use Rattle.std.specs.Option.{option_map_or};
ghost use Rattle.log_model.specs.Row.{value_of};
ghost use Rattle.lq_ast.specs.Holds.{is_recent, is_within};
ghost use Rattle.lq_plain.specs.Subject.{subject_of};

use crate::value::is_within;
use std::alloc::{AllocError, Global};
use stream_label::{label_text, stream_id};
use time_text::plain::write_moment;
use vl_row::{FieldList, Row, Text};

/// A row, at the time `now`, in nanoseconds since 1970; or a record, which has no time and no stream.
#[derive(Clone, Copy)]
pub(crate) enum Subject<'s> {
    Row { now: i64, row: &'s Row },
    Record(&'s FieldList),
}

impl Subject<'_> {
    /// Returns the value of the field with this name.
    pub(crate) fn value(&self, alloc: Global, name: &Text) -> Result<Text, AllocError>
        ensures { IfOk result (λ value. value ≡ (subject_of self.now).value name.now) }
    {
        match self {
            Subject::Row { row, .. } => row_value(alloc, row, name.as_str()),
            Subject::Record(fields) => Text::try_of(alloc, fields.get(name.as_str())),
        }
    }

    /// Returns whether its timestamp lies within the last `span` nanoseconds and not in the future.
    pub(crate) fn is_recent(&self, span: i64) -> bool
        ensures { result ≡ option_map_or (is_recent (subject_of self.now).now span) (subject_of self.now).moment false }
    {
        match self {
            Subject::Row { now, row } => is_recent(*now, span, row),
            Subject::Record(_) => false,
        }
    }

    /// Returns whether its timestamp is from `from` to `to`, both included.
    pub(crate) fn is_during(&self, from: i128, to: i128) -> bool
        ensures { result ≡ option_map_or (is_within from to) (subject_of self.now).moment false }
    {
        match self {
            Subject::Row { row, .. } => is_during(from, to, row),
            Subject::Record(_) => false,
        }
    }
}

fn row_value(alloc: Global, row: &Row, name: &str) -> Result<Text, AllocError>
    ensures { IfOk result (λ value. value ≡ value_of row.now name.now) }
{
    let mut text = Text::new();
    match name {
        "_time" => write_moment(alloc, row.time(), &mut text)?,
        "_stream" => label_text(alloc, row.stream(), &mut text)?,
        "_stream_id" => stream_id(alloc, row.stream(), &mut text)?,
        _ => text.push_str(alloc, row.value(name))?,
    }
    Ok(text)
}

/// Returns whether the age of the row is less than `span` and not negative.
fn is_recent(now: i64, span: i64, row: &Row) -> bool
    ensures { result ≡ (int_lt (now -ℤ span) (pos row.now.moment) && int_le (pos row.now.moment) now) }
{
    let age = now as i128 - row.time() as i128;
    0 <= age && age < span as i128
}

fn is_during(from: i128, to: i128, row: &Row) -> bool
    ensures { result ≡ is_within from to (pos row.now.moment) }
{
    is_within(from, to, row.time() as i128)
}
