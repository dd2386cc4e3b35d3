//! From a line to its row.
ghost use Rattle.std.specs.Prelude.{◌≡◌, ◌≢◌, ◌≤ℤ◌, ℤ, List, pos, IsTrue, IsFalse, IfOk, IfErr, IfSome, OnOk, None};
ghost use Rattle.std.specs.List.{list_all};
ghost use Rattle.log_model.specs.Field.{Field as Pair, IsFieldList, set_all};
ghost use Rattle.log_model.specs.Row.{Row as Event};
ghost use Rattle.vl_row.specs.Faults.{row_fault};
ghost use Rattle.jsonline_in.specs.Near.{AreKnown};
ghost use Rattle.ingest_row.specs.Ingest.{IsRowOf, IsRowOfLine, AsksShort, IsTimeOf, Says, completed, is_named, kept};
ghost use Rattle.ingest_row.specs.Ingest.{moved, row_at, says_now, with_message};
ghost use Rattle.ingest_row.specs.Refusal.{IsRefused, IsFieldsFault, IsKindOfFar, IsLineFault, IsRowFault};

use crate::complete::{complete, remove_ignored};
use crate::kind::LineKind;
use crate::options::Options;
use jsonline_in::{JsonFault, Said, said_fields_of};
use std::alloc::{AllocError, Global};
use time_text::{TimeFault, read_moment};
use vl_row::{Field, FieldList, Row, RowFault, Text};

/// The longest line that is read, in bytes.
const LINE_LIMIT: usize = 1_048_576;

/// How many fields are expected of a line.
pub(crate) const ROOM: usize = 16;

/// Returns the row of a line that came in at the moment `now`, in nanoseconds since 1970. The line is one object of
/// JSON.
///
/// Fields that are ignored are left out. The field of the moment is taken out; where it is missing, empty or `0`, the
/// moment is `now`. The message is moved to its name, and what is to be added is set.
pub fn row_of_line(alloc: Global, o: &Options, now: i64, line: &[u8]) -> Result<Row, LineKind>
    requires { pos 0 ≤ℤ now }
    ensures read { IfOk result (λ row. IsRowOfLine o.now now line.now row) }
    // A line has one row.
    ensures only { IfOk result (λ row. (other : Event) → IsRowOfLine o.now now line.now other → other ≡ row) }
    // What is refused has none, unless memory ran out.
    ensures none { IfErr result (λ kind. kind ≢ LineKind.Memory
        → (row : Event) → IsRowOfLine o.now now line.now row → ⊥) }
    ensures refused { IfErr result (λ kind. IsRefused kind o.now now line.now) }
{
    row_with_room(alloc, o, now, line, ROOM)
}

/// Returns the row of a line of which this many fields are expected.
pub(crate) fn row_with_room(
    alloc: Global,
    o: &Options,
    now: i64,
    line: &[u8],
    room: usize,
) -> Result<Row, LineKind>
    requires { pos 0 ≤ℤ now }
    ensures read { IfOk result (λ row. IsRowOfLine o.now now line.now row) }
    ensures only { IfOk result (λ row. (other : Event) → IsRowOfLine o.now now line.now other → other ≡ row) }
    ensures none { IfErr result (λ kind. kind ≢ LineKind.Memory
        → (row : Event) → IsRowOfLine o.now now line.now row → ⊥) }
    ensures refused { IfErr result (λ kind. IsRefused kind o.now now line.now) }
{
    let all = !o.are_short();
    let said = said_of_line(alloc, line, all, room)?;
    row_of_said(alloc, o, now, all, said)
}

/// Returns the row of a line of which this is known.
fn row_of_said(alloc: Global, o: &Options, now: i64, all: bool, said: Said) -> Result<Row, LineKind>
    requires since { pos 0 ≤ℤ now }
    requires short { IsFalse all → AsksShort o.now }
    ensures read { IfOk result (λ row. (whole : List Pair) → AreKnown all whole said.fields said.far
        → IsRowOf o.now now whole row) }
    ensures only { IfOk result (λ row. (whole : List Pair) → AreKnown all whole said.fields said.far
        → (other : Event) → IsRowOf o.now now whole other → other ≡ row) }
    ensures none { IfErr result (λ kind. kind ≢ LineKind.Memory → (whole : List Pair)
        → AreKnown all whole said.fields said.far → (row : Event) → IsRowOf o.now now whole row → ⊥) }
    ensures fault { IfErr result (λ kind. (whole : List Pair) → AreKnown all whole said.fields said.far
        → IsFieldsFault kind o.now now whole) }
{
    let Said { fields, far } = said;
    if far.is_some() {
        return Err(kind_of_far(o, now, fields));
    }
    row_of_fields(alloc, o, now, fields)
}

/// Returns why there is no row of fields of which one has a long name, where these are those of short names.
fn kind_of_far(o: &Options, now: i64, mut fields: FieldList) -> LineKind
    requires { pos 0 ≤ℤ now }
    ensures { IsKindOfFar o.now now fields result }
{
    remove_ignored(o, &mut fields);
    match time_of(fields.get(o.time_field()), now) {
        Some(_) => LineKind::NameLong,
        None => LineKind::BadTime,
    }
}

/// Returns the row of the fields that a line says.
fn row_of_fields(
    alloc: Global,
    o: &Options,
    now: i64,
    mut fields: FieldList,
) -> Result<Row, LineKind>
    requires { pos 0 ≤ℤ now }
    ensures read { IfOk result (λ row. IsRowOf o.now now fields row) }
    ensures only { IfOk result (λ row. (other : Event) → IsRowOf o.now now fields other → other ≡ row) }
    ensures none { IfErr result (λ kind. kind ≢ LineKind.Memory → (row : Event) → IsRowOf o.now now fields row → ⊥) }
    ensures fault { IfErr result (λ kind. IsFieldsFault kind o.now now fields) }
{
    remove_ignored(o, &mut fields);
    let Some(time) = time_of(fields.get(o.time_field()), now) else {
        return Err(LineKind::BadTime);
    };
    let all = complete(alloc, o, fields)?;
    row_at(alloc, o, time, all)
}

/// Returns the row of this moment and these fields.
fn row_at(alloc: Global, o: &Options, time: i64, fields: FieldList) -> Result<Row, LineKind>
    requires { pos 0 ≤ℤ time }
    ensures faultless { IfOk result (λ row. row_fault time fields ≡ None) }
    ensures row { IfOk result (λ row. row ≡ row_at o.now.stream_fields time fields) }
    ensures fault { IfErr result (λ kind. IsRowFault kind time fields) }
{
    match Row::try_listed(alloc, time, o.labels(), fields) {
        Ok(row) => Ok(row),
        Err((RowFault::TimeRange, _)) => unreachable!(),
        Err((RowFault::NameLong, _)) => Err(LineKind::NameLong),
        Err((RowFault::ManyFields, _)) => Err(LineKind::ManyFields),
        Err((RowFault::RowLarge, _)) => Err(LineKind::RowLarge),
        Err((RowFault::Empty, _)) => Err(LineKind::Empty),
        Err((RowFault::Memory, _)) => Err(LineKind::Memory),
    }
}

/// Returns the fields that a line says, of which this many are expected: all of them, or those of short names.
fn said_of_line(alloc: Global, line: &[u8], all: bool, room: usize) -> Result<Said, LineKind>
    ensures says { IfOk result (λ said. (whole : List Pair) × Says line.now whole
        × AreKnown all whole said.fields said.far) }
    ensures none { IfErr result (λ kind. kind ≢ LineKind.Memory → (other : List Pair) → Says line.now other → ⊥) }
    ensures fault { IfErr result (λ kind. IsLineFault kind line.now) }
{
    if line.len() > LINE_LIMIT {
        return Err(LineKind::LineLong);
    }
    match said_fields_of(alloc, line, all, room) {
        Ok(said) => Ok(said),
        Err(JsonFault::NotUtf8 { .. }) => Err(LineKind::NotUtf8),
        Err(JsonFault::NotObject) => Err(LineKind::NotObject),
        Err(JsonFault::TooDeep) => Err(LineKind::TooDeep),
        Err(JsonFault::NotJson { .. }) => Err(LineKind::NotJson),
        Err(JsonFault::Memory) => Err(LineKind::Memory),
    }
}

/// Returns the moment that a text says, where a text that says none stands for `now`.
fn time_of(text: &str, now: i64) -> Option<i64>
    requires { pos 0 ≤ℤ now }
    ensures some { IfSome result (λ time. IsTimeOf now text.now time × (pos 0 ≤ℤ time)) }
    ensures only { IfSome result (λ time. (other : ℤ) → IsTimeOf now text.now other → other ≡ time) }
    ensures none { result ≡ None → (time : ℤ) → IsTimeOf now text.now time → ⊥ }
{
    if says_now(text) {
        return Some(now);
    }
    match read_moment(text) {
        Ok(moment) => Some(moment),
        Err(TimeFault::NotATime) => None,
        Err(TimeFault::OutOfRange) => None,
    }
}

/// Returns whether a text says no moment of its own.
fn says_now(text: &str) -> bool
    ensures { result ≡ says_now text.now }
{
    text.is_empty() || text == "0"
}
