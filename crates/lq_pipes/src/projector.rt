//! Records of rows, of only the fields that matter.
ghost use Rattle.std.specs.Prelude.{◌≡◌, ◌<◌, IfOk, OnOk, bytes_eq, length};
ghost use Rattle.std.specs.Fmt.{signed_decimal};
ghost use Rattle.log_model.specs.Moment.{moment_text};
ghost use Rattle.log_model.specs.Field.{IsFieldList, field_value, set_field};
ghost use Rattle.log_model.specs.Row.{record_of};
ghost use Rattle.lent_row.specs.Cells.{value_text};
ghost use Rattle.lq_ast.specs.Records.{only_fields};
ghost use Rattle.lq_pipes.specs.Needs.{narrowed};
ghost use Rattle.lq_pipes.specs.Projector.{projected};

use crate::needed::Needs;
use crate::printed_stream::PrintedStream;
use crate::row_record::whole_record;
use itoa::Buffer;
use lent_row::{LentRow, Value};
use std::alloc::{AllocError, Global};
use time_text::write_moment;
use vl_row::{FieldList, Stream, Text};

/// Makes records of rows, of only the fields that matter. It keeps the text and the id of the last row's stream, since
/// the next row is mostly of the same one.
#[derive(Drop)]
pub(crate) struct Projector<'n> {
    needs: &'n Needs,
    stream: PrintedStream,
}

impl<'n> Projector<'n> {
    pub(crate) fn new(alloc: Global, needs: &'n Needs) -> Result<Projector<'n>, AllocError>
        ensures { IfOk result (λ projector. projected projector ≡ needs.entry.now) }
    {
        let stream = PrintedStream::of(alloc, Stream::new(alloc))?;
        Ok(Projector { needs, stream })
    }

    /// Returns the fields that matter of the row's record.
    pub(crate) fn record<R: LentRow>(
        &mut self,
        alloc: Global,
        row: &R,
    ) -> Result<FieldList, AllocError>
        ensures value { IfOk result (λ fields. fields ≡ narrowed (projected self.old) (record_of (R.event row.now))) }
        ensures same { projected self.new ≡ projected self.old }
    {
        record_law(row);
        match self.needs.names() {
            Some(names) => narrow_record(alloc, row, names, &mut self.stream),
            None => {
                self.stream.turn_to(alloc, row.stream())?;
                whole_record(alloc, row, &self.stream)
            }
        }
    }
}

/// That the record of a row keeps the rules of fields. It does nothing: its contract is the law.
pub(crate) fn record_law<R: LentRow>(row: &R)
    ensures { IsFieldList (record_of (R.event row.now)) }
{
    row.rules();
}

/// Returns the fields of these names of the row's record.
fn narrow_record<R: LentRow>(
    alloc: Global,
    row: &R,
    names: &[Text],
    stream: &mut PrintedStream,
) -> Result<FieldList, AllocError>
    requires { IsFieldList (record_of (R.event row.now)) }
    ensures { IfOk result (λ fields. fields ≡ only_fields names.now (record_of (R.event row.now))) }
{
    let mut fields = FieldList::with_room(alloc, names.len())?;
    for name in names {
        push_field(alloc, row, name.as_str(), stream, &mut fields)?;
    }
    Ok(fields)
}

/// Gives a record the field that the row's record has under this name.
fn push_field<R: LentRow>(
    alloc: Global,
    row: &R,
    name: &str,
    stream: &mut PrintedStream,
    fields: &mut FieldList,
) -> Result<(), AllocError>
    requires { IsFieldList (record_of (R.event row.now)) }
    ensures { OnOk result (fields.new
        ≡ set_field fields.old name.now (field_value (record_of (R.event row.now)) name.now)) }
{
    if is_same(name, "_time") {
        let moment = moment_of(alloc, row)?;
        return fields.set(alloc, name, moment.as_str());
    }
    if is_same(name, "_stream_id") {
        stream.turn_to(alloc, row.stream())?;
        return fields.set(alloc, name, stream.id());
    }
    if is_same(name, "_stream") {
        stream.turn_to(alloc, row.stream())?;
        return fields.set(alloc, name, stream.text());
    }
    set_value(alloc, name, row.value(name), fields)
}

fn is_same(name: &str, other: &str) -> bool
    ensures { result ≡ bytes_eq name.now other.now }
{
    name == other
}

/// Returns the text of the row's moment.
fn moment_of<R: LentRow>(alloc: Global, row: &R) -> Result<Text, AllocError>
    ensures { IfOk result (λ text. text ≡ moment_text (R.event row.now).moment) }
{
    let mut moment = Text::new();
    write_moment(alloc, row.time(), &mut moment)?;
    Ok(moment)
}

/// Gives a record the field of this name and value, or removes the one that is there if the value is empty.
#[tactic(auto, using(crate::proofs::CellWalks::set_none, crate::proofs::CellWalks::some_text))]
fn set_value(
    alloc: Global,
    name: &str,
    value: Value<'_>,
    fields: &mut FieldList,
) -> Result<(), AllocError>
    requires { 0 < length (value_text value) → 0 < length name.now }
    ensures { OnOk result (fields.new ≡ set_field fields.old name.now (value_text value.entry)) }
{
    if value.is_empty() {
        fields.remove(name);
        return Ok(());
    }
    match value {
        Value::Str(text) => fields.set(alloc, name, text),
        Value::Int(integer) => set_integer(alloc, name, integer, fields),
    }
}

fn set_integer(
    alloc: Global,
    name: &str,
    integer: i64,
    fields: &mut FieldList,
) -> Result<(), AllocError>
    requires { 0 < length name.now }
    ensures { OnOk result (fields.new ≡ set_field fields.old name.now (signed_decimal integer)) }
{
    let mut digits = Buffer::new();
    fields.set(alloc, name, digits.format(integer))
}
