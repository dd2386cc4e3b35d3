//! The record of a row: its fields, and the computed ones among them.
ghost use Rattle.std.specs.Prelude.{◌≡◌, IfOk};
ghost use Rattle.log_model.specs.Row.{record_of};

use crate::printed_stream::PrintedStream;
use lent_row::LentRow;
use std::alloc::{AllocError, Global};
use time_text::write_moment;
use vl_row::{FieldList, Text};

/// How many fields of a record are computed.
const COMPUTED: usize = 3;

/// Returns the row's fields, and `_time`, `_stream` and `_stream_id`.
pub fn rec_of<R: LentRow>(alloc: Global, row: &R) -> Result<FieldList, AllocError>
    ensures { IfOk result (λ fields. fields ≡ record_of (R.event row.now)) }
{
    let stream = PrintedStream::of(alloc, row.stream().try_copy(alloc)?)?;
    whole_record(alloc, row, &stream)
}

pub(crate) fn whole_record<R: LentRow>(
    alloc: Global,
    row: &R,
    stream: &PrintedStream,
) -> Result<FieldList, AllocError>
    requires { stream.now ≡ (R.event row.now).labels }
    ensures { IfOk result (λ fields. fields ≡ record_of (R.event row.now)) }
{
    let mut moment = Text::new();
    write_moment(alloc, row.time(), &mut moment)?;
    let mut record = row.copy_fields(alloc, COMPUTED)?;
    record.set(alloc, "_stream", stream.text())?;
    record.set(alloc, "_stream_id", stream.id())?;
    record.set(alloc, "_time", moment.as_str())?;
    Ok(record)
}
