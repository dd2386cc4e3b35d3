//! The record of a row: its fields, and the fields that are computed from it.
ghost use Rattle.std.specs.Prelude.{◌≡◌, [], ◌++◌, OnOk, OnErr, IfOk, string_bytes};
ghost use Rattle.log_model.specs.Moment.{moment_text};
ghost use Rattle.log_model.specs.Print.{line_text};
ghost use Rattle.log_model.specs.Row.{record_of};
ghost use Rattle.lq_pipes.specs.Tokens.{members_tokens, object_tokens};

use crate::cells::{write_cells, write_cells_through};
use crate::printed_stream::PrintedStream;
use json::Writer;
use lent_row::LentRow;
use std::alloc::{AllocError, Global};
use std::marker::Model;
use time_text::write_moment;
use vl_row::{Stream, Text};

/// Room for most lines.
pub(crate) const LINE_BYTES: usize = 1024;

/// Prints rows. It keeps the text and the id of the last row's stream, since the next row is mostly of the same one.
///
/// A contract sees it as the list of that stream's labels.
#[derive(Drop)]
pub struct Printer {
    stream: PrintedStream,
}

impl Model for Printer {
    ghost use Rattle.std.specs.Prelude.{List};
    ghost use Rattle.log_model.specs.Field.{Field as Pair};

    ghost Value = { List Pair };

    ghost view = { λ p. p.stream };
}

impl Printer {
    /// Returns a printer that has printed no row yet: it keeps the stream without labels.
    pub fn new(alloc: Global) -> Result<Printer, AllocError>
        ensures { IfOk result (λ printer. printer ≡ []) }
    {
        let stream = PrintedStream::of(alloc, Stream::new(alloc))?;
        Ok(Printer { stream })
    }

    /// Appends the row's record as one JSON object with its keys in byte order, and a line feed. If allocation fails,
    /// `out` is unchanged, and the printer may be used again.
    pub fn write_row<R: LentRow>(
        &mut self,
        alloc: Global,
        row: &R,
        out: &mut Text,
    ) -> Result<(), AllocError>
        ensures ok { OnOk result (out.new ≡ out.old ++ line_text (record_of (R.event row.now))) }
        ensures err { OnErr result (out.new ≡ out.old) }
        ensures kept { OnOk result (self.new ≡ (R.event row.now).labels) }
    {
        self.stream.turn_to(alloc, row.stream())?;
        let line = line(alloc, row, &self.stream)?;
        out.push_str(alloc, line.as_str())
    }
}

/// Returns the row's record as a line.
// It has a buffer of its own, since a writer zeroes room ahead in proportion to what its buffer holds.
fn line<R: LentRow>(alloc: Global, row: &R, stream: &PrintedStream) -> Result<String, AllocError>
    requires { stream.now ≡ (R.event row.now).labels }
    ensures { IfOk result (λ line. string_bytes line ≡ line_text (record_of (R.event row.now))) }
{
    let mut moment = Text::try_of(alloc, "")?;
    write_moment(alloc, row.time(), &mut moment)?;
    let mut writer = Writer::new(Vec::with_capacity(alloc, LINE_BYTES)?);
    write_object(&mut writer, row, stream, moment.as_str())?;
    let mut line = unsafe { String::from_utf8_unchecked(writer.into_inner()) };
    line.push('\n')?;
    Ok(line)
}

/// Writes the row's record as an object, with its stream and this text of its time.
fn write_object<R: LentRow>(
    writer: &mut Writer,
    row: &R,
    stream: &PrintedStream,
    moment: &str,
) -> Result<(), AllocError>
    requires stream { stream.now ≡ (R.event row.now).labels }
    requires time { moment.now ≡ moment_text (R.event row.now).moment }
    ensures before { writer.new.before ≡ writer.old.before }
    ensures ok { OnOk result (writer.new.tokens
        ≡ writer.old.tokens ++ object_tokens (record_of (R.event row.now))) }
{
    writer.begin_object()?;
    write_record(writer, row, stream, moment)?;
    writer.end_object()
}

/// Writes the members of the row's record: the computed fields go between the stored ones, none of which has their
/// names.
fn write_record<R: LentRow>(
    writer: &mut Writer,
    row: &R,
    stream: &PrintedStream,
    moment: &str,
) -> Result<(), AllocError>
    requires stream { stream.now ≡ (R.event row.now).labels }
    requires time { moment.now ≡ moment_text (R.event row.now).moment }
    ensures before { writer.new.before ≡ writer.old.before }
    ensures ok { OnOk result (writer.new.tokens
        ≡ writer.old.tokens ++ members_tokens (record_of (R.event row.now))) }
{
    row.rules();
    let next = write_cells_through(writer, row, 0, "_stream", stream.text())?;
    let next = write_cells_through(writer, row, next, "_stream_id", stream.id())?;
    let next = write_cells_through(writer, row, next, "_time", moment)?;
    write_cells(writer, row, next)
}
