//! How long the making and the reading of blocks takes.
ghost use Rattle.std.specs.Prelude.{◌<◌};
ghost use Rattle.block_format.specs.Rows.{IsBlock};

use block_model::NumberedRef;
use column_block::{Block, ColumnNames, is_block};
use ingest_row::{Options, batch_of_body};
use std::alloc::{AllocError, Global};
use std::cmp::Ordering;
use std::io;
use std::time::{Clock, Instant};
use vl_row::{Field, Row};

/// What was made of the rows, and how long it took, in nanoseconds.
#[derive(Clone, Copy)]
pub(crate) struct Tally {
    pub(crate) blocks: u64,
    pub(crate) rows: u64,
    pub(crate) bytes: u64,
    pub(crate) made: u64,
    pub(crate) read: u64,
}

impl Tally {
    fn new() -> Tally {
        Tally {
            blocks: 0,
            rows: 0,
            bytes: 0,
            made: 0,
            read: 0,
        }
    }

    /// One block of so many rows and bytes more.
    fn add(&mut self, rows: usize, bytes: usize) {
        self.blocks = self.blocks.saturating_add(1);
        self.rows = self.rows.saturating_add(rows as u64);
        self.bytes = self.bytes.saturating_add(bytes as u64);
    }

    /// The same, with the least times of both.
    fn least(self, other: Tally) -> Tally {
        Tally {
            made: self.made.min(other.made),
            read: self.read.min(other.read),
            ..self
        }
    }
}

/// The rows of these lines. Their stream has one label, if a field is named, and otherwise none.
pub(crate) fn read_rows(
    alloc: Global,
    stream_field: &str,
    body: &[u8],
) -> Result<Vec<Row>, AllocError> {
    let options = options_of(alloc, stream_field)?;
    let intake = batch_of_body(alloc, &options, 0, body)?;
    Ok(intake.rows.into_vec())
}

fn options_of(alloc: Global, stream_field: &str) -> Result<Options, AllocError> {
    if stream_field.is_empty() {
        return Ok(Options::plain(alloc));
    }
    let fields = [Field::try_of(alloc, "_stream_fields", stream_field)?];
    match Options::read(alloc, &fields) {
        Ok(options) => Ok(options),
        Err(_) => Err(AllocError),
    }
}

/// The rows, numbered from 0 in one batch.
pub(crate) fn numbered(alloc: Global, rows: &[Row]) -> Result<Vec<NumberedRef<'_>>, AllocError> {
    let mut all = Vec::with_capacity(alloc, rows.len())?;
    for row in rows {
        let place = u32::try_from(all.len()).unwrap_or(u32::MAX);
        all.push(NumberedRef {
            batch: 1,
            place,
            row,
        })?;
    }
    Ok(all)
}

/// The rows of each stream after one another, in the order in which they were.
fn by_stream<'a>(
    alloc: Global,
    rows: &[NumberedRef<'a>],
) -> Result<Vec<NumberedRef<'a>>, AllocError> {
    let mut all = Vec::with_capacity(alloc, rows.len())?;
    for numbered in rows {
        all.push(NumberedRef {
            batch: numbered.batch,
            place: numbered.place,
            row: numbered.row,
        })?;
    }
    all.sort_by(by_first_label)?;
    Ok(all)
}

fn by_first_label(a: &NumberedRef<'_>, b: &NumberedRef<'_>) -> Ordering {
    first_label(a).cmp(first_label(b))
}

fn first_label<'a>(numbered: &NumberedRef<'a>) -> &'a str {
    match numbered.row.stream().as_slice() {
        [label, ..] => label.value(),
        [] => "",
    }
}

fn are_of_one_stream(a: &NumberedRef<'_>, b: &NumberedRef<'_>) -> bool {
    a.row.stream().is_same(b.row.stream())
}

fn since<C: Clock>(clock: &C, start: Instant) -> io::Result<u64> {
    let spent = start.elapsed(clock)?.as_nanos();
    Ok(u64::try_from(spent).unwrap_or(u64::MAX))
}

fn make<C: Clock>(
    clock: &C,
    alloc: Global,
    rows: &[NumberedRef<'_>],
    tally: &mut Tally,
) -> io::Result<Block>
    requires { IsBlock rows.now }
{
    let start = Instant::now(clock)?;
    let mut names = ColumnNames::new(alloc);
    let block = Block::of_lent(alloc, rows, &mut names)?;
    tally.made = tally.made.saturating_add(since(clock, start)?);
    Ok(block)
}

/// Whether the bytes are those of a block.
fn read<C: Clock>(clock: &C, alloc: Global, bytes: &[u8], tally: &mut Tally) -> io::Result<bool> {
    let start = Instant::now(clock)?;
    let block = Block::from_bytes(alloc, bytes);
    tally.read = tally.read.saturating_add(since(clock, start)?);
    Ok(block.is_ok())
}

/// Puts a block of the rows to the others, if they make up one. What isn't read again isn't counted.
fn make_and_read<C: Clock>(
    clock: &C,
    alloc: Global,
    rows: &[NumberedRef<'_>],
    held: &mut Vec<Block>,
    tally: &mut Tally,
) -> io::Result<()> {
    if !is_block(alloc, rows)? {
        return Ok(());
    }
    let block = make(clock, alloc, rows, tally)?;
    let bytes = block.to_bytes(alloc)?;
    if read(clock, alloc, bytes.as_slice(), tally)? {
        tally.add(rows.len(), bytes.len());
    }
    held.push(block)?;
    Ok(())
}

fn round<C: Clock>(
    clock: &C,
    alloc: Global,
    rows: &[NumberedRef<'_>],
    size: usize,
) -> io::Result<Tally>
    requires { 0 < size }
{
    let mut tally = Tally::new();
    let mut held = Vec::new(alloc);
    for part in rows.chunks(size) {
        let sorted = by_stream(alloc, part)?;
        for group in sorted.chunk_by(are_of_one_stream) {
            make_and_read(clock, alloc, group, &mut held, &mut tally)?;
        }
    }
    Ok(tally)
}

/// The least times of so many rounds, of which each makes the same blocks.
pub(crate) fn best_of<C: Clock>(
    clock: &C,
    alloc: Global,
    rows: &[NumberedRef<'_>],
    size: usize,
    rounds: u64,
) -> io::Result<Tally>
    requires { 0 < size }
{
    let mut best = Tally::new();
    for i in 0..rounds {
        let tally = round(clock, alloc, rows, size)?;
        best = if i == 0 { tally } else { best.least(tally) };
    }
    Ok(best)
}
