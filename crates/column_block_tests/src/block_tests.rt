//! What blocks answer.
ghost use Rattle.std.specs.Prelude.{◌≡◌, ◌<◌, ◌==◌, IfOk, IfSome, IsTrue, length};
ghost use Rattle.std.specs.List.{list_all};
ghost use Rattle.log_model.specs.History.{AreOfOneBatch};
ghost use Rattle.block_model.specs.Columns.{names_of};

use crate::hex_tests::{bytes_of, push_digits};
use crate::lent_tests::push_lent;
use crate::plain_tests::plain_text;
use block_model::lend;
use column_block::{Block, BlockFault, ColumnNames, Head, Open, Steps, Value, is_block};
use lent_row::LentRow;
use std::alloc::{AllocError, Global};
use std::fmt::Write;
use vl_row::{FieldList, Numbered, Row, Text};

/// Tells this counter from others.
#[derive(Drop)]
struct Tests;

pub fn answer(alloc: Global, line: &str) -> Result<String, AllocError> {
    if let Some(digits) = line.strip_prefix("= ") {
        let bytes = bytes_of(alloc, digits)?;
        return read_text(alloc, bytes.as_slice());
    }
    if let Some(text) = line.strip_prefix("head ") {
        return match rows_of(alloc, text)? {
            Some(rows) => head_text(alloc, rows.as_slice()),
            None => format!(in alloc; "no row"),
        };
    }
    if let Some(text) = line.strip_prefix("lent ") {
        return match rows_of(alloc, text)? {
            Some(rows) => lent_text(alloc, rows.as_slice()),
            None => format!(in alloc; "no row"),
        };
    }
    if let Some(text) = line.strip_prefix("batch ") {
        let (number, text) = text.split_once(' ').unwrap_or((text, ""));
        return match rows_of(alloc, text)? {
            Some(rows) => batch_text(alloc, number.parse::<u64>().unwrap_or(0), rows.as_slice()),
            None => format!(in alloc; "no row"),
        };
    }
    if let Some(sizes) = line.strip_prefix("made ") {
        return made_text(alloc, sizes);
    }
    if let Some(sizes) = line.strip_prefix("wide ") {
        return wide_text(alloc, sizes);
    }
    match rows_of(alloc, line)? {
        Some(rows) => rows_text(alloc, rows.as_slice()),
        None => format!(in alloc; "no row"),
    }
}

fn rows_of(alloc: Global, line: &str) -> Result<Option<Vec<Numbered>>, AllocError> {
    let mut rows = Vec::new(alloc);
    for text in line.split(';') {
        match row_of(alloc, text)? {
            Some(row) => rows.push(row)?,
            None => return Ok(None),
        }
    }
    Ok(Some(rows))
}

fn row_of(alloc: Global, text: &str) -> Result<Option<Numbered>, AllocError> {
    let (key, rest) = text.split_once('|').unwrap_or((text, ""));
    let (labels, fields) = rest.split_once('|').unwrap_or((rest, ""));
    let (time, rest) = key.split_once(' ').unwrap_or((key, ""));
    let (batch, place) = rest.split_once(' ').unwrap_or((rest, ""));
    let names = names_of(alloc, labels)?;
    let fields = fields_of(alloc, fields)?;
    match Row::try_new(
        alloc,
        time.parse::<i64>().unwrap_or(0),
        names.as_slice(),
        fields,
    ) {
        Ok(row) => Ok(Some(Numbered {
            batch: batch.parse::<u64>().unwrap_or(0),
            place: place.parse::<u32>().unwrap_or(0),
            row,
        })),
        Err(_) => Ok(None),
    }
}

fn names_of(alloc: Global, text: &str) -> Result<Vec<Text>, AllocError> {
    let mut names = Vec::new(alloc);
    for name in text.split(',') {
        names.push(Text::try_of(alloc, name)?)?;
    }
    Ok(names)
}

fn fields_of(alloc: Global, text: &str) -> Result<FieldList, AllocError> {
    let mut fields = FieldList::new(alloc);
    for field in text.split(',') {
        let (name, value) = field.split_once('=').unwrap_or((field, ""));
        if !name.is_empty() {
            fields.set(alloc, name, value)?;
        }
    }
    Ok(fields)
}

/// The block of these rows, if they make up one.
fn block_of(alloc: Global, rows: &[Numbered]) -> Result<Option<Block>, AllocError>
    ensures { IfOk result (λ found. IfSome found (λ block. block ≡ rows.now)) }
{
    let lent = lend(alloc, rows)?;
    if !is_block(alloc, lent.as_slice())? {
        return Ok(None);
    }
    let mut names = ColumnNames::new(alloc);
    let block = Block::of_lent(alloc, lent.as_slice(), &mut names)?;
    Ok(Some(block))
}

/// What a block of these rows says, and its bytes. A plain block says the same.
fn rows_text(alloc: Global, rows: &[Numbered]) -> Result<String, AllocError> {
    let Some(block) = block_of(alloc, rows)? else {
        return format!(in alloc; "no block");
    };
    let mut text = block_text(alloc, &block.share()?)?;
    if text != plain_text(alloc, rows)? {
        text.push_str("unlike the plain block ")?;
    }
    let bytes = block.to_bytes(alloc)?;
    push_digits(&mut text, bytes.as_slice())?;
    Ok(text)
}

/// What the block of these bytes says, or where they are damaged.
fn read_text(alloc: Global, bytes: &[u8]) -> Result<String, AllocError> {
    match Block::from_bytes(alloc, bytes) {
        Ok(block) => block_text(alloc, &block),
        Err(BlockFault::Damaged { at }) => format!(in alloc; "damaged at {at}"),
        Err(BlockFault::Memory) => Err(AllocError),
    }
}

/// What a block of these rows says under another number of their batch, its bytes, and what it said before, which a
/// block says that shares its memory.
fn batch_text(alloc: Global, number: u64, rows: &[Numbered]) -> Result<String, AllocError> {
    let Some(mut block) = block_of(alloc, rows)? else {
        return format!(in alloc; "no block");
    };
    if !are_of_one_batch(rows) {
        return format!(in alloc; "several batches");
    }
    let before = block.share()?;
    block.set_batch(number);
    let mut text = block_text(alloc, &block)?;
    let bytes = block.to_bytes(alloc)?;
    push_digits(&mut text, bytes.as_slice())?;
    text.push(' ')?;
    text.push_str(block_text(alloc, &before)?.as_str())?;
    Ok(text)
}

fn are_of_one_batch(rows: &[Numbered]) -> bool
    ensures { IsTrue result → AreOfOneBatch rows.now }
{
    let batch = match rows {
        [first, ..] => first.batch,
        [] => 0,
    };
    are_of(rows, batch)
}

fn are_of(rows: &[Numbered], batch: u64) -> bool
    ensures { result ≡ list_all (λ numbered. numbered.batch == batch) rows.now }
{
    rows.iter().all(|numbered| numbered.batch == batch)
}

/// What the copy of the head of a block of these rows says.
fn head_text(alloc: Global, rows: &[Numbered]) -> Result<String, AllocError> {
    let Some(block) = block_of(alloc, rows)? else {
        return format!(in alloc; "no block");
    };
    let head = block.head().try_copy(alloc)?;
    let mut text = format!(in alloc;
        "{} {} {} {}",
        head.min(),
        head.max(),
        head.rows(),
        block.weight()
    )?;
    push_head(&mut text, &head);
    Ok(text)
}

/// What the opened block of these rows lends of its columns.
fn lent_text(alloc: Global, rows: &[Numbered]) -> Result<String, AllocError> {
    let Some(block) = block_of(alloc, rows)? else {
        return format!(in alloc; "no block");
    };
    block.rules();
    let mut steps: Steps<Tests> = Steps::new();
    let opened = block.open(&mut steps);
    let mut text = String::new(alloc);
    push_lent(&mut text, &opened, block.head());
    Ok(text)
}

/// What a block of so many rows answers whose values are distinct and have so many bytes.
fn made_text(alloc: Global, sizes: &str) -> Result<String, AllocError> {
    let (rows, len) = sizes.split_once(' ').unwrap_or((sizes, ""));
    let rows = made_rows(
        alloc,
        rows.parse::<u16>().unwrap_or(1),
        len.parse::<u16>().unwrap_or(1),
    )?;
    large_text(alloc, rows.as_slice())
}

/// What a block of so many rows answers whose fields have so many names.
fn wide_text(alloc: Global, sizes: &str) -> Result<String, AllocError> {
    let (rows, columns) = sizes.split_once(' ').unwrap_or((sizes, ""));
    let line = wide_line(
        alloc,
        rows.parse::<u16>().unwrap_or(1),
        columns.parse::<u16>().unwrap_or(1),
    )?;
    match rows_of(alloc, line.as_str())? {
        Some(rows) => large_text(alloc, rows.as_slice()),
        None => format!(in alloc; "no row"),
    }
}

/// Of a block its rows, the length of its bytes, whether they are read again, and where they are damaged without the
/// last one.
fn large_text(alloc: Global, rows: &[Numbered]) -> Result<String, AllocError> {
    let Some(block) = block_of(alloc, rows)? else {
        return format!(in alloc; "no block");
    };
    let bytes = block.to_bytes(alloc)?;
    let again = Block::from_bytes(alloc, bytes.as_slice()).is_ok();
    let cut = match bytes.as_slice() {
        [front @ .., _] => read_text(alloc, front)?,
        [] => String::new(alloc),
    };
    format!(in alloc; "{} {} {again} {cut}", rows.len(), bytes.len())
}

/// So many rows, over which the names of the columns are spread.
fn wide_line(alloc: Global, rows: u16, columns: u16) -> Result<String, AllocError> {
    let mut line = String::new(alloc);
    for i in 0..rows {
        if i > 0 {
            line.push(';')?;
        }
        let _ = write!(line, "{i} 1 {i}||");
        push_names(&mut line, i, rows, columns);
    }
    Ok(line)
}

fn push_names(line: &mut String, i: u16, rows: u16, columns: u16) {
    for c in 0..columns {
        if c.checked_rem(rows) == i.checked_rem(columns) {
            let _ = write!(line, "c{c}=x,");
        }
    }
}

fn made_rows(alloc: Global, rows: u16, len: u16) -> Result<Vec<Numbered>, AllocError> {
    let mut numbered = Vec::new(alloc);
    for i in 0..rows {
        let mut value = format!(in alloc; "{i}")?;
        for _ in value.len()..len as usize {
            value.push('x')?;
        }
        let mut fields = FieldList::new(alloc);
        fields.set(alloc, "c", value.as_str())?;
        if let Ok(row) = Row::try_new(alloc, i as i64, &[], fields) {
            numbered.push(Numbered {
                batch: 1,
                place: i as u32,
                row,
            })?;
        }
    }
    Ok(numbered)
}

fn block_text(alloc: Global, block: &Block) -> Result<String, AllocError> {
    let mut text = String::new(alloc);
    let mut steps: Steps<Tests> = Steps::new();
    let _ = block.open(&mut steps);
    let opened = block.open(&mut steps);
    let head = block.head();
    push_outline(&mut text, head, steps.count());
    push_head(&mut text, head);
    for i in 0..head.rows() {
        push_key(&mut text, &opened, i);
        push_values(&mut text, &opened, i, head.columns());
        push_row(alloc, &mut text, &opened, i)?;
    }
    text.push(' ')?;
    Ok(text)
}

fn push_outline(text: &mut String, head: &Head, steps: u64) {
    let _ = write!(
        text,
        "{steps} {} {} {} {}",
        head.min(),
        head.max(),
        head.rows(),
        head.columns()
    );
    for label in head.stream().as_slice() {
        let _ = write!(text, " {}={}", label.name(), label.value());
    }
}

fn push_head(text: &mut String, head: &Head) {
    for c in 0..head.columns() {
        let _ = write!(text, " {}:{}", head.name(c), head.bloom(c).as_slice().len());
    }
}

fn push_key(text: &mut String, opened: &Open<'_>, i: usize)
    requires { i < length opened.now }
{
    let (time, batch, place) = opened.key(i);
    let _ = write!(text, " / {time} {batch} {place}");
}

fn push_values(text: &mut String, opened: &Open<'_>, i: usize, columns: usize)
    requires row { i < length opened.now }
    requires columns { columns ≡ length (names_of opened.now) }
{
    for c in 0..columns {
        let _ = match opened.value(i, c) {
            Value::Str(value) => write!(text, " [{value}]"),
            Value::Int(value) => write!(text, " {value}"),
        };
    }
}

fn push_row(alloc: Global, text: &mut String, opened: &Open<'_>, i: usize) -> Result<(), AllocError>
    requires { i < length opened.now }
{
    let numbered = opened.row(alloc, i)?;
    for field in numbered.row.fields().as_slice() {
        let _ = write!(text, " {}={}", field.name(), field.value());
    }
    let lent = opened.lent(i);
    if !is_row(alloc, &lent, &numbered.row)? || !are_cells(alloc, &lent)? {
        text.push_str(" unlike the row that is lent")?;
    }
    Ok(())
}

/// Whether what is lent has the time and the fields of the row.
fn is_row<R: LentRow>(alloc: Global, lent: &R, row: &Row) -> Result<bool, AllocError> {
    let fields = row.fields();
    for field in fields.as_slice() {
        let text = text_of(alloc, lent.value(field.name()))?;
        if text.as_str() != field.value() {
            return Ok(false);
        }
    }
    let copy = lent.copy_fields(alloc, 1)?;
    Ok(lent.time() == row.time() && copy.len() == fields.len())
}

/// Whether each cell has the value that is found under its name.
fn are_cells<R: LentRow>(alloc: Global, lent: &R) -> Result<bool, AllocError> {
    for c in 0..lent.cell_count() {
        let text = text_of(alloc, lent.value_at(c))?;
        let named = text_of(alloc, lent.value(lent.name_at(c)))?;
        if text != named {
            return Ok(false);
        }
    }
    Ok(true)
}

fn text_of(alloc: Global, value: Value<'_>) -> Result<String, AllocError> {
    match value {
        Value::Str(text) => format!(in alloc; "{text}"),
        Value::Int(integer) => format!(in alloc; "{integer}"),
    }
}
