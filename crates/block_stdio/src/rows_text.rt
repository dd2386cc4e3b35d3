//! The rows of blocks that are read, as text.
ghost use Rattle.std.specs.Prelude.{◌<◌, length};

use column_block::{Block, BlockFault, Open, Steps};
use std::alloc::{AllocError, Global};
use std::fmt::Write;
use stream_label::{label_text, push_quoted};
use vl_row::{Field, Text};

/// Tells the counter of this program from others.
#[derive(Drop)]
struct Reads;

/// What the blocks say that these bytes are, each after its length in four bytes: how many rows a block has, and each
/// of them in a line of its own, or the place at which the block is damaged.
pub(crate) fn blocks_text(alloc: Global, bytes: &[u8]) -> Result<String, AllocError> {
    let mut out = String::new(alloc);
    let mut rest = bytes;
    for _ in 0..bytes.len() {
        let Some((block, after)) = next_block(rest) else {
            break;
        };
        push_block(alloc, &mut out, block)?;
        rest = after;
    }
    Ok(out)
}

/// The block at the front, and the bytes after it. A length may say more bytes than there are.
fn next_block(bytes: &[u8]) -> Option<(&[u8], &[u8])> {
    let [a, b, c, d, rest @ ..] = bytes else {
        return None;
    };
    let length = u32::from_le_bytes([*a, *b, *c, *d]) as usize;
    Some(rest.split_at(length.min(rest.len())))
}

fn push_block(alloc: Global, out: &mut String, bytes: &[u8]) -> Result<(), AllocError> {
    match Block::from_bytes(alloc, bytes) {
        Ok(block) => push_rows(alloc, out, &block),
        Err(BlockFault::Damaged { at }) => push_fault(out, at),
        Err(BlockFault::Memory) => Err(AllocError),
    }
}

fn push_fault(out: &mut String, at: u64) -> Result<(), AllocError> {
    write!(out, "Damaged at {at}\n")
}

fn push_rows(alloc: Global, out: &mut String, block: &Block) -> Result<(), AllocError> {
    let mut steps: Steps<Reads> = Steps::new();
    let opened = block.open(&mut steps);
    let rows = block.head().rows();
    write!(out, "{rows} rows\n")?;
    for i in 0..rows {
        push_row(alloc, out, &opened, i)?;
    }
    Ok(())
}

/// The time, the batch, the place, the labels and the fields of a row.
fn push_row(alloc: Global, out: &mut String, opened: &Open<'_>, i: usize) -> Result<(), AllocError>
    requires { i < length opened.now }
{
    let numbered = opened.row(alloc, i)?;
    let row = &numbered.row;
    let mut labels = Text::new();
    label_text(alloc, row.stream(), &mut labels)?;
    write!(out, "{} {} {} ", row.time(), numbered.batch, numbered.place)?;
    out.push_str(labels.as_str())?;
    for field in row.fields().as_slice() {
        push_field(alloc, out, field)?;
    }
    out.push('\n')
}

fn push_field(alloc: Global, out: &mut String, field: &Field) -> Result<(), AllocError> {
    out.push(' ')?;
    push_quoted(alloc, field.name(), out)?;
    out.push(':')?;
    push_quoted(alloc, field.value(), out)
}
