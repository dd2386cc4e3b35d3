//! Reading a part block by block. Where the bytes spell a part, no rows are made but the first and the last one of a
//! block.

ghost use Rattle.std.specs.Prelude.{◌≡◌, ◌++◌, ◌<◌, ◌^◌, IfErr, IfOk, IfSome, List, Ok, Some, length, true};
ghost use Rattle.std.specs.Int.{w32, to_le_bytes};
ghost use Rattle.std.specs.List.{flat_map, list_all};
ghost use Rattle.byte_format.specs.Answers.{AnswersAs, IsPlaceOf};
ghost use Rattle.byte_format.specs.Spelling.{reading};
ghost use Rattle.log_model.specs.History.{Numbered as NumberedRow};
ghost use Rattle.part_file.specs.Blocks.{blocks_bytes, sized_block_bytes};
ghost use Rattle.part_file.specs.Format.{head_bytes, is_sized, part, part_writing};

use crate::followed::are_followed;
use crate::numbers::are_part_blocks;
use crate::part::Part;
use crate::put::{MAGIC, VERSION};
use crate::read::PartItems;
use byte_format::{Fault, read_exactly};
use column_block::{Block, BlockFault};
use std::alloc::{AllocError, Global};

/// The part whose spelling the bytes are. Only where they are none, the rows of all blocks are made, to say where they
/// are damaged.
pub(crate) fn read_part(alloc: Global, bytes: &[u8]) -> Result<Part, Fault>
    ensures found { IfOk result (λ rows. part_writing rows ≡ Some bytes.now) }
    ensures only { (rows : List NumberedRow) → part_writing rows ≡ Some bytes.now
        → AnswersAs (λ made. made) bytes.now result (Ok rows) }
    ensures damaged { IfErr result (λ fault. IsPlaceOf fault part part_writing bytes.now) }
    ensures exact { AnswersAs (λ made. made) bytes.now result (reading part part_writing bytes.now) }
{
    match part_by_blocks(alloc, bytes) {
        Ok(Some(part)) => Ok(part),
        Ok(None) => read_exactly::<PartItems>(alloc, (), bytes),
        Err(_) => Err(Fault::Memory),
    }
}

/// The part whose spelling the bytes are, if they are one.
fn part_by_blocks(alloc: Global, bytes: &[u8]) -> Result<Option<Part>, AllocError>
    ensures { IfOk result (λ found. IfSome found (λ rows. part_writing rows ≡ Some bytes.now)) }
{
    let Some(blocks) = blocks_in(alloc, bytes)? else {
        return Ok(None);
    };
    if !are_followed(alloc, blocks.as_slice())? {
        return Ok(None);
    }
    if !are_part_blocks(alloc, blocks.as_slice())? {
        return Ok(None);
    }
    let part = Part::of_blocks(blocks)?;
    Ok(Some(part))
}

/// The blocks of a part, if the bytes are its magic, its version and these blocks.
fn blocks_in(alloc: Global, bytes: &[u8]) -> Result<Option<Vec<Block>>, AllocError>
    ensures bytes { IfOk result (λ found. IfSome found (λ blocks.
        bytes.now ≡ head_bytes ++ blocks_bytes blocks.items)) }
    ensures sized { IfOk result (λ found. IfSome found (λ blocks. list_all is_sized blocks.items ≡ true)) }
    ensures few { IfOk result (λ found. IfSome found (λ blocks. length blocks.items < 2 ^ 32)) }
{
    let Some(rest) = after_head(bytes) else {
        return Ok(None);
    };
    let Some((count, rest)) = number_at(rest) else {
        return Ok(None);
    };
    let Some(blocks) = blocks_at(alloc, count, rest)? else {
        return Ok(None);
    };
    Ok(Some(blocks))
}

/// The bytes after the magic and the version.
#[tactic(auto, unfolding(crate::specs::Format::head_bytes))]
fn after_head(bytes: &[u8]) -> Option<&[u8]>
    ensures { IfSome result (λ rest. bytes.now ≡ head_bytes ++ rest.now) }
{
    let Some(rest) = after(bytes, MAGIC) else {
        return None;
    };
    let Some(rest) = after(rest, &VERSION.to_le_bytes()) else {
        return None;
    };
    Some(rest)
}

/// The bytes after this item, if it is the first one.
fn after<'a>(bytes: &'a [u8], item: &[u8]) -> Option<&'a [u8]>
    ensures { IfSome result (λ rest. bytes.now ≡ item.now ++ rest.now) }
{
    if bytes.len() < item.len() {
        return None;
    }
    let (found, rest) = bytes.split_at(item.len());
    if found != item {
        return None;
    }
    Some(rest)
}

/// The number at the front, and the bytes after it.
fn number_at(bytes: &[u8]) -> Option<(usize, &[u8])>
    ensures bytes { IfSome result (λ x. bytes.now ≡ to_le_bytes w32 x.0 ++ x.1.now) }
    ensures small { IfSome result (λ x. x.0 < 2 ^ 32) }
{
    if bytes.len() < 4 {
        return None;
    }
    let (item, rest) = bytes.split_at(4);
    let number = u32::from_le_bytes([item[0], item[1], item[2], item[3]]);
    Some((number as usize, rest))
}

/// This many blocks, if they are all of the bytes.
fn blocks_at(alloc: Global, count: usize, bytes: &[u8]) -> Result<Option<Vec<Block>>, AllocError>
    ensures bytes { IfOk result (λ found. IfSome found (λ blocks.
        bytes.now ≡ flat_map sized_block_bytes blocks.items)) }
    ensures sized { IfOk result (λ found. IfSome found (λ blocks. list_all is_sized blocks.items ≡ true)) }
    ensures count { IfOk result (λ found. IfSome found (λ blocks. length blocks.items ≡ count)) }
{
    let mut blocks = Vec::new(alloc);
    let mut rest = bytes;
    for _ in 0..count {
        let Some((block, after)) = block_at(alloc, rest)? else {
            return Ok(None);
        };
        blocks.push(block)?;
        rest = after;
    }
    if !rest.is_empty() {
        return Ok(None);
    }
    Ok(Some(blocks))
}

/// The block at the front, after its length, and the bytes after it.
fn block_at(alloc: Global, bytes: &[u8]) -> Result<Option<(Block, &[u8])>, AllocError>
    ensures bytes { IfOk result (λ found. IfSome found (λ x. bytes.now ≡ sized_block_bytes x.0 ++ x.1.now)) }
    ensures sized { IfOk result (λ found. IfSome found (λ x. is_sized x.0 ≡ true)) }
{
    let Some((size, rest)) = number_at(bytes) else {
        return Ok(None);
    };
    if rest.len() < size {
        return Ok(None);
    }
    let (window, rest) = rest.split_at(size);
    match Block::from_bytes(alloc, window) {
        Ok(block) => Ok(Some((block, rest))),
        Err(BlockFault::Damaged { .. }) => Ok(None),
        Err(BlockFault::Memory) => Err(AllocError),
    }
}
