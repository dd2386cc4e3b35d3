//! Reading the items of a part.

ghost use Rattle.std.specs.Prelude.{◌≡◌, IfNone, IfOk, IfSome, ℕ, map};
ghost use Rattle.std.specs.Int.{w16};
ghost use Rattle.std.specs.List.{All};
ghost use Rattle.byte_format.specs.Format.{front, many};
ghost use Rattle.byte_format.specs.Gives.{Gives};
ghost use Rattle.byte_format.specs.Items.{number_that};
ghost use Rattle.part_file.specs.Blocks.{counted_blocks, counted_blocks_steps, sized_block, sized_block_steps};
ghost use Rattle.part_file.specs.Format.{is_version, part_blocks, part_blocks_steps, these_bytes};
ghost use Rattle.part_file.specs.Version.{HasOtherVersion};
ghost use Rattle.part_file.specs.Read.{WasRead, rows_of_items};

use crate::block_rows::BlockRows;
use crate::put::{MAGIC, VERSION};
use byte_format::{Stop, take_inside, take_u16, take_u32};
use std::alloc::Global;

/// The least number of bytes of a block and its length.
const LEAST_BLOCK: usize = 10;

/// Reads the blocks of a part after its magic and its version.
pub(crate) fn take_blocks(alloc: Global, bytes: &[u8]) -> Result<(Vec<BlockRows>, &[u8]), Stop>
    ensures items { Gives (λ x. (map rows_of_items x.0.items, x.1.now)) result (front part_blocks bytes.now) }
    ensures read { IfOk result (λ x. All WasRead x.0.items) }
{
    take_steps(alloc, bytes)
}

#[tactic(auto, unfolding(crate::specs::Format::part_blocks_steps))]
fn take_steps(alloc: Global, bytes: &[u8]) -> Result<(Vec<BlockRows>, &[u8]), Stop>
    ensures items { Gives (λ x. (map rows_of_items x.0.items, x.1.now)) result (part_blocks_steps bytes.now) }
    ensures read { IfOk result (λ x. All WasRead x.0.items) }
{
    let rest = take_exactly(bytes, MAGIC)?;
    let rest = take_version(rest)?;
    let (blocks, rest) = take_counted(alloc, rest)?;
    Ok((blocks, rest))
}

/// Reads one item of these bytes.
fn take_exactly<'a>(bytes: &'a [u8], item: &[u8]) -> Result<&'a [u8], Stop>
    ensures { Gives (λ x. (item.now, x.now)) result (front (these_bytes item.now) bytes.now) }
{
    if bytes.len() < item.len() {
        return Err(Stop::Left(bytes.len()));
    }
    let (found, rest) = bytes.split_at(item.len());
    if found != item {
        return Err(Stop::Left(bytes.len()));
    }
    Ok(rest)
}

/// Reads the version.
fn take_version(bytes: &[u8]) -> Result<&[u8], Stop>
    ensures { Gives (λ x. (1, x.now)) result (front (number_that w16 is_version) bytes.now) }
{
    let (version, rest) = take_u16(bytes)?;
    if version != VERSION {
        return Err(Stop::Left(bytes.len()));
    }
    Ok(rest)
}

/// Reads the number of blocks, and the blocks.
#[tactic(auto, unfolding(crate::specs::Blocks::counted_blocks_steps))]
fn take_counted(alloc: Global, bytes: &[u8]) -> Result<(Vec<BlockRows>, &[u8]), Stop>
    ensures items { Gives (λ x. (map rows_of_items x.0.items, x.1.now)) result (counted_blocks_steps bytes.now) }
    ensures read { IfOk result (λ x. All WasRead x.0.items) }
{
    let (count, rest) = take_u32(bytes)?;
    let (blocks, rest) = take_many(alloc, count, rest)?;
    Ok((blocks, rest))
}

/// Reads this many blocks. Memory is taken only for those that the bytes hold.
fn take_many(alloc: Global, count: u32, bytes: &[u8]) -> Result<(Vec<BlockRows>, &[u8]), Stop>
    ensures items { Gives (λ x. (map rows_of_items x.0.items, x.1.now)) result
        (front (many count sized_block) bytes.now) }
    ensures read { IfOk result (λ x. All WasRead x.0.items) }
{
    let most = (count as usize).min(bytes.len() / LEAST_BLOCK);
    let mut blocks = Vec::with_capacity(alloc, most)?;
    let mut rest = bytes;
    for _ in 0..count {
        let (block, after) = take_block(alloc, rest)?;
        blocks.push(block)?;
        rest = after;
    }
    Ok((blocks, rest))
}

/// Reads one block, which follows its length.
fn take_block(alloc: Global, bytes: &[u8]) -> Result<(BlockRows, &[u8]), Stop>
    ensures items { Gives (λ x. (rows_of_items x.0, x.1.now)) result (front sized_block bytes.now) }
    ensures read { IfOk result (λ x. WasRead x.0) }
{
    take_sized(alloc, bytes)
}

#[tactic(auto, unfolding(crate::specs::Blocks::sized_block_steps))]
fn take_sized(alloc: Global, bytes: &[u8]) -> Result<(BlockRows, &[u8]), Stop>
    ensures items { Gives (λ x. (rows_of_items x.0, x.1.now)) result (sized_block_steps bytes.now) }
    ensures read { IfOk result (λ x. WasRead x.0) }
{
    let (size, rest) = take_u32(bytes)?;
    let (block, rest) = take_inside::<BlockRows>(alloc, (), size as usize, rest)?;
    Ok((block, rest))
}

/// The version of the format, if it is another one.
pub(crate) fn version_of(bytes: &[u8]) -> Option<u16>
    ensures some { IfSome result (HasOtherVersion bytes.now) }
    ensures none { IfNone result ((version : ℕ) → HasOtherVersion bytes.now version → ⊥) }
{
    if bytes.len() < MAGIC.len() + 2 {
        return None;
    }
    let (head, rest) = bytes.split_at(MAGIC.len());
    let (item, _) = rest.split_at(2);
    let version = u16::from_le_bytes([item[0], item[1]]);
    if head == MAGIC && version != VERSION {
        return Some(version);
    }
    None
}
