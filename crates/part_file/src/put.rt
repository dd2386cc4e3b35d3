//! Writing the items of a part.

ghost use Rattle.std.specs.Prelude.{◌≡◌, ◌++◌, ◌<◌, ◌^◌, OnOk, length, true};
ghost use Rattle.std.specs.List.{flat_map, list_all};
ghost use Rattle.part_file.specs.Blocks.{blocks_bytes, sized_block_bytes};
ghost use Rattle.part_file.specs.Format.{head_bytes, is_sized};

use column_block::Block;
use std::alloc::AllocError;

/// What a part begins with.
pub(crate) const MAGIC: &[u8] = b"VLPART";

/// The version of the format.
pub(crate) const VERSION: u16 = 1;

/// Appends the magic and the version.
#[tactic(auto, unfolding(crate::specs::Format::head_bytes))]
pub(crate) fn put_head(out: &mut Vec<u8>) -> Result<(), AllocError>
    ensures { OnOk result (out.new.items ≡ out.old.items ++ head_bytes) }
{
    out.extend_from_slice(MAGIC)?;
    out.extend_from_slice(&VERSION.to_le_bytes())?;
    Ok(())
}

/// Appends the number of blocks, and the blocks.
#[tactic(auto, unfolding(crate::specs::Blocks::blocks_bytes))]
pub(crate) fn put_blocks(out: &mut Vec<u8>, blocks: &[Block]) -> Result<(), AllocError>
    ensures bytes { OnOk result (out.new.items ≡ out.old.items ++ blocks_bytes blocks.now) }
    ensures sized { OnOk result (list_all is_sized blocks.now ≡ true) }
    ensures few { OnOk result (length blocks.now < 2 ^ 32) }
{
    let count = blocks.len();
    if count >= 1 << 32 {
        return Err(AllocError);
    }
    out.extend_from_slice(&(count as u32).to_le_bytes())?;
    put_all(out, blocks)?;
    Ok(())
}

fn put_all(out: &mut Vec<u8>, blocks: &[Block]) -> Result<(), AllocError>
    ensures bytes { OnOk result (out.new.items ≡ out.old.items ++ flat_map sized_block_bytes blocks.now) }
    ensures sized { OnOk result (list_all is_sized blocks.now ≡ true) }
{
    let mut bytes = Vec::new(*out.allocator());
    for block in blocks {
        put_block(out, block, &mut bytes)?;
    }
    Ok(())
}

/// Appends the length of the block, and the block. It is written to the other bytes first.
#[tactic(auto, unfolding(crate::specs::Blocks::sized_block_bytes))]
fn put_block(out: &mut Vec<u8>, block: &Block, bytes: &mut Vec<u8>) -> Result<(), AllocError>
    ensures bytes { OnOk result (out.new.items ≡ out.old.items ++ sized_block_bytes block.now) }
    ensures sized { OnOk result (is_sized block.now ≡ true) }
{
    bytes.clear();
    block.put(bytes)?;
    let size = bytes.len();
    if size >= 1 << 32 {
        return Err(AllocError);
    }
    out.extend_from_slice(&(size as u32).to_le_bytes())?;
    out.extend_from_slice(bytes.as_slice())?;
    Ok(())
}
