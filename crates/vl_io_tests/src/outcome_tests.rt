//! What a crash may leave of one pending call: each outcome that the disk model names, by a choice of its own, however
//! many calls came before.

use crate::support_tests::{images_of, put};
use std::alloc::Global;
use vl_io::ReadFault;
use vl_vault::{MemoryVault, Vault};

/// Returns a vault whose file 3 has the bytes 10 to 13, after this many pairs of a write and a sync of another file.
fn vault_after(alloc: Global, pairs: u64) -> Result<MemoryVault, ReadFault> {
    let mut vault = MemoryVault::of(alloc, &[])?;
    put(&mut vault, 3, 0, &[10, 11, 12, 13])?;
    vault.sync(3)?;
    for pair in 0..pairs {
        put(&mut vault, 4, 0, &[(pair % 256) as u8])?;
        vault.sync(4)?;
    }
    Ok(vault)
}

/// What a crash may leave of the file after a write of 7, 8 and 9 at 1.
const TORN: &[&[u8]] = &[
    &[10, 11, 12, 13],
    &[10, 7, 12, 13],
    &[10, 0, 12, 13],
    &[10, 1, 12, 13],
    &[10, 255, 12, 13],
    &[10, 7, 8, 13],
    &[10, 0, 0, 13],
    &[10, 1, 1, 13],
    &[10, 255, 255, 13],
    &[10, 7, 8, 9],
    &[10, 0, 0, 0],
    &[10, 1, 1, 1],
    &[10, 255, 255, 255],
];

/// Returns whether a pending write has these outcomes, and no other.
pub fn torn(alloc: Global, pairs: u64) -> Result<bool, ReadFault> {
    let mut vault = vault_after(alloc, pairs)?;
    put(&mut vault, 3, 1, &[7, 8, 9])?;
    let images = images_of(alloc, &vault, 3, 13)?;
    for &bytes in TORN {
        if !images.iter().any(|image| image.as_slice() == bytes) {
            return Ok(false);
        }
    }
    Ok(images.len() == TORN.len() && images_of(alloc, &vault, 3, 60)?.len() == 13)
}

/// Returns whether a pending write at the end has nine outcomes, of each length between.
pub fn growth(alloc: Global, pairs: u64) -> Result<bool, ReadFault> {
    let mut vault = vault_after(alloc, pairs)?;
    put(&mut vault, 3, 4, &[7, 8])?;
    let images = images_of(alloc, &vault, 3, 9)?;
    for (length, wanted) in [(4, 1), (5, 4), (6, 4), (7, 0)] {
        if images.iter().filter(|image| image.len() == length).count() != wanted {
            return Ok(false);
        }
    }
    Ok(images.len() == 9 && images_of(alloc, &vault, 3, 60)?.len() == 9)
}

/// Returns whether there are two images, with these bytes of the file.
fn are_two(images: &[Vec<u8>], first: &[u8], second: &[u8]) -> bool {
    images.len() == 2 && images[0].as_slice() == first && images[1].as_slice() == second
}

/// Returns whether a pending cut, and then a pending removal, happened or not.
pub fn removal(alloc: Global, pairs: u64) -> Result<bool, ReadFault> {
    let mut vault = vault_after(alloc, pairs)?;
    vault.cut(3, 2)?;
    let images = images_of(alloc, &vault, 3, 60)?;
    let cut = are_two(images.as_slice(), &[10, 11, 12, 13], &[10, 11]);
    vault.sync(3)?;
    vault.remove(3)?;
    let images = images_of(alloc, &vault, 3, 60)?;
    Ok(cut && are_two(images.as_slice(), &[10, 11], &[]))
}

/// Returns whether the newest pending call takes its choice first: a cut has two outcomes, and the write before it
/// five.
pub fn newest(alloc: Global, pairs: u64) -> Result<bool, ReadFault> {
    let mut vault = vault_after(alloc, pairs)?;
    put(&mut vault, 3, 4, &[7])?;
    vault.cut(3, 1)?;
    let two = images_of(alloc, &vault, 3, 2)?.len() == 2;
    let some = images_of(alloc, &vault, 3, 10)?.len() == 6;
    let all = images_of(alloc, &vault, 3, 60)?.len() == 6;
    vault.sync(3)?;
    Ok(two && some && all && images_of(alloc, &vault, 3, 60)?.len() == 1)
}
