//! A vault in memory, its calls that fail, and its images.

use crate::support_tests::{bytes_of, put};
use std::alloc::Global;
use vl_io::ReadFault;
use vl_vault::{MemoryVault, Vault};

/// Returns whether the file has these bytes.
fn has(
    alloc: Global,
    vault: &mut MemoryVault,
    file: u64,
    wanted: &[u8],
) -> Result<bool, ReadFault> {
    Ok(bytes_of(alloc, vault, file)?.as_slice() == wanted)
}

/// Returns whether files are empty until they are written, and after they are removed.
pub fn empty_files(alloc: Global) -> Result<bool, ReadFault> {
    let mut vault = MemoryVault::of(alloc, &[])?;
    let empty = vault.length(u64::MAX)? == 0 && has(alloc, &mut vault, 0, &[])?;
    put(&mut vault, 0, 0, &[1, 2, 3])?;
    put(&mut vault, 0, 2, &[4, 5])?;
    let written = has(alloc, &mut vault, 0, &[1, 2, 4, 5])?;
    vault.cut(0, 9)?;
    let whole = vault.length(0)? == 4;
    vault.cut(0, 1)?;
    let cut = has(alloc, &mut vault, 0, &[1])?;
    vault.remove(0)?;
    let removed = vault.length(0)? == 0;
    Ok(empty && written && whole && cut && removed && vault.faults() == 0)
}

/// Returns whether the chosen calls fail, and no others. A write that fails leaves a front of its range.
pub fn failing_calls(alloc: Global) -> Result<bool, ReadFault> {
    let mut vault = MemoryVault::of(alloc, &[0, 2, 3, 5, 7, 9])?;
    let mut buf = [0u8; 4];
    let lengths = vault.length(3).is_err() && vault.length(3).is_ok();
    let read = vault.read(3, 0, &mut buf).is_err();
    let written = vault.write_at(3, 0, &[7, 8]).is_err();
    let front = vault.length(3)? == 1;
    let cut = vault.cut(3, 0).is_err() && vault.cut(3, 0).is_ok();
    let synced = vault.sync(3).is_err() && vault.sync(3).is_ok();
    let removed = vault.remove(3).is_err() && vault.remove(3).is_ok();
    let counted = vault.faults() == 6 && vault.calls() == 11;
    Ok(lengths && read && written && front && cut && synced && removed && counted)
}

/// Returns the bytes of a file in an image after a write of 7 that failed, and the faults of the image.
pub fn image_text(alloc: Global, choice: u64) -> Result<String, ReadFault> {
    let mut vault = MemoryVault::of(alloc, &[0])?;
    if vault.write_at(3, 0, &[7]).is_ok() {
        return Ok(String::from_str(alloc, "written")?);
    }
    let mut image = vault.image(vault.calls(), choice)?;
    let bytes = bytes_of(alloc, &mut image, 3)?;
    Ok(format!(in alloc; "{:?} {}", bytes.as_slice(), image.faults())?)
}

/// Returns a vault whose call of this number fails, and is the next one. File 3 has the bytes 5 and 6.
fn before_fault(alloc: Global, number: u64) -> Result<MemoryVault, ReadFault> {
    let mut vault = MemoryVault::of(alloc, &[number])?;
    put(&mut vault, 3, 0, &[5, 6])?;
    for _ in 2..number {
        let _ = vault.length(3)?;
    }
    Ok(vault)
}

/// Returns the bytes that are read after the call of this number, a write of 7 and 8, failed.
pub fn left_text(alloc: Global, number: u64) -> Result<String, ReadFault> {
    let mut vault = before_fault(alloc, number)?;
    if vault.write_at(3, 0, &[7, 8]).is_ok() {
        return Ok(String::from_str(alloc, "written")?);
    }
    let bytes = bytes_of(alloc, &mut vault, 3)?;
    Ok(format!(in alloc; "{:?}", bytes.as_slice())?)
}

/// Returns the length after the call of this number, a cut to 1, failed. It is done if its number is odd.
pub fn cut_text(alloc: Global, number: u64) -> Result<String, ReadFault> {
    let mut vault = before_fault(alloc, number)?;
    if vault.cut(3, 1).is_ok() {
        return Ok(String::from_str(alloc, "cut")?);
    }
    let length = vault.length(3)?;
    Ok(format!(in alloc; "{length}")?)
}

/// Returns whether an image is a vault of its own.
pub fn own_image(alloc: Global) -> Result<bool, ReadFault> {
    let mut vault = MemoryVault::of(alloc, &[])?;
    put(&mut vault, 3, 0, &[7, 8])?;
    put(&mut vault, 5, 0, &[9])?;
    vault.sync(3)?;
    let mut image = vault.image(vault.calls(), 0)?;
    let fresh = image.calls() == 0;
    let kept = has(alloc, &mut image, 3, &[7, 8])? && image.length(5)? == 0;
    put(&mut image, 3, 2, &[9])?;
    let mut image = image.image(image.calls(), 0)?;
    Ok(fresh && kept && has(alloc, &mut image, 3, &[7, 8])?)
}
