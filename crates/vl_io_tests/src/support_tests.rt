//! Calls that the tests make on vaults.

use std::alloc::{AllocError, Global};
use vl_io::ReadFault;
use vl_vault::{MemoryVault, Vault};

/// Writes the piece at `at`, which is to be no further than the file's end.
pub fn put(vault: &mut MemoryVault, file: u64, at: u64, piece: &[u8]) -> Result<(), ReadFault> {
    if vault.length(file)? >= at {
        vault.write_at(file, at, piece)?;
    }
    Ok(())
}

/// Returns the first bytes of the file, of which there are to be at most 16.
pub fn bytes_of(alloc: Global, vault: &mut MemoryVault, file: u64) -> Result<Vec<u8>, ReadFault> {
    let mut bytes = vec![in alloc; 0u8; 16]?;
    let count = vault.read(file, 0, &mut bytes)?;
    bytes.truncate(count);
    Ok(bytes)
}

fn keep(images: &mut Vec<Vec<u8>>, bytes: Vec<u8>) -> Result<(), AllocError> {
    Ok(images.push(bytes)?)
}

/// Returns the different contents of the file in the images of the last moment, for the choices below this one.
pub fn images_of(
    alloc: Global,
    vault: &MemoryVault,
    file: u64,
    choices: u64,
) -> Result<Vec<Vec<u8>>, ReadFault> {
    let mut images: Vec<Vec<u8>> = Vec::new(alloc);
    for choice in 0..choices {
        let mut image = vault.image(vault.calls(), choice)?;
        let bytes = bytes_of(alloc, &mut image, file)?;
        if !images.contains(&bytes) {
            keep(&mut images, bytes)?;
        }
    }
    Ok(images)
}
