//! Vaults in memory, in which nothing is pending.
ghost use Rattle.std.specs.Prelude.{◌≡◌, ℕ, IfOk, OnOk};
ghost use Rattle.vl_vault.specs.Moments.{IsDurable};

use std::alloc::{AllocError, Global};
use vl_io::Failed;
use vl_vault::{MemoryVault, Vault};

/// How many files of a vault are copied.
const FILES: u64 = 40;

/// Why no vault was made.
#[derive(Clone, Copy, Debug, Drop, PartialEq, Eq)]
pub enum VaultFault {
    Memory,
    Failed,
}

impl From<AllocError> for VaultFault {
    fn from(_: AllocError) -> VaultFault {
        VaultFault::Memory
    }
}

impl From<Failed> for VaultFault {
    fn from(_: Failed) -> VaultFault {
        VaultFault::Failed
    }
}

/// Returns a vault of empty files. The calls of these numbers fail.
pub fn new_vault(alloc: Global, failing: &[u64]) -> Result<MemoryVault, AllocError>
    ensures durable { IfOk result (λ vault. (file : ℕ) → IsDurable vault.past file) }
    ensures calls { IfOk result (λ vault. vault.calls ≡ 0) }
{
    MemoryVault::of(alloc, failing)
}

/// Returns what a crash after this many calls may leave, by a choice.
pub fn image_of(vault: &MemoryVault, call: u64, choice: u64) -> Result<MemoryVault, VaultFault>
    ensures durable { IfOk result (λ image. (file : ℕ) → IsDurable image.past file) }
    ensures calls { IfOk result (λ image. image.calls ≡ 0) }
{
    if vault.calls() < call {
        return Err(VaultFault::Failed);
    }
    let image = vault.image(call, choice)?;
    Ok(image)
}

/// Returns the choice of this number: small ones first, and then some from all over the range.
pub fn spread_choice(number: u64) -> u64 {
    if number < 6 {
        return number;
    }
    number.wrapping_mul(11_400_714_819_323_198_485)
}

/// Returns what the file holds.
fn content(alloc: Global, vault: &mut MemoryVault, file: u64) -> Result<Vec<u8>, VaultFault> {
    let length = vault.length(file)?;
    let mut bytes = vec![in alloc; 0u8; length as usize]?;
    vault.read(file, 0, bytes.as_mut_slice())?;
    Ok(bytes)
}

/// Writes the bytes from the start of the file on, and makes them durable.
#[tactic(auto, using(crate::proofs::Putting::durable_put))]
fn put(vault: &mut MemoryVault, file: u64, bytes: &[u8]) -> Result<(), VaultFault>
    ensures durable { ((other : ℕ) → IsDurable vault.old.past other)
        → OnOk result ((other : ℕ) → IsDurable vault.new.past other) }
{
    vault.write_at(file, 0, bytes)?;
    vault.sync(file)?;
    Ok(())
}

/// Returns a vault of which a copy's first files are those of an image after all calls. Its calls of these numbers
/// fail, those of the copying included.
pub fn copied(
    alloc: Global,
    vault: &MemoryVault,
    failing: &[u64],
) -> Result<MemoryVault, VaultFault>
    ensures durable { IfOk result (λ copy. (file : ℕ) → IsDurable copy.past file) }
{
    let mut image = image_of(vault, vault.calls(), 0)?;
    let mut copy = new_vault(alloc, failing)?;
    for file in 0..FILES {
        let bytes = content(alloc, &mut image, file)?;
        put(&mut copy, file, &bytes)?;
    }
    Ok(copy)
}

/// Returns an image after all calls in which one byte of a file is another.
pub fn damaged(
    alloc: Global,
    vault: &MemoryVault,
    file: u64,
    at: usize,
) -> Result<MemoryVault, VaultFault>
    ensures durable { IfOk result (λ image. (file : ℕ) → IsDurable image.past file) }
{
    let mut image = image_of(vault, vault.calls(), 0)?;
    let mut bytes = content(alloc, &mut image, file)?;
    let Some(byte) = bytes.get_mut(at) else {
        return Err(VaultFault::Failed);
    };
    *byte ^= 1;
    put(&mut image, file, &bytes)?;
    image_of(&image, image.calls(), 0)
}
