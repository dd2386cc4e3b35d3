//! Writing and removing the file of a part.
ghost use Rattle.std.specs.Prelude.{◌≡◌, OnOk, ⊤};
ghost use Rattle.vl_io.specs.Faults.{HasCause};
ghost use Rattle.vl_vault.specs.Disk.{content};
ghost use Rattle.vl_vault.specs.Moments.{Always, ChangesFile, IsDurable};

use vl_io::Failed;
use vl_vault::Vault;

/// Writes the bytes into the file, in place of what it had, and makes them durable.
pub fn write_part<V: Vault>(vault: &mut V, file: u64, bytes: &[u8]) -> Result<(), Failed>
    ensures moments { V.is_told → Always
        (ChangesFile file (λ _. ⊤) (V.past vault.old)) (V.past vault.old) (V.past vault.new) }
    ensures written { V.is_told → OnOk result (content (V.past vault.new) file ≡ bytes.now) }
    ensures durable { V.is_told → OnOk result (IsDurable (V.past vault.new) file) }
    ensures cause { HasCause (V.faults vault.old) (V.faults vault.new) result }
{
    vault.cut(file, 0)?;
    vault.write_at(file, 0, bytes)?;
    vault.sync(file)
}

/// Removes the file. A crash may leave it as it was.
pub fn remove_part<V: Vault>(vault: &mut V, file: u64) -> Result<(), Failed>
    ensures moments { V.is_told → Always
        (ChangesFile file (λ _. ⊤) (V.past vault.old)) (V.past vault.old) (V.past vault.new) }
    ensures cause { HasCause (V.faults vault.old) (V.faults vault.new) result }
{
    vault.remove(file)
}
