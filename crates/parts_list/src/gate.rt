//! The steps of writing a list into a slot.
ghost use Rattle.std.specs.Prelude.{◌≡◌, ◌↔◌, ◌∷◌, IfOk, IsTrue, OnOk, drop};
ghost use Rattle.vl_io.specs.Faults.{HasCause};
ghost use Rattle.vl_vault.specs.Calls.{DidRead};
ghost use Rattle.vl_vault.specs.Disk.{content};
ghost use Rattle.vl_vault.specs.Moments.{Always, ChangesFile, IsDurable};
ghost use Rattle.parts_list.specs.Slots.{IsClosedOrNew, IsClosedOrOld, IsShut, is_open};

use vl_io::Failed;
use vl_vault::Vault;

/// Returns whether the slot is open.
pub(crate) fn has_open_gate<V: Vault>(vault: &mut V, slot: u64) -> Result<bool, Failed>
    ensures told { V.is_told → DidRead (V.past vault.old) (V.past vault.new) result }
    ensures open { V.is_told → IfOk result (λ is. is ≡ is_open (content (V.past vault.old) slot)) }
    ensures cause { HasCause (V.faults vault.old) (V.faults vault.new) result }
{
    let mut front = [0; 2];
    let count = vault.read(slot, 0, &mut front)?;
    Ok(count == 2 && front[0] == 1)
}

/// Returns whether a gate stands in the slot that is not open.
fn has_shut_gate<V: Vault>(vault: &mut V, slot: u64) -> Result<bool, Failed>
    ensures told { V.is_told → DidRead (V.past vault.old) (V.past vault.new) result }
    ensures shut { V.is_told → IfOk result (λ is. IsTrue is ↔ IsShut (content (V.past vault.old) slot)) }
    ensures cause { HasCause (V.faults vault.old) (V.faults vault.new) result }
{
    let mut gate = [0];
    if vault.read(slot, 0, &mut gate)? == 0 {
        return Ok(false);
    }
    Ok(gate[0] != 1)
}

/// Closes the slot's gate. At every moment the slot is closed or as it was.
///
/// A gate that is there and is not open stays as it is: a write over it that was not synced could open the slot before
/// a body that is not a list.
pub(crate) fn close_gate<V: Vault>(vault: &mut V, slot: u64) -> Result<(), Failed>
    requires { V.is_told → IsDurable (V.past vault.old) slot }
    ensures moments { V.is_told → Always
        (ChangesFile slot (IsClosedOrOld (content (V.past vault.old) slot)) (V.past vault.old))
        (V.past vault.old) (V.past vault.new) }
    ensures shut { V.is_told → OnOk result (IsShut (content (V.past vault.new) slot)) }
    ensures durable { V.is_told → OnOk result (IsDurable (V.past vault.new) slot) }
    ensures cause { HasCause (V.faults vault.old) (V.faults vault.new) result }
{
    if has_shut_gate(vault, slot)? {
        return Ok(());
    }
    vault.write_at(slot, 0, &[0])?;
    vault.sync(slot)
}

/// Writes a body after a gate that is not open. The gate stays so at every moment.
pub(crate) fn write_body<V: Vault>(vault: &mut V, slot: u64, body: &[u8]) -> Result<(), Failed>
    requires durable { V.is_told → IsDurable (V.past vault.old) slot }
    requires shut { V.is_told → IsShut (content (V.past vault.old) slot) }
    ensures moments { V.is_told → Always (ChangesFile slot IsShut (V.past vault.old))
        (V.past vault.old) (V.past vault.new) }
    ensures shut { V.is_told → OnOk result (IsShut (content (V.past vault.new) slot)) }
    ensures written { V.is_told → OnOk result (drop 1 (content (V.past vault.new) slot) ≡ body.now) }
    ensures durable { V.is_told → OnOk result (IsDurable (V.past vault.new) slot) }
    ensures cause { HasCause (V.faults vault.old) (V.faults vault.new) result }
{
    vault.cut(slot, 1)?;
    vault.write_at(slot, 1, body)?;
    vault.sync(slot)
}

/// Opens the gate before a body that is durable. At every moment the slot is closed or has its gate open before that
/// body.
pub(crate) fn open_gate<V: Vault>(vault: &mut V, slot: u64) -> Result<(), Failed>
    requires durable { V.is_told → IsDurable (V.past vault.old) slot }
    requires shut { V.is_told → IsShut (content (V.past vault.old) slot) }
    ensures moments { V.is_told → Always
        (ChangesFile slot (IsClosedOrNew (drop 1 (content (V.past vault.old) slot))) (V.past vault.old))
        (V.past vault.old) (V.past vault.new) }
    ensures written { V.is_told → OnOk result
        (content (V.past vault.new) slot ≡ 1 ∷ drop 1 (content (V.past vault.old) slot)) }
    ensures durable { V.is_told → OnOk result (IsDurable (V.past vault.new) slot) }
    ensures cause { HasCause (V.faults vault.old) (V.faults vault.new) result }
{
    vault.write_at(slot, 0, &[1])?;
    vault.sync(slot)
}
