//! Writing a list.
ghost use Rattle.std.specs.Prelude.{◌≡◌, ◌%◌, ◌≤◌, Err, IfErr, IfOk, OnOk, Some, drop, true};
ghost use Rattle.vl_io.specs.Faults.{HasCause};
ghost use Rattle.vl_vault.specs.Disk.{content};
ghost use Rattle.vl_vault.specs.Moments.{Always, ChangesFile, ChangesFiles, IsDurable};
ghost use Rattle.parts_list.specs.Format.{body_of};
ghost use Rattle.parts_list.specs.Listing.{is_list};
ghost use Rattle.parts_list.specs.Slots.{IsClosedOrOld, IsShut, found_in};
ghost use Rattle.parts_list.specs.Writing.{AreSlotsDurable, ComesNext, HasOld, HasOldOr, IsCauseOf, IsSlotOf};

use crate::format::put_body;
use crate::gate::{close_gate, open_gate, write_body};
use crate::list::{List, ListFault};
use std::alloc::{AllocError, Global};
use vl_io::Failed;
use vl_vault::Vault;

/// Writes the list into its slot, and changes no other file. At every moment, a crash leaves the list from before or
/// this one.
///
/// Memory is taken before the vault is used.
pub fn write_list<V: Vault>(alloc: Global, vault: &mut V, list: &List) -> Result<(), ListFault>
    requires durable { V.is_told → AreSlotsDurable (V.past vault.old) }
    requires rules { is_list list.now ≡ true }
    requires next { V.is_told → ComesNext (found_in (content (V.past vault.old))) list.now }
    ensures moments { V.is_told → Always
        (ChangesFiles (IsSlotOf list.now) (HasOldOr (V.past vault.old) list.now) (V.past vault.old))
        (V.past vault.old) (V.past vault.new) }
    ensures written { V.is_told → OnOk result (found_in (content (V.past vault.new)) ≡ Some (Some list.now)) }
    ensures durable { V.is_told → OnOk result (AreSlotsDurable (V.past vault.new)) }
    ensures cause { IfErr result (λ fault. IsCauseOf fault (V.faults vault.old) (V.faults vault.new)) }
    ensures memory { result ≡ Err ListFault.Memory → vault.new ≡ vault.old }
    ensures stays { V.faults vault.old ≤ V.faults vault.new }
{
    let body = spell_list(alloc, list)?;
    write_spelled(vault, list, &body)?;
    Ok(())
}

/// Returns the bytes of the list for `write_spelled`: what stands after the gate of its slot.
pub fn spell_list(alloc: Global, list: &List) -> Result<Vec<u8>, AllocError>
    requires { is_list list.now ≡ true }
    ensures { IfOk result (λ body. body.items ≡ body_of list.now) }
{
    let mut body = Vec::new(alloc);
    put_body(&mut body, list)?;
    Ok(body)
}

/// Does what `write_list` does, for a list whose bytes `spell_list` returned. It takes no memory.
pub fn write_spelled<V: Vault>(vault: &mut V, list: &List, body: &[u8]) -> Result<(), Failed>
    requires durable { V.is_told → AreSlotsDurable (V.past vault.old) }
    requires rules { is_list list.now ≡ true }
    requires next { V.is_told → ComesNext (found_in (content (V.past vault.old))) list.now }
    requires spelled { body.now ≡ body_of list.now }
    ensures moments { V.is_told → Always
        (ChangesFiles (IsSlotOf list.now) (HasOldOr (V.past vault.old) list.now) (V.past vault.old))
        (V.past vault.old) (V.past vault.new) }
    ensures written { V.is_told → OnOk result (found_in (content (V.past vault.new)) ≡ Some (Some list.now)) }
    ensures durable { V.is_told → OnOk result (AreSlotsDurable (V.past vault.new)) }
    ensures cause { HasCause (V.faults vault.old) (V.faults vault.new) result }
{
    stage_list(vault, list, body)?;
    open_gate(vault, list.generation % 2)?;
    Ok(())
}

/// Closes the gate of the list's slot, and writes the body after it. At every moment, a crash leaves the list from
/// before.
fn stage_list<V: Vault>(vault: &mut V, list: &List, body: &[u8]) -> Result<(), Failed>
    requires durable { V.is_told → AreSlotsDurable (V.past vault.old) }
    requires rules { is_list list.now ≡ true }
    requires next { V.is_told → ComesNext (found_in (content (V.past vault.old))) list.now }
    ensures old { V.is_told → Always
        (ChangesFiles (IsSlotOf list.now) (HasOld (V.past vault.old)) (V.past vault.old))
        (V.past vault.old) (V.past vault.new) }
    ensures moments { V.is_told → let slot = list.now.generation % 2 in Always
        (ChangesFile slot (IsClosedOrOld (content (V.past vault.old) slot)) (V.past vault.old))
        (V.past vault.old) (V.past vault.new) }
    ensures shut { V.is_told → OnOk result (IsShut (content (V.past vault.new) (list.now.generation % 2))) }
    ensures written { V.is_told → OnOk result
        (drop 1 (content (V.past vault.new) (list.now.generation % 2)) ≡ body.now) }
    ensures durable { V.is_told → OnOk result (IsDurable (V.past vault.new) (list.now.generation % 2)) }
    ensures cause { HasCause (V.faults vault.old) (V.faults vault.new) result }
{
    let slot = list.generation % 2;
    close_gate(vault, slot)?;
    write_body(vault, slot, body)
}
