//! Opening the store of a vault.
ghost use Rattle.std.specs.Prelude.{◌≡◌, ◌≤◌, IfErr, IfOk, List, None};
ghost use Rattle.log_model.specs.Row.{Batch};
ghost use Rattle.vl_io.specs.Change.{change_of};
ghost use Rattle.vl_vault.specs.Moments.{Always, EachImage};
ghost use Rattle.part_store.specs.Finds.{Finds, HoldsBatches};
ghost use Rattle.part_store.specs.Reopening.{AreListedDurable};
ghost use Rattle.vl_open.specs.Opening.{HoldsFound, LeavesContent, TellsReopening, opened_vault};

use crate::report::report_fault;
use part_store::Store;
use std::alloc::Global;
use vl_io::Sink;
use vl_status::Status;
use vl_vault::Vault;

/// Reopens the store of a vault, or says on the error stream why not. Then the vault comes back, beside the status.
pub fn open_store<E: Sink, V: Vault>(
    alloc: Global,
    vault: V,
    err: &mut E,
) -> Result<Store<V>, (Status, V)>
    requires durable { V.is_told → AreListedDurable (V.past vault) }
    ensures opened { IfOk result (λ store. (store.halted ≡ None) × HoldsBatches store × (err.new ≡ err.old)) }
    ensures holds { V.is_told → IfOk result (λ store. HoldsFound (V.past vault) store) }
    ensures moments { V.is_told → LeavesContent (V.past vault) → (held : List Batch)
        → EachImage (Finds held) (V.past vault)
        → Always (EachImage (Finds held)) (V.past vault) (V.past (opened_vault result)) }
    ensures refused { IfErr result (λ refused. TellsReopening V.is_told (V.past vault) (V.faults vault)
        (V.faults refused.1) (change_of E.written E.faults err.old err.new) refused.0) }
    ensures stays { V.faults vault ≤ V.faults (opened_vault result) }
{
    match Store::reopen(alloc, vault) {
        Ok(store) => Ok(store),
        Err((fault, vault)) => {
            let status = report_fault(alloc, fault, err);
            Err((status, vault))
        }
    }
}
