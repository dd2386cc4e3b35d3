//! The desk of a store.
ghost use Rattle.std.specs.Prelude.{◌≡◌, ◌≤◌, IfErr, IfOk, List};
ghost use Rattle.log_model.specs.Row.{Batch};
ghost use Rattle.vl_io.specs.Change.{change_of};
ghost use Rattle.vl_vault.specs.Moments.{Always, EachImage};
ghost use Rattle.part_store.specs.Finds.{Finds};
ghost use Rattle.part_store.specs.Reopening.{AreListedDurable};
ghost use Rattle.vl_open.specs.Opening.{HoldsFound, LeavesContent, TellsReopening};
ghost use Rattle.vl_pipe.specs.Opened.{IsOpenDesk, vault_of};

use log_desk::Keeper;
use lone_desk::LoneDesk;
use std::alloc::{AllocError, AllocGlobal};
use std::sync::Wait;
use vl_io::Sink;
use vl_open::open_store;
use vl_status::{Status, report_no_memory};
use vl_vault::Vault;

/// Opens the store of a vault, and returns a desk of its batches beside its keeper, or reports why not. After a
/// refusal the vault comes back.
pub(crate) fn open_desk<'r, R: AllocGlobal + Wait, E: Sink, V: Vault>(
    rt: &'r R,
    vault: V,
    err: &mut E,
) -> Result<(LoneDesk<'r, R>, Keeper<V>), (Status, V)>
    requires durable { V.is_told → AreListedDurable (V.past vault) }
    ensures opened { IfOk result (λ opened. IsOpenDesk opened.1 opened.0 × (err.new ≡ err.old)) }
    ensures holds { V.is_told → IfOk result (λ opened. HoldsFound (V.past vault) opened.1) }
    ensures moments { V.is_told → LeavesContent (V.past vault) → (held : List Batch)
        → EachImage (Finds held) (V.past vault)
        → Always (EachImage (Finds held)) (V.past vault) (V.past (vault_of result)) }
    ensures refused { IfErr result (λ refused. TellsReopening V.is_told (V.past vault) (V.faults vault)
        (V.faults refused.1) (change_of E.written E.faults err.old err.new) refused.0) }
    ensures stays { V.faults vault ≤ V.faults (vault_of result) }
{
    let store = match open_store(rt.alloc(), vault, err) {
        Ok(store) => store,
        Err(refused) => return Err(refused),
    };
    match LoneDesk::of_store(rt, rt.alloc(), store) {
        Ok(opened) => Ok(opened),
        Err((AllocError, store)) => Err((report_no_memory(err), store.into_vault())),
    }
}
