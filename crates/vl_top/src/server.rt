//! The server.
ghost use Rattle.std.specs.Prelude.{◌≡◌, ◌≤◌, List, length};
ghost use Rattle.vl_io.specs.Change.{change_of};
ghost use Rattle.log_model.specs.Row.{Batch};
ghost use Rattle.vl_vault.specs.Moments.{Always, EachImage};
ghost use Rattle.part_store.specs.Reopening.{AreListedDurable};
ghost use Rattle.vl_pipe.specs.VaultChange.{vault_change};
ghost use Rattle.vl_serve.specs.Doors.{door_changes};
ghost use Rattle.vl_serve.specs.Keeping.{FindsOnward};
ghost use Rattle.vl_top.specs.Server.{EndsServer};
ghost use Rattle.vl_top.specs.Vault.{HasBatches};

use crate::report::report_end;
use log_desk::Desk;
use std::alloc::{AllocError, AllocGlobal};
use std::random::RandomSource;
use std::sync::Wait;
use std::thread::Threads;
use vl_io::{Clock, Doors, Sink};
use vl_open::open_store;
use vl_serve::serve;
use vl_status::{Status, report_no_memory};
use vl_vault::Vault;

/// Serves the doors over the batches of a vault, which comes back, and says how that ended.
pub(crate) fn run_server<
    R: AllocGlobal + Threads + Wait + RandomSource + Sync,
    V: Vault + Send,
    E: Sink,
    D: Doors + Send + Drop,
    C: Clock + Send,
>(rt: &R, vault: V, err: &mut E, doors: &mut Vec<D>, clock: &mut C) -> (Status, V)
where
    D::S: Send,
    D::K: Send,
    D::C: Send,
    requires doors { length doors.old.items ≤ 64 }
    requires durable { V.is_told → AreListedDurable (V.past vault) }
    ensures ends { EndsServer V.is_told (change_of E.written E.faults err.old err.new)
        (vault_change V.past V.faults vault result.1)
        (door_changes D.left D.faults doors.old.items doors.new.items) result.0 }
    ensures outlives { V.is_told → (held : List Batch)
        → HasBatches (vault_change V.past V.faults vault result.1) held
        → Always (EachImage (FindsOnward held)) (V.past vault) (V.past result.1) }
    ensures doors { length doors.new.items ≡ length doors.old.items }
{
    let store = match open_store(rt.alloc(), vault, err) {
        Ok(store) => store,
        Err(refused) => return refused,
    };
    // One pass for each door, and the one that they are split from.
    let passes = doors.len() as u32 + 1;
    match Desk::of_store(rt, rt.alloc(), store, passes) {
        Ok((desk, mut pass, mut keeper)) => {
            let end = serve(rt, rt.alloc(), &desk, &mut pass, &mut keeper, doors, clock);
            (report_end(&end, err), keeper.into_store().into_vault())
        }
        Err((AllocError, store)) => (report_no_memory(err), store.into_vault()),
    }
}
