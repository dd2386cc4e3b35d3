//! Writing the batches of a desk to its store.
ghost use Rattle.std.specs.Prelude.{◌≡◌, ◌⊎◌, ◌+◌, ◌<◌, ◌≤◌, IfErr, None, OnOk, length};
ghost use Rattle.log_model.specs.History.{batches_in};
ghost use Rattle.vl_io.specs.Change.{Took, change_of};
ghost use Rattle.lone_desk.specs.Kept.{MayKeepAlone};
ghost use Rattle.vl_pipe.specs.Flushing.{flush_line, flush_size};
ghost use Rattle.vl_pipe.specs.Storing.{IsFlushed, StopsFlushing, StopsLine};

use crate::interrupt::Interrupt;
use crate::load_stop::LoadStop;
use log_desk::{KeepFault, Keeper};
use lone_desk::LoneDesk;
use std::alloc::Global;
use std::sync::Wait;
use vl_io::{Failed, Sink, put_all};
use vl_vault::Vault;

/// After so many batches all are written to the vault.
const FLUSH_SIZE: u64 = 16;

/// A desk of a store, beside its keeper.
#[derive(Drop)]
pub(crate) struct StoredDesk<'d, R, V: Vault> {
    pub(crate) alloc: Global,
    pub(crate) desk: LoneDesk<'d, R>,
    pub(crate) keeper: Keeper<V>,
    /// How many batches the desk has.
    pub(crate) count: u64,
}

/// Writes all batches to the vault, and then the line that says so, where as many are not settled as come together.
pub(crate) fn flush_if_due<R: Wait, V: Vault, O: Sink>(
    stored: &mut StoredDesk<'_, R, V>,
    out: &mut O,
) -> Result<(), LoadStop>
    requires keeps { MayKeepAlone stored.old.keeper stored.old.desk }
    requires on { stored.old.keeper.halted ≡ None }
    requires counted { stored.old.count ≡ length stored.old.desk.history }
    ensures kept { OnOk result (((stored.old.count < stored.old.keeper.front + flush_size)
        × (stored.new.keeper ≡ stored.old.keeper) × (stored.new.desk ≡ stored.old.desk) × (out.new ≡ out.old))
        ⊎ ((stored.old.keeper.front + flush_size ≤ stored.old.count)
        × IsFlushed V.is_told V.past V.faults stored.old.keeper stored.new.keeper stored.old.desk stored.new.desk
        (change_of O.written O.faults out.old out.new))) }
    ensures stopped { IfErr result (StopsFlushing V.is_told V.past V.faults stored.old.keeper stored.new.keeper
        (batches_in stored.old.desk.history) (change_of O.written O.faults out.old out.new)) }
    ensures count { stored.new.count ≡ stored.old.count }
{
    if stored.count - stored.keeper.front() < FLUSH_SIZE {
        return Ok(());
    }
    flush(stored, out)
}

/// Writes all batches to the vault, and then the line that says so, if any are not settled.
pub(crate) fn flush_rest<R: Wait, V: Vault, O: Sink>(
    stored: &mut StoredDesk<'_, R, V>,
    out: &mut O,
) -> Result<(), LoadStop>
    requires keeps { MayKeepAlone stored.old.keeper stored.old.desk }
    requires on { stored.old.keeper.halted ≡ None }
    requires counted { stored.old.count ≡ length stored.old.desk.history }
    ensures kept { OnOk result (((stored.old.count ≡ stored.old.keeper.front)
        × (stored.new.keeper ≡ stored.old.keeper) × (out.new ≡ out.old))
        ⊎ ((stored.old.keeper.front < stored.old.count)
        × IsFlushed V.is_told V.past V.faults stored.old.keeper stored.new.keeper stored.old.desk stored.new.desk
        (change_of O.written O.faults out.old out.new))) }
    ensures stopped { IfErr result (StopsFlushing V.is_told V.past V.faults stored.old.keeper stored.new.keeper
        (batches_in stored.old.desk.history) (change_of O.written O.faults out.old out.new)) }
{
    if stored.count == stored.keeper.front() {
        return Ok(());
    }
    flush(stored, out)
}

/// Writes all batches to the vault, and then the line that says so.
fn flush<R: Wait, V: Vault, O: Sink>(
    stored: &mut StoredDesk<'_, R, V>,
    out: &mut O,
) -> Result<(), LoadStop>
    requires keeps { MayKeepAlone stored.old.keeper stored.old.desk }
    requires on { stored.old.keeper.halted ≡ None }
    requires some { stored.old.keeper.front < length stored.old.desk.history }
    ensures flushed { OnOk result (IsFlushed V.is_told V.past V.faults stored.old.keeper stored.new.keeper
        stored.old.desk stored.new.desk (change_of O.written O.faults out.old out.new)) }
    ensures stopped { IfErr result (StopsFlushing V.is_told V.past V.faults stored.old.keeper stored.new.keeper
        (batches_in stored.old.desk.history) (change_of O.written O.faults out.old out.new)) }
    ensures count { stored.new.count ≡ stored.old.count }
{
    stored.keeper.finds_law();
    match stored.desk.round(&mut stored.keeper) {
        Ok(count) => write_line(stored.alloc, count, out),
        Err(KeepFault::Memory) => Err(LoadStop::Interrupted(Interrupt::NoMemory)),
        Err(KeepFault::Spent) => Err(LoadStop::Spent),
        Err(KeepFault::VaultFault) => Err(LoadStop::VaultFault),
        Err(KeepFault::Halted { .. }) => unreachable!(),
    }
}

/// Writes the line that says that this many batches are on the vault.
fn write_line<O: Sink>(alloc: Global, count: u64, out: &mut O) -> Result<(), LoadStop>
    ensures written { OnOk result (Took (change_of O.written O.faults out.old out.new) (flush_line count)) }
    ensures stopped { IfErr result (StopsLine count (change_of O.written O.faults out.old out.new)) }
    ensures stays { O.faults out.old ≤ O.faults out.new }
{
    let line = format!(in alloc; "flushed {count}\n")?;
    match put_all(out, line.as_bytes()) {
        Ok(()) => Ok(()),
        Err(Failed) => Err(LoadStop::Interrupted(Interrupt::Unwritable)),
    }
}
