//! A desk over a store in memory, and the rounds of the store's keeper.
ghost use Rattle.std.specs.Prelude.{◌≡◌, [], IfOk, None};
ghost use Rattle.lone_desk.specs.Kept.{MayKeepAlone};
ghost use Rattle.part_store.specs.Finds.{HoldsBatches};

use lone_desk::{Keeper, LoneDesk};
use part_store::Store;
use std::alloc::{AllocError, Global};
use std::sync::Wait;
use vl_vault::MemoryVault;

/// A round follows after this many batches.
const ROUND_BATCHES: u64 = 16;

/// Returns a desk of no batch over a new store in memory, and the keeper of the store.
pub(crate) fn open_desk<'d, R: Wait>(
    rt: &'d R,
    alloc: Global,
) -> Result<(LoneDesk<'d, R>, Keeper<MemoryVault>), AllocError>
    ensures nothing { IfOk result (λ opened. opened.0.history ≡ []) }
    ensures keeps { IfOk result (λ opened. MayKeepAlone opened.1 opened.0) }
{
    let store = new_store(alloc)?;
    match LoneDesk::of_store(rt, alloc, store) {
        Ok(opened) => Ok(opened),
        Err(_) => Err(AllocError),
    }
}

/// Returns a store of no batch. Its vault fails only where memory runs out.
fn new_store(alloc: Global) -> Result<Store<MemoryVault>, AllocError>
    ensures holds { IfOk result HoldsBatches }
    ensures on { IfOk result (λ store. store.halted ≡ None) }
    ensures nothing { IfOk result (λ store. store.front ≡ 0) }
{
    let vault = MemoryVault::of(alloc, &[])?;
    match Store::reopen(alloc, vault) {
        Ok(store) => Ok(store),
        Err(_) => Err(AllocError),
    }
}

/// Runs a round of the keeper if the batch with this number is the last of 16.
pub(crate) fn round_after<R: Wait>(
    desk: &mut LoneDesk<'_, R>,
    keeper: &mut Keeper<MemoryVault>,
    number: u64,
) -> Result<(), AllocError>
    requires { MayKeepAlone keeper.old desk.old }
    ensures keeps { MayKeepAlone keeper.new desk.new }
    ensures same { desk.new.history ≡ desk.old.history }
{
    if number % ROUND_BATCHES != 0 {
        return Ok(());
    }
    match desk.round(keeper) {
        Ok(_) => Ok(()),
        Err(_) => Err(AllocError),
    }
}
