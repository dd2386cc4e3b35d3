//! The rounds of a keeper, one after another.
ghost use Rattle.std.specs.Prelude.{◌≡◌};
ghost use Rattle.log_desk.specs.Keeping.{MayKeep};
ghost use Rattle.vl_serve.specs.Keeping.{HaveRounds, HoldsThat, kept_of, kept_then, no_rounds};

use crate::pace::is_due;
use log_desk::{Desk, KeepFault, Keeper, Pass};
use part_store::Store;
use std::alloc::Global;
use std::sync::Wait;
use std::sync::atomic::{AtomicU64, Ordering};
use vl_io::Clock;
use vl_row::Held;
use vl_vault::Vault;

/// What rounds came to.
#[derive(Clone, Copy, Debug, PartialEq, Eq)]
pub(crate) struct Kept {
    /// The first answer that is neither `Ok` nor `Memory`.
    pub(crate) fault: Option<KeepFault>,
    /// Whether memory ran out in one of them.
    pub(crate) memory: bool,
}

impl Kept {
    /// Returns what no round comes to.
    pub(crate) fn new() -> Kept
        ensures { result ≡ no_rounds }
    {
        Kept {
            fault: None,
            memory: false,
        }
    }

    /// Returns what a round with this answer comes to.
    fn of(answer: Result<u64, KeepFault>) -> Kept
        ensures { result ≡ kept_of answer }
    {
        match answer {
            Ok(_) => Kept::new(),
            Err(KeepFault::Memory) => Kept {
                fault: None,
                memory: true,
            },
            Err(fault) => Kept {
                fault: Some(fault),
                memory: false,
            },
        }
    }

    /// Returns what these rounds and then the next ones come to.
    pub(crate) fn then(self, next: Kept) -> Kept
        ensures { result ≡ kept_then self next }
    {
        Kept {
            fault: self.fault.or(next.fault),
            memory: self.memory || next.memory,
        }
    }
}

/// Runs one round.
pub(crate) fn keep_once<R: Wait, V: Vault>(
    rt: &R,
    alloc: Global,
    desk: &Desk,
    pass: &mut Pass,
    keeper: &mut Keeper<V>,
) -> Kept
    requires { MayKeep desk.now keeper.old pass.old }
    ensures keeps { MayKeep desk.now keeper.new pass.new }
    ensures rounds { HaveRounds V.is_told V.past V.faults keeper.old keeper.new pass.old pass.new result }
    ensures holds { HoldsThat keeper.new pass.old result }
{
    Kept::of(keeper.round(rt, alloc, desk, pass))
}

/// Runs rounds, each when it is due, of which the last begins when `ended` is not 0 any more. It asks the desk how many
/// batches wait, and pauses, in between.
pub(crate) fn keep_on<R: Wait, V: Vault, C: Clock>(
    rt: &R,
    alloc: Global,
    desk: &Desk,
    pass: &mut Pass,
    keeper: &mut Keeper<V>,
    clock: &mut C,
    ended: &AtomicU64,
) -> Kept
    requires { MayKeep desk.now keeper.old pass.old }
    ensures keeps { MayKeep desk.now keeper.new pass.new }
    ensures rounds { HaveRounds V.is_told V.past V.faults keeper.old keeper.new pass.old pass.new result }
    ensures holds { HoldsThat keeper.new pass.old result }
{
    keeper.finds_law();
    let mut kept = Kept::new();
    let (mut pauses, mut rewritten) = (0u64, 0u64);
    'rounds: for _ in rt.forever() {
        let is_last = ended.load(Ordering::SeqCst) != 0;
        let (count, settled) = desk.status(rt, pass);
        if is_due(count.saturating_sub(settled), pauses, rewritten, is_last) {
            let next_file = keeper.store().next_file();
            kept = kept.then(keep_once(rt, alloc, desk, pass, keeper));
            if is_last {
                return kept;
            }
            rewritten = weight_from(keeper.store(), next_file);
            pauses = 0;
        }
        clock.pause();
        pauses = pauses.saturating_add(1);
    }
    unreachable!()
}

/// Returns how many bytes the rows of those parts have that stand in this file or a later one.
fn weight_from<V: Vault>(store: &Store<V>, file: u64) -> u64 {
    let mut weight = 0u64;
    for stored in store.parts() {
        if file <= stored.file {
            weight = weight.saturating_add(stored.part.weight());
        }
    }
    weight
}
