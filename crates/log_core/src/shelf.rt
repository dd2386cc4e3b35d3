ghost use Rattle.std.specs.Prelude.{◌≡◌, ◌+◌, ◌^◌, ◌<◌, ◌≤◌, length, None, Some, OnErr, OnOk, IfErr, IfOk, []};
ghost use Rattle.std.specs.Prelude.{MatchResult};
ghost use Rattle.std.specs.Arc.{arc_value};
ghost use Rattle.log_model.specs.Core.{AreFront, Goes, Stands, StandsAfterAll, count_of, held_limit, look, nothing};
ghost use Rattle.log_model.specs.Core.{swap, swapped, with_part};
ghost use Rattle.log_model.specs.History.{AreBatch, History, with_batch};
ghost use Rattle.log_core.specs.Commits.{GoesBy, HaveNumber, HoldsNext, StandsWith};
ghost use Rattle.log_core.specs.Faults.{IsPartRefused, IsRefused, IsSwapRefused, commit_fault};
ghost use Rattle.log_core.specs.Offers.{IsSameOffer, offered};
ghost use Rattle.log_core.specs.Settled.{AreWhole, StandsForParts, settled_only};
ghost use Rattle.log_core.specs.Shared.{shared_parts};

use crate::fault::{CommitFault, SwapFault};
use crate::offer::Offer;
use crate::snapshot::Snapshot;
use crate::state::{State, append};
use std::alloc::{AllocError, Global};
use std::marker::Model;
use std::sync::Arc;
use vl_row::Held;

/// How many batches may wait to be settled.
const HELD_LIMIT: usize = 4_096;

/// The last number of a batch.
const LAST_BATCH: u64 = i64::MAX as u64;

/// The state that all callers share: the accepted batches, the first of them as day parts, and each other one as a part
/// of its own.
///
/// It always stands for a history of these batches. [`stands_after_all`] says so of every list of commits, looks and
/// swaps.
#[derive(Drop)]
pub struct Shelf<P: Held> {
    state: Arc<State<P>>,
}

impl<P: Held> Model for Shelf<P> {
    ghost use Rattle.std.specs.Arc.{arc_value};
    ghost use Rattle.log_model.specs.Core.{Contents, Stands};
    ghost use Rattle.log_model.specs.History.{History};

    ghost Value = { Contents P };

    ghost view = { λ s. arc_value s.state };

    // There is a history for which it stands.
    ghost invariant = { λ s. (history : History) × Stands P.numbered (arc_value s.state) history };
}

impl<P: Held> Shelf<P> {
    /// No batch.
    pub fn fresh(alloc: Global) -> Result<Shelf<P>, AllocError>
        ensures nothing { IfOk result (λ shelf. shelf ≡ nothing) }
        ensures stands { IfOk result (λ shelf. Stands P.numbered shelf []) }
    {
        let state = Arc::new(alloc, State::of_days(alloc, Vec::new(alloc), 0)?)?;
        Ok(Shelf { state })
    }

    /// Returns the shelf of this many batches, all of which are held as these day parts.
    pub fn of_days(alloc: Global, days: Vec<Arc<P>>, front: u64) -> Result<Shelf<P>, AllocError>
        requires small { front < 2 ^ 63 }
        requires days { AreWhole P.numbered front (shared_parts days.items) }
        ensures held { IfOk result (λ shelf. shelf ≡ settled_only front (shared_parts days.items)) }
        ensures stands { IfOk result (StandsForParts P.numbered front (shared_parts days.items)) }
    {
        let state = Arc::new(alloc, State::of_days(alloc, days, front)?)?;
        Ok(Shelf { state })
    }

    /// Appends the batch that the part holds, under whatever number, as the next one, and returns its number. A refusal
    /// returns the part with the first fault that applies.
    pub fn commit(&mut self, alloc: Global, part: P) -> Result<u64, (CommitFault, Option<P>)>
        requires { AreBatch (P.numbered part) }
        ensures number { IfOk result (λ number. number ≡ count_of self.old + 1) }
        ensures held { OnOk result (HoldsNext P.numbered self.old part self.new) }

        // So the history gains exactly this batch, whoever made it.
        ensures goes { OnOk result (GoesBy P.numbered self.old part self.new) }
        ensures stands { OnOk result (StandsWith P.numbered self.old part self.new) }

        // A batch is refused exactly where something prevents it, or memory ran out.
        ensures accepted { OnOk result (commit_fault self.old ≡ None) }
        ensures refused { IfErr result (IsPartRefused P.numbered (commit_fault self.old) part) }
        ensures err { OnErr result (self.new ≡ self.old) }
    {
        let number = match self.next_number() {
            Ok(number) => number,
            Err(fault) => return Err((fault, Some(part))),
        };
        let mut part = part;
        part.set_batch(number);
        match self.append(alloc, Offer::Plain(part)) {
            Ok(()) => Ok(number),
            Err(Offer::Plain(part)) => Err((CommitFault::Memory, Some(part))),
            Err(Offer::Boxed(_)) => unreachable!(),
        }
    }

    /// Does what [`commit`](Shelf::commit) does, for a part whose shared box was made before. No one else may have the
    /// box: a part that someone shares is refused, as for memory.
    pub fn commit_shared(
        &mut self,
        alloc: Global,
        part: Arc<P>,
    ) -> Result<u64, (CommitFault, Arc<P>)>
        requires { AreBatch (P.numbered (arc_value part)) }
        ensures number { IfOk result (λ number. number ≡ count_of self.old + 1) }
        ensures held { OnOk result (HoldsNext P.numbered self.old (arc_value part) self.new) }
        ensures goes { OnOk result (GoesBy P.numbered self.old (arc_value part) self.new) }
        ensures stands { OnOk result (StandsWith P.numbered self.old (arc_value part) self.new) }
        ensures accepted { OnOk result (commit_fault self.old ≡ None) }
        ensures refused { IfErr result (λ refusal.
            IsRefused P.numbered (commit_fault self.old) (arc_value part) refusal.0 (arc_value refusal.1)) }
        ensures err { OnErr result (self.new ≡ self.old) }
    {
        let number = match self.next_number() {
            Ok(number) => number,
            Err(fault) => return Err((fault, part)),
        };
        match with_number(part, number) {
            Ok(part) => match self.append(alloc, Offer::Boxed(part)) {
                Ok(()) => Ok(number),
                Err(Offer::Boxed(part)) => Err((CommitFault::Memory, part)),
                Err(Offer::Plain(_)) => unreachable!(),
            },
            Err(part) => Err((CommitFault::Memory, part)),
        }
    }

    /// Returns what is held now. It copies one shared pointer.
    pub fn look(&self) -> Result<Snapshot<P>, AllocError>
        ensures held { IfOk result (λ snapshot. snapshot ≡ self.now) }
        ensures stays { Goes P.numbered self.now look self.now }
    {
        let state = Arc::try_clone(&self.state)?;
        Ok(Snapshot { state })
    }

    /// Has the first `front` batches as these day parts from now on. The later batches stay as they are.
    ///
    /// It lets go of the day parts and the parts in whose place the new ones come. Have a look at them, and keep that
    /// until the turn is over, so that they are not freed within it.
    pub fn swap(&mut self, alloc: Global, front: u64, days: Vec<Arc<P>>) -> Result<(), SwapFault>
        requires { AreFront P.numbered self.old front (shared_parts days.items) }
        ensures ok { OnOk result (self.new ≡ swapped self.old front (shared_parts days.items)) }
        // So it stands for the same history.
        ensures goes { OnOk result (Goes P.numbered self.old (swap front) self.new) }
        ensures up { OnOk result (self.old.settled ≤ front) }
        ensures behind { IfErr result (IsSwapRefused self.old.settled front) }
        ensures err { OnErr result (self.new ≡ self.old) }
    {
        let settled = self.state.settled();
        if settled > front {
            return Err(SwapFault::Behind { settled, front });
        }
        match swapped_state(alloc, &self.state, front, days) {
            Ok(state) => {
                self.state = state;
                Ok(())
            }
            Err(AllocError) => Err(SwapFault::Memory),
        }
    }

    /// Returns how many batches there are.
    pub fn count(&self) -> u64
        ensures value { result ≡ count_of self.now }
        ensures small { result < 2 ^ 63 }
        // It stands for some history.
        ensures stands { (history : History) × Stands P.numbered self.now history }
    {
        self.state.count()
    }

    /// Returns how many of them, from the first on, are held as day parts.
    pub fn settled(&self) -> u64
        ensures value { result ≡ self.now.settled }
    {
        self.state.settled()
    }

    /// Returns the number of the next batch, or what prevents it.
    fn next_number(&self) -> Result<u64, CommitFault>
        ensures value { MatchResult result
            (λ number. (number ≡ count_of self.now + 1) × (commit_fault self.now ≡ None))
            (λ fault. commit_fault self.now ≡ Some fault) }
        ensures room { OnOk result (length self.now.unsettled < held_limit) }
        ensures small { IfOk result (λ number. number < 2 ^ 63) }
    {
        if self.state.waiting() == HELD_LIMIT {
            return Err(CommitFault::Full {
                held: HELD_LIMIT as u64,
            });
        }
        let count = self.state.count();
        if count == LAST_BATCH {
            return Err(CommitFault::Spent);
        }
        Ok(count + 1)
    }

    /// Appends a part, which has the next number.
    fn append(&mut self, alloc: Global, part: Offer<P>) -> Result<(), Offer<P>>
        requires room { length self.old.unsettled < held_limit }
        requires small { count_of self.old + 1 < 2 ^ 63 }
        requires batch { HaveNumber (P.numbered (offered part)) (count_of self.old + 1) }
        ensures ok { OnOk result (self.new ≡ with_part self.old (offered part)) }
        ensures err { OnErr result (self.new ≡ self.old) }
        ensures returned { IfErr result (IsSameOffer part) }
    {
        append(alloc, &mut self.state, part)
    }
}

/// Gives the rows of the part this number, or returns it where someone else has its box.
fn with_number<P: Held>(part: Arc<P>, number: u64) -> Result<Arc<P>, Arc<P>>
    requires { AreBatch (P.numbered (arc_value part)) }
    ensures ok { IfOk result (λ p. P.numbered (arc_value p) ≡ with_batch number (P.numbered (arc_value part))) }
    ensures err { IfErr result (λ p. arc_value p ≡ arc_value part) }
{
    let mut part = part;
    match Arc::get_mut(&mut part) {
        Some(own) => own.set_batch(number),
        None => return Err(part),
    }
    Ok(part)
}

/// Returns what a swap leaves.
fn swapped_state<P: Drop>(
    alloc: Global,
    state: &State<P>,
    front: u64,
    days: Vec<Arc<P>>,
) -> Result<Arc<State<P>>, AllocError>
    requires up { state.now.settled ≤ front }
    requires within { front ≤ count_of state.now }
    ensures { IfOk result (λ new. arc_value new ≡ swapped state.now front (shared_parts days.items)) }
{
    let state = state.after_swap(alloc, front, days)?;
    Ok(Arc::new(alloc, state)?)
}

/// Over every list of steps, of any callers, the shelf stands for the history of the batches that were committed. The
/// steps are those of which `Shelf::commit`, `Shelf::look` and `Shelf::swap` say that they happen. This function does
/// nothing: its contract is the law.
pub fn stands_after_all<P: Held>()
    ensures { StandsAfterAll P.numbered }
{}
