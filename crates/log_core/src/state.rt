//! What the shelf holds, shared with the looks at it.
ghost use Rattle.std.specs.Prelude.{◌≡◌, ◌+◌, ◌-◌, ◌++◌, ◌^◌, ◌<◌, ◌≤◌, ◌∷◌, [], IfErr, IfOk, OnErr, OnOk, Some};
ghost use Rattle.std.specs.Prelude.{IfNone, IfSome};
ghost use Rattle.std.specs.Prelude.{drop, length, map, slice_get, vec_capacity, vec_len};
ghost use Rattle.std.specs.Arc.{arc_value};
ghost use Rattle.log_model.specs.Core.{swapped};
ghost use Rattle.log_model.specs.Core.{count_of, parts_of, with_part};
ghost use Rattle.log_core.specs.Offers.{IsSameOffer, offered};
ghost use Rattle.log_core.specs.Settled.{settled_only};
ghost use Rattle.log_core.specs.Shared.{AreChunks, AreFilled, HasRoom, joined, lists_in, parts_in, shared_parts};

use crate::offer::Offer;
use std::alloc::{AllocError, Global};
use std::marker::Model;
use std::sync::Arc;

/// How many parts a chunk may have. At most so many chunks hold what waits to be settled.
const CHUNK: usize = 64;

/// Parts that are shared with older states.
type Chunk<P> = Arc<Vec<Arc<P>>>;

/// What the last swap left: the day parts, and the unsettled parts that did not fill a chunk.
#[derive(Drop)]
struct Early<P> {
    days: Vec<Arc<P>>,
    others: Vec<Arc<P>>,
}

/// What the shelf holds at some time. States that follow one another share their chunks.
#[derive(Drop)]
pub(crate) struct State<P> {
    settled: u64,
    waiting: usize,
    early: Arc<Early<P>>,
    chunks: Vec<Chunk<P>>,
}

impl<P> Model for State<P> {
    ghost use Rattle.std.specs.Arc.{arc_value};
    ghost use Rattle.log_model.specs.Core.{Contents};
    ghost use Rattle.log_core.specs.Shared.{IsState, contents_of, lists_in, shared_parts};

    ghost Value = { Contents P };

    ghost view = { λ s. contents_of s.settled (shared_parts (arc_value s.early).days.items)
        (shared_parts (arc_value s.early).others.items) (lists_in s.chunks.items) };

    ghost invariant = { λ s. IsState s.settled s.waiting (shared_parts (arc_value s.early).others.items)
        (lists_in s.chunks.items) };
}

impl<P> State<P> {
    /// Returns how many batches there are.
    pub(crate) fn count(&self) -> u64
        ensures value { result ≡ count_of self.now }
        ensures small { result < 2 ^ 63 }
    {
        self.settled + self.waiting as u64
    }

    /// Returns how many of them, from the first on, are held as day parts.
    pub(crate) fn settled(&self) -> u64
        ensures { result ≡ self.now.settled }
    {
        self.settled
    }

    /// Returns how many of them wait to be settled.
    pub(crate) fn waiting(&self) -> usize
        ensures { result ≡ length self.now.unsettled }
    {
        self.waiting
    }

    /// Returns how many parts hold them.
    pub(crate) fn len(&self) -> usize
        ensures { result ≡ length (parts_of self.now) }
    {
        self.early.days.len() + self.waiting
    }

    /// Returns the part at this place, in constant time.
    pub(crate) fn part(&self, i: usize) -> &Arc<P>
        requires { i < length (parts_of self.now) }
        ensures { slice_get (parts_of self.now) i ≡ Some (arc_value result.now) }
    {
        let early: &Early<P> = &self.early;
        if i < early.days.len() {
            return &early.days[i];
        }
        let place = i - early.days.len();
        if place < early.others.len() {
            return &early.others[place];
        }
        part_in(self.chunks.as_slice(), place - early.others.len())
    }
}

/// Returns the part at this place of the chunks.
fn part_in<P>(chunks: &[Chunk<P>], place: usize) -> &Arc<P>
    requires chunked { AreChunks (lists_in chunks.now) }
    requires within { place < length (joined (lists_in chunks.now)) }
    ensures { slice_get (joined (lists_in chunks.now)) place ≡ Some (arc_value result.now) }
{
    let chunk = &chunks[place / CHUNK];
    &chunk[place % CHUNK]
}

impl<P: Drop> State<P> {
    /// Returns the state of this many batches, all of which are held as these day parts.
    pub(crate) fn of_days(
        alloc: Global,
        days: Vec<Arc<P>>,
        front: u64,
    ) -> Result<State<P>, AllocError>
        requires { front < 2 ^ 63 }
        ensures { IfOk result (λ state. state ≡ settled_only front (shared_parts days.items)) }
    {
        let early = Early {
            days,
            others: Vec::new(alloc),
        };
        Ok(State {
            settled: front,
            waiting: 0,
            early: Arc::new(alloc, early)?,
            chunks: Vec::with_capacity(alloc, CHUNK)?,
        })
    }

    /// Returns the same state, which shares all chunks. It copies one pointer a chunk, and one more.
    fn copied(&self, alloc: Global) -> Result<State<P>, AllocError>
        ensures { IfOk result (λ state. state ≡ self.now) }
    {
        let early = Arc::try_clone(&self.early)?;
        let chunks = copied(alloc, self.chunks.as_slice(), 0)?;
        Ok(State {
            settled: self.settled,
            waiting: self.waiting,
            early,
            chunks,
        })
    }

    /// Appends a part. Where memory runs out it comes back.
    fn push(&mut self, alloc: Global, part: Offer<P>) -> Result<(), Offer<P>>
        requires { count_of self.old + 1 < 2 ^ 63 }
        ensures ok { OnOk result (self.new ≡ with_part self.old (offered part)) }
        ensures err { OnErr result (self.new ≡ self.old) }
        ensures returned { IfErr result (IsSameOffer part) }
    {
        push_part(alloc, &mut self.chunks, part)?;
        self.waiting += 1;
        Ok(())
    }

    /// Returns the state after a swap. It copies the pointers of one chunk, and one a later chunk.
    pub(crate) fn after_swap(
        &self,
        alloc: Global,
        front: u64,
        days: Vec<Arc<P>>,
    ) -> Result<State<P>, AllocError>
        requires up { self.now.settled ≤ front }
        requires within { front ≤ count_of self.now }
        ensures { IfOk result (λ state. state ≡ swapped self.now front (shared_parts days.items)) }
    {
        let gone = (front - self.settled) as usize;
        let (others, chunks) = self.later(alloc, gone)?;
        Ok(State {
            settled: front,
            waiting: self.waiting - gone,
            early: Arc::new(alloc, Early { days, others })?,
            chunks,
        })
    }

    /// Returns the unsettled parts after the first `gone`: those that fill no chunk, and then chunks.
    fn later(&self, alloc: Global, gone: usize) -> Result<(Vec<Arc<P>>, Vec<Chunk<P>>), AllocError>
        requires { gone ≤ length self.now.unsettled }
        ensures parts { IfOk result (λ r. shared_parts r.0.items ++ joined (lists_in r.1.items)
            ≡ drop gone self.now.unsettled) }
        ensures chunked { IfOk result (λ r. AreChunks (lists_in r.1.items)) }
    {
        let early: &Early<P> = &self.early;
        if gone < early.others.len() {
            let others = copied(alloc, early.others.as_slice(), gone)?;
            let chunks = copied(alloc, self.chunks.as_slice(), 0)?;
            return Ok((others, chunks));
        }
        let (others, chunks) = later_in(alloc, self.chunks.as_slice(), gone - early.others.len())?;
        Ok((others, chunks))
    }
}

/// Returns the parts of the chunks after the first `gone`: those of the chunk that is cut, and then chunks.
fn later_in<P: Drop>(
    alloc: Global,
    chunks: &[Chunk<P>],
    gone: usize,
) -> Result<(Vec<Arc<P>>, Vec<Chunk<P>>), AllocError>
    requires chunked { AreChunks (lists_in chunks.now) }
    requires within { gone ≤ length (joined (lists_in chunks.now)) }
    ensures parts { IfOk result (λ r. shared_parts r.0.items ++ joined (lists_in r.1.items)
        ≡ drop gone (joined (lists_in chunks.now))) }
    ensures chunked { IfOk result (λ r. AreChunks (lists_in r.1.items)) }
{
    let cut = gone / CHUNK;
    if cut < chunks.len() {
        let chunk = &chunks[cut];
        let others = copied(alloc, chunk.as_slice(), gone % CHUNK)?;
        let later = copied(alloc, chunks, cut + 1)?;
        return Ok((others, later));
    }
    Ok((Vec::new(alloc), Vec::with_capacity(alloc, CHUNK)?))
}

/// Appends a part to a state, of which it makes a copy first where a look has it too. All memory is taken before what
/// is held grows, and where it runs out the part comes back.
pub(crate) fn append<P: Drop>(
    alloc: Global,
    state: &mut Arc<State<P>>,
    part: Offer<P>,
) -> Result<(), Offer<P>>
    requires { count_of (arc_value state.old) + 1 < 2 ^ 63 }
    ensures ok { OnOk result (arc_value state.new ≡ with_part (arc_value state.old) (offered part)) }
    ensures err { OnErr result (arc_value state.new ≡ arc_value state.old) }
    ensures returned { IfErr result (IsSameOffer part) }
{
    match own_state(alloc, state) {
        Ok(()) => {}
        Err(AllocError) => return Err(part),
    }
    // No look has it now.
    let Some(own) = Arc::get_mut(state) else {
        return Err(part);
    };
    own.push(alloc, part)
}

/// Copies a state that a look has too.
fn own_state<P: Drop>(alloc: Global, state: &mut Arc<State<P>>) -> Result<(), AllocError>
    ensures { arc_value state.new ≡ arc_value state.old }
{
    if Arc::strong_count(state) > 1 {
        let copy = state.copied(alloc)?;
        *state = Arc::new(alloc, copy)?;
    }
    Ok(())
}

/// Appends a part to the last chunk, or begins another with it where that is full.
fn push_part<P: Drop>(
    alloc: Global,
    chunks: &mut Vec<Chunk<P>>,
    part: Offer<P>,
) -> Result<(), Offer<P>>
    requires { AreChunks (lists_in chunks.old.items) }
    ensures ok { OnOk result (joined (lists_in chunks.new.items)
        ≡ joined (lists_in chunks.old.items) ++ offered part ∷ []) }
    ensures err { OnErr result (joined (lists_in chunks.new.items) ≡ joined (lists_in chunks.old.items)) }
    ensures chunked { AreChunks (lists_in chunks.new.items) }
    ensures returned { IfErr result (IsSameOffer part) }
{
    let last = match open_chunk(alloc, chunks) {
        Ok(last) => last,
        Err(AllocError) => return Err(part),
    };
    push_within(alloc, &mut chunks[last], part)
}

/// Returns the place of the last chunk once that has room, for which it may begin another.
fn open_chunk<P: Drop>(alloc: Global, chunks: &mut Vec<Chunk<P>>) -> Result<usize, AllocError>
    requires { AreChunks (lists_in chunks.old.items) }
    ensures parts { joined (lists_in chunks.new.items) ≡ joined (lists_in chunks.old.items) }
    ensures chunked { AreChunks (lists_in chunks.new.items) }
    ensures room { IfOk result (HasRoom (lists_in chunks.new.items)) }
{
    match place_with_room(chunks.as_slice()) {
        Some(last) => return Ok(last),
        None => {}
    }
    begin_chunk(alloc, chunks)?;
    Ok(chunks.len() - 1)
}

/// Returns the place of the last chunk, if that has room.
fn place_with_room<P>(chunks: &[Chunk<P>]) -> Option<usize>
    ensures some { IfSome result (HasRoom (lists_in chunks.now)) }
    ensures none { IfNone result (AreFilled (lists_in chunks.now)) }
{
    let count = chunks.len();
    if count == 0 {
        return None;
    }
    if chunks[count - 1].len() < CHUNK {
        Some(count - 1)
    } else {
        None
    }
}

/// Begins another chunk.
fn begin_chunk<P: Drop>(alloc: Global, chunks: &mut Vec<Chunk<P>>) -> Result<(), AllocError>
    ensures ok { OnOk result (lists_in chunks.new.items ≡ lists_in chunks.old.items ++ [] ∷ []) }
    ensures err { OnErr result (lists_in chunks.new.items ≡ lists_in chunks.old.items) }
{
    let chunk = Arc::new(alloc, Vec::with_capacity(alloc, CHUNK)?)?;
    chunks.push(chunk)?;
    Ok(())
}

/// Appends a part to a chunk, of which it makes a copy first where another state has it too.
fn push_within<P: Drop>(alloc: Global, chunk: &mut Chunk<P>, part: Offer<P>) -> Result<(), Offer<P>>
    ensures ok { OnOk result (parts_in chunk.new ≡ parts_in chunk.old ++ offered part ∷ []) }
    ensures err { OnErr result (parts_in chunk.new ≡ parts_in chunk.old) }
    ensures returned { IfErr result (IsSameOffer part) }
{
    match own_chunk(alloc, chunk) {
        Ok(()) => {}
        Err(AllocError) => return Err(part),
    }
    // No other state has it now.
    let Some(list) = Arc::get_mut(chunk) else {
        return Err(part);
    };
    match list.reserve(1) {
        Ok(()) => {}
        Err(AllocError) => return Err(part),
    }
    let part = part.boxed(alloc)?;
    push_boxed(list, part);
    Ok(())
}

/// Copies a chunk that another state has too.
fn own_chunk<P: Drop>(alloc: Global, chunk: &mut Chunk<P>) -> Result<(), AllocError>
    ensures { parts_in chunk.new ≡ parts_in chunk.old }
{
    if Arc::strong_count(chunk) > 1 {
        let list = copied(alloc, chunk.as_slice(), 0)?;
        *chunk = Arc::new(alloc, list)?;
    }
    Ok(())
}

/// Appends a part to a list, which has room for it.
fn push_boxed<P: Drop>(list: &mut Vec<Arc<P>>, part: Arc<P>)
    requires room { vec_len list.old < vec_capacity list.old }
    ensures { list.new.items ≡ list.old.items ++ part ∷ [] }
{
    match list.push(part) {
        Ok(()) => {}
        Err(_) => unreachable!(),
    }
}

/// Returns the same pointers from this place on, of which there are at most 64, with room for as many.
fn copied<T: Drop>(alloc: Global, items: &[Arc<T>], from: usize) -> Result<Vec<Arc<T>>, AllocError>
    requires { from ≤ length items.now }
    ensures { IfOk result (λ copies. map arc_value copies.items ≡ map arc_value (drop from items.now)) }
{
    let mut copies = Vec::with_capacity(alloc, CHUNK)?;
    let rest = &items[from..];
    for item in rest {
        copies.push(Arc::try_clone(item)?)?;
    }
    Ok(copies)
}
