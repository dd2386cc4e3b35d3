//! Groups of records.
ghost use Rattle.std.specs.Prelude.{◌≡◌, [], map, IfOk, OnOk};
ghost use Rattle.lq_stats.specs.Key.{grouped_by};
ghost use Rattle.lq_stats.specs.Function.{scanned_statistic};
ghost use Rattle.lq_stats.specs.Groups.{AreStates, IsEntered, JoinGroups, JoinStates, JoinsAt, TakeRecord};
ghost use Rattle.lq_stats.specs.Groups.{TakeRecords, TakeStates, TakesOne, TakesRecord};
ghost use Rattle.lq_tuple.specs.Places.{AreKnown};

use crate::function_scan::FunctionScan;
use crate::key::Key;
use crate::scratch::Scratch;
use crate::state::State;
use lq_tuple::{HashSeed, Places};
use std::alloc::{AllocError, Global};
use vl_row::FieldList;

/// What each function keeps of the records of one tuple of the keys' values.
#[derive(Drop)]
pub(crate) struct States {
    pub(crate) list: Vec<State>,
}

impl States {
    /// Returns the states of functions over no records, with this seed of their tables.
    fn of(alloc: Global, seed: HashSeed, scans: &[FunctionScan]) -> Result<States, AllocError>
        ensures { IfOk result (λ states. AreStates (map scanned_statistic scans.now) states.list.items []) }
    {
        let mut list = Vec::with_capacity(alloc, scans.len())?;
        for scan in scans {
            list.push(State::of(alloc, seed, scan.function.call))?;
        }
        Ok(States { list })
    }

    /// Takes one more record.
    fn add(
        &mut self,
        scratch: &mut Scratch,
        scans: &mut [FunctionScan],
        fields: &FieldList,
    ) -> Result<(), AllocError>
        ensures same { OnOk result (map scanned_statistic scans.new ≡ map scanned_statistic scans.old) }
        ensures taken { OnOk result (TakesRecord (map scanned_statistic scans.old)
            self.old.list.items self.new.list.items fields.now) }
    {
        let count = scans.len().min(self.list.len());
        for i in 0..count {
            add_to(&mut self.list[i], scratch, &mut scans[i], fields)?;
        }
        Ok(())
    }

    /// Takes what the same functions have kept of other records.
    fn merge(&mut self, alloc: Global, other: States) -> Result<(), AllocError>
        ensures { OnOk result (JoinStates self.old.list.items other.list.items self.new.list.items) }
    {
        let States { mut list } = other;
        while let Some(state) = list.pop() {
            self.take(alloc, list.len(), state)?;
        }
        Ok(())
    }

    /// Takes what the function at this place has kept of other records.
    fn take(&mut self, alloc: Global, place: usize, state: State) -> Result<(), AllocError>
        ensures { OnOk result (JoinsAt place state self.old.list.items self.new.list.items) }
    {
        if place < self.list.len() {
            return self.list[place].merge(alloc, state);
        }
        Ok(())
    }
}

/// Gives a function's state one more record, if the function is asked of it.
fn add_to(
    state: &mut State,
    scratch: &mut Scratch,
    scan: &mut FunctionScan,
    fields: &FieldList,
) -> Result<(), AllocError>
    ensures same { scanned_statistic scan.new ≡ scanned_statistic scan.old }
    ensures taken { OnOk result (TakesOne (scanned_statistic scan.old) state.old state.new fields.now) }
{
    if !scan.is_asked(fields)? {
        return Ok(());
    }
    state.add(scratch, scan.function.names.as_slice(), fields)
}

/// The groups of some records: of each tuple only its text, and the states that have the number of that text.
#[derive(Drop)]
pub(crate) struct Groups {
    pub(crate) places: Places,
    pub(crate) states: Vec<States>,
}

impl Groups {
    /// No groups, with this seed of their table. This allocates nothing.
    pub(crate) fn new(alloc: Global, seed: HashSeed) -> Groups
        ensures known { AreKnown result.places [] }
        ensures none { result.states.items ≡ [] }
    {
        Groups {
            places: Places::seeded(alloc, seed),
            states: Vec::new(alloc),
        }
    }

    /// Takes more records.
    pub(crate) fn add_all(
        &mut self,
        scratch: &mut Scratch,
        keys: &[Key],
        scans: &mut [FunctionScan],
        records: &[FieldList],
    ) -> Result<(), AllocError>
        ensures same { OnOk result (map scanned_statistic scans.new ≡ map scanned_statistic scans.old) }
        ensures taken { OnOk result (TakeRecords (map grouped_by keys.now) (map scanned_statistic scans.old)
            self.old self.new records.now) }
    {
        for record in records {
            self.add(scratch, keys, scans, record)?;
        }
        Ok(())
    }

    /// Takes one more record.
    fn add(
        &mut self,
        scratch: &mut Scratch,
        keys: &[Key],
        scans: &mut [FunctionScan],
        fields: &FieldList,
    ) -> Result<(), AllocError>
        ensures same { OnOk result (map scanned_statistic scans.new ≡ map scanned_statistic scans.old) }
        ensures taken { OnOk result (TakeRecord (map grouped_by keys.now) (map scanned_statistic scans.old)
            self.old self.new fields.now) }
    {
        let place = self.place(scratch, keys, scans, fields)?;
        if place < self.states.len() {
            self.states[place].add(scratch, scans, fields)?;
        }
        Ok(())
    }

    /// Returns where the states of a record's tuple stand; new ones are added for a new tuple.
    pub(crate) fn place(
        &mut self,
        scratch: &mut Scratch,
        keys: &[Key],
        scans: &[FunctionScan],
        fields: &FieldList,
    ) -> Result<usize, AllocError>
        ensures { IfOk result (IsEntered (map grouped_by keys.now) (map scanned_statistic scans.now)
            self.old self.new fields.now) }
    {
        let alloc = scratch.alloc;
        let text = scratch.key_text(keys, fields)?;
        let place = self.places.place(alloc, text)?;
        if place < self.states.len() {
            return Ok(place);
        }
        let states = States::of(alloc, scratch.seed, scans)?;
        self.states.push(states)?;
        Ok(place)
    }
    /// Takes the groups of other records.
    pub(crate) fn merge(&mut self, alloc: Global, other: Groups) -> Result<(), AllocError>
        ensures { OnOk result (JoinGroups self.old other self.new) }
    {
        let Groups { places, mut states } = other;
        let texts = places.texts(alloc)?;
        while let Some(kept) = states.pop() {
            let place = states.len();
            if place < texts.len() {
                self.take(alloc, texts[place], kept)?;
            }
        }
        Ok(())
    }

    /// Takes the states of more records of the tuple with this text.
    fn take(&mut self, alloc: Global, text: &str, states: States) -> Result<(), AllocError>
        ensures { OnOk result (TakeStates self.old self.new text.now states) }
    {
        let place = self.places.place(alloc, text)?;
        if place < self.states.len() {
            return self.states[place].merge(alloc, states);
        }
        self.states.push(states)?;
        Ok(())
    }
}
