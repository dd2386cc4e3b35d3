//! How many records have each tuple of the values of some fields.
ghost use Rattle.std.specs.Prelude.{◌<◌, ◌+◌, ◌^◌, ◌++◌, [], List, ℕ, IfOk, OnOk, length};
ghost use Rattle.lq_ast.specs.Records.{Record};
ghost use Rattle.lq_order.specs.Tally.{TalliesRecord, Tallies};

use lq_tuple::{HashSeed, Places, filled_text};
use std::alloc::{AllocError, Global};
use vl_row::{FieldList, Recs, Text};

/// How many of some records have each tuple of the values of some fields, but for a tuple that is wholly empty. The
/// records may come in pieces; of them only the texts of the different tuples are kept. No number is greater than
/// 2^64 - 1.
#[derive(Drop)]
pub struct Tally<'p> {
    pub(crate) names: &'p [Text],
    pub(crate) places: Places,
    pub(crate) scratch: String,
    pub(crate) hits: Vec<u64>,
}

impl<'p> Tally<'p> {
    /// Returns the tally of no records, for these fields. This allocates nothing. The seed of its table is the fixed
    /// one.
    pub fn new(alloc: Global, names: &'p [Text]) -> Tally<'p>
        ensures { Tallies result names.entry.now [] }
    {
        Tally::seeded(alloc, HashSeed::fixed(), names)
    }

    /// Returns the same, with this seed of its table.
    pub fn seeded(alloc: Global, seed: HashSeed, names: &'p [Text]) -> Tally<'p>
        ensures { Tallies result names.entry.now [] }
    {
        Tally {
            names,
            places: Places::seeded(alloc, seed),
            scratch: String::new(alloc),
            hits: Vec::new(alloc),
        }
    }

    /// Returns the tally of these records, for these fields. The records go before anything is made of it.
    pub(crate) fn of(
        alloc: Global,
        seed: HashSeed,
        names: &'p [Text],
        r: Recs,
    ) -> Result<Tally<'p>, AllocError>
        ensures { IfOk result (λ tally. Tallies tally names.entry.now r) }
    {
        let records = r.into_vec();
        let mut tally = Tally::seeded(alloc, seed, names);
        tally.add_all(alloc, records.as_slice())?;
        Ok(tally)
    }

    /// Takes more records. After an allocation fails the tally may only be dropped.
    pub fn add_all(&mut self, alloc: Global, records: &[FieldList]) -> Result<(), AllocError>
        ensures { OnOk result ((names : List (List ℕ)) (before : List Record)
            → length before + length records.now < 2 ^ 64 → Tallies self.old names before
            → Tallies self.new names (before ++ records.now)) }
    {
        for record in records {
            self.add(alloc, record)?;
        }
        Ok(())
    }

    /// Takes one more record.
    fn add(&mut self, alloc: Global, fields: &FieldList) -> Result<(), AllocError>
        ensures { OnOk result (TalliesRecord self.old self.new fields.now) }
    {
        // What a list of fields tells of itself: none of them has an empty name.
        let _ = fields.as_slice();
        let Some(text) = filled_text(&mut self.scratch, self.names, fields)? else {
            return Ok(());
        };
        let place = self.places.place(alloc, text)?;
        if place < self.hits.len() {
            self.hits[place] = self.hits[place].saturating_add(1);
        } else {
            self.hits.push(1)?;
        }
        Ok(())
    }
}
