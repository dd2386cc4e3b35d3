//! The values of a field, as they are compared.
ghost use Rattle.std.specs.Prelude.{◌≡◌, IfOk, map, slice_index};
ghost use Rattle.log_model.specs.Field.{field_value};
ghost use Rattle.log_model.specs.Order.{key_of, value_cmp};
ghost use Rattle.lq_order.specs.Column.{values_cmp};
ghost use Rattle.lq_order.specs.Mirror.{Mirrors};

use crate::ranks::ranks;
use lq_tuple::HashSeed;
use std::alloc::{AllocError, Global};
use std::cmp::Ordering;
use vl_row::{FieldList, ValueKey};

/// What the values of a field in records are compared by.
#[derive(Drop)]
pub(crate) enum Values<'a> {
    /// Their ranks. To make these, all different values are sorted, and then each comparison is one of numbers.
    Ranks(Vec<usize>),
    /// Their keys. To make these, nothing is sorted.
    Keys(Vec<ValueKey<'a>>),
}

impl<'a> Values<'a> {
    /// Returns a field's values in these records: by ranks where there is a seed for their table, and else by keys.
    pub(crate) fn of(
        alloc: Global,
        name: &str,
        records: &'a [FieldList],
        ranked: Option<HashSeed>,
    ) -> Result<Values<'a>, AllocError>
        ensures { IfOk result (λ values.
            Mirrors (values_cmp values) value_cmp (map (λ r. field_value r name.now) records.entry.now)) }
    {
        match ranked {
            Some(seed) => Values::ranked(alloc, seed, name, records),
            None => Values::keyed(alloc, name, records),
        }
    }

    /// Returns the ranks of a field's values in these records, which are found in a table of this seed.
    fn ranked(
        alloc: Global,
        seed: HashSeed,
        name: &str,
        records: &'a [FieldList],
    ) -> Result<Values<'a>, AllocError>
        ensures { IfOk result (λ values.
            Mirrors (values_cmp values) value_cmp (map (λ r. field_value r name.now) records.entry.now)) }
    {
        let texts = texts(alloc, name, records)?;
        Ok(Values::Ranks(ranks(alloc, seed, texts.as_slice())?))
    }

    /// Returns the keys of a field's values in these records.
    fn keyed(alloc: Global, name: &str, records: &'a [FieldList]) -> Result<Values<'a>, AllocError>
        ensures { IfOk result (λ values.
            Mirrors (values_cmp values) value_cmp (map (λ r. field_value r name.now) records.entry.now)) }
    {
        Ok(Values::Keys(keys(alloc, name, records)?))
    }

    /// How the values of the records at two places stand to each other.
    pub(crate) fn compare(&self, a: usize, b: usize) -> Ordering
        ensures { result ≡ values_cmp self.now a b }
    {
        match self {
            Values::Ranks(ranks) => rank(ranks.as_slice(), a).cmp(&rank(ranks.as_slice(), b)),
            Values::Keys(keys) => keys.get(a).cmp(&keys.get(b)),
        }
    }
}

/// Returns the rank at a place, and 0 where there is none.
fn rank(ranks: &[usize], place: usize) -> usize
    ensures { result ≡ slice_index ranks.now place }
{
    ranks.get(place).copied().unwrap_or(0)
}

/// Returns the values of a field in these records.
fn texts<'a>(
    alloc: Global,
    name: &str,
    records: &'a [FieldList],
) -> Result<Vec<&'a str>, AllocError>
    ensures { IfOk result (λ texts. map (λ text. text.now) texts.items
        ≡ map (λ r. field_value r name.now) records.entry.now) }
{
    let mut texts = Vec::with_capacity(alloc, records.len())?;
    for record in records {
        texts.push(record.get(name))?;
    }
    Ok(texts)
}

/// Returns the keys of a field's values in these records.
fn keys<'a>(
    alloc: Global,
    name: &str,
    records: &'a [FieldList],
) -> Result<Vec<ValueKey<'a>>, AllocError>
    ensures { IfOk result (λ keys. keys.items ≡ map (λ r. key_of (field_value r name.now)) records.entry.now) }
{
    let mut keys = Vec::with_capacity(alloc, records.len())?;
    for record in records {
        keys.push(ValueKey::of(record.get(name)))?;
    }
    Ok(keys)
}
