//! The distinct values of a column, and the places of its values among them.

ghost use Rattle.std.specs.Prelude.{◌≡◌, ◌≤◌, ◌∷◌, IfOk, IsTrue, MatchOption, OnOk, bytes_eq, false, length, map, true};
ghost use Rattle.std.specs.BTreeSet.{insert_key, keys};
ghost use Rattle.std.specs.List.{All, list_all, list_any};
ghost use Rattle.std.specs.List.Sorted.{IsStrictlySortedBy};
ghost use Rattle.log_model.specs.Field.{bytes_cmp};
ghost use Rattle.block_model.specs.Distinct.{code_of, distinct, is_listed, is_short};
ghost use Rattle.block_column.specs.Kinds.{fits_dictionary};

use crate::many::are_many;
use block_model::{Recent, SLOTS, slot_of};
use std::alloc::{AllocError, Global};
use std::collections::BTreeSet;
use vl_row::Text;

/// The most distinct values that a dictionary has.
pub(crate) const MAX_VALUES: usize = 255;

/// The most bytes that a value of a dictionary has.
pub(crate) const MAX_VALUE_LEN: usize = 256;

/// Each value once, in byte order, if a dictionary can hold them.
pub(crate) fn distinct_of(alloc: Global, values: &[&str]) -> Result<Option<Vec<Text>>, AllocError>
    ensures { IfOk result (λ found. MatchOption found (fits_dictionary (map (λ t. t.now) values.now) ≡ false)
        (λ texts. (fits_dictionary (map (λ t. t.now) values.now) ≡ true)
        × (texts.items ≡ distinct (map (λ t. t.now) values.now)))) }
{
    if are_many(alloc, values)? {
        return Ok(None);
    }
    match set_of(alloc, values)? {
        None => Ok(None),
        Some(set) => Ok(Some(listed(alloc, &set)?)),
    }
}

fn set_of<'a>(alloc: Global, values: &[&'a str]) -> Result<Option<BTreeSet<&'a str>>, AllocError>
    ensures { IfOk result (λ found. MatchOption found (fits_dictionary (map (λ t. t.now) values.now) ≡ false)
        (λ set. (fits_dictionary (map (λ t. t.now) values.now) ≡ true)
        × (map (λ t. t.now) (keys set) ≡ distinct (map (λ t. t.now) values.now)))) }
{
    match values {
        [] => Ok(Some(BTreeSet::new(alloc))),
        [first, rest @ ..] => {
            if first.len() > MAX_VALUE_LEN {
                return Ok(None);
            }
            set_with(alloc, first, rest)
        }
    }
}

fn set_with<'a>(
    alloc: Global,
    first: &'a str,
    rest: &[&'a str],
) -> Result<Option<BTreeSet<&'a str>>, AllocError>
    requires { is_short first.now ≡ true }
    ensures { IfOk result (λ found. MatchOption found
        (fits_dictionary (first.now ∷ map (λ t. t.now) rest.now) ≡ false)
        (λ set. (fits_dictionary (first.now ∷ map (λ t. t.now) rest.now) ≡ true)
        × (map (λ t. t.now) (keys set) ≡ distinct (first.now ∷ map (λ t. t.now) rest.now)))) }
{
    let mut set = BTreeSet::new(alloc);
    set.insert(first)?;
    let mut recent = Recent::new(alloc, first)?;
    for value in rest {
        if value.len() > MAX_VALUE_LEN {
            return Ok(None);
        }
        put_value(&mut set, &mut recent, value)?;
        if set.len() > MAX_VALUES {
            return Ok(None);
        }
    }
    Ok(Some(set))
}

/// Puts a value to the others, unless it was put lately. After an error neither of the two is used.
fn put_value<'a>(
    set: &mut BTreeSet<&'a str>,
    recent: &mut Recent<'a>,
    value: &'a str,
) -> Result<(), AllocError>
    requires rising { IsStrictlySortedBy bytes_cmp (map (λ t. t.now) (keys set.old)) }
    requires recent { list_all (is_listed (map (λ t. t.now) (keys set.old))) recent.old ≡ true }
    ensures values { OnOk result (map (λ t. t.now) (keys set.new)
        ≡ insert_key bytes_cmp (map (λ t. t.now) (keys set.old)) value.now) }
    ensures recent { OnOk result (list_all (is_listed (map (λ t. t.now) (keys set.new))) recent.new ≡ true) }
{
    if recent.insert(value) {
        set.insert(value)?;
    }
    Ok(())
}

fn listed(alloc: Global, set: &BTreeSet<&str>) -> Result<Vec<Text>, AllocError>
    ensures { IfOk result (λ texts. texts.items ≡ map (λ t. t.now) (keys set.now)) }
{
    let mut texts = Vec::with_capacity(alloc, set.len())?;
    for text in set {
        texts.push(Text::try_of(alloc, text)?)?;
    }
    Ok(texts)
}

pub(crate) fn lent(alloc: Global, texts: &[Text]) -> Result<Vec<&str>, AllocError>
    ensures { IfOk result (λ lent. map (λ t. t.now) lent.items ≡ texts.now) }
{
    let mut lent = Vec::with_capacity(alloc, texts.len())?;
    for text in texts {
        lent.push(text.as_str())?;
    }
    Ok(lent)
}

/// The place of each value among the distinct ones, which are in byte order.
pub(crate) fn codes_of(
    alloc: Global,
    sorted: &[Text],
    values: &[&str],
) -> Result<Vec<u8>, AllocError>
    requires few { length sorted.now ≤ 255 }
    requires rising { IsStrictlySortedBy bytes_cmp sorted.now }
    requires listed { All (λ value. list_any (bytes_eq value.now) sorted.now ≡ true) values.now }
    ensures { IfOk result (λ codes. codes.items ≡ map (code_of sorted.now) (map (λ t. t.now) values.now)) }
{
    let mut codes = Vec::with_capacity(alloc, values.len())?;
    let mut slots = vec![in alloc; 0; SLOTS]?;
    for value in values {
        codes.push(code_near(&mut slots, sorted, value))?;
    }
    Ok(codes)
}

/// The place of a value, which is mostly that of the last value with its slot.
fn code_near(slots: &mut Vec<u8>, sorted: &[Text], value: &str) -> u8
    requires slots { length slots.old.items ≡ 512 }
    requires few { length sorted.now ≤ 255 }
    requires rising { IsStrictlySortedBy bytes_cmp sorted.now }
    requires listed { list_any (bytes_eq value.now) sorted.now ≡ true }
    ensures code { result ≡ code_of sorted.now value.now }
    ensures slots { length slots.new.items ≡ 512 }
{
    let slot = slot_of(value);
    let guess = slots[slot];
    if is_at(sorted, guess as usize, value) {
        return guess;
    }
    let code = code_of(sorted, value);
    slots[slot] = code;
    code
}

/// Whether the value has this place.
fn is_at(sorted: &[Text], i: usize, value: &str) -> bool
    requires { IsStrictlySortedBy bytes_cmp sorted.now }
    ensures { IsTrue result → code_of sorted.now value.now ≡ i }
{
    if i >= sorted.len() {
        return false;
    }
    is_value(&sorted[i], value)
}

fn code_of(sorted: &[Text], value: &str) -> u8
    requires few { length sorted.now ≤ 255 }
    requires listed { list_any (bytes_eq value.now) sorted.now ≡ true }
    ensures { result ≡ code_of sorted.now value.now }
{
    for i in 0..sorted.len() {
        if is_value(&sorted[i], value) {
            return i as u8;
        }
    }
    unreachable!()
}

/// Whether the text is this value.
pub(crate) fn is_value(text: &Text, value: &str) -> bool
    ensures { result ≡ bytes_eq value.now text.now }
{
    value == text.as_str()
}
