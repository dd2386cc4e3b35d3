//! The names that the columns of blocks have.

ghost use Rattle.std.specs.Prelude.{◌≡◌, ◌<◌, ◌+◌, IfOk, IsTrue, OnOk, bytes_eq, length, map, take};
ghost use Rattle.std.specs.BTreeSet.{insert_key, keys};
ghost use Rattle.std.specs.List.{fold};
ghost use Rattle.log_model.specs.Field.{bytes_cmp};
ghost use Rattle.block_model.specs.Columns.{names_of};
ghost use Rattle.block_gather.specs.Gathered.{names_in};

use crate::pick::Pick;
use std::alloc::{AllocError, Global};
use std::collections::BTreeSet;

/// The names that the blocks have, each once, in byte order.
pub(crate) fn names_in<'a>(alloc: Global, picks: &[Pick<'a>]) -> Result<Vec<&'a str>, AllocError>
    ensures { IfOk result (λ names. map (λ t. t.now) names.items ≡ names_in picks.now) }
{
    let set = name_set(alloc, picks)?;
    let names = listed(alloc, &set)?;
    Ok(names)
}

fn listed<'a>(alloc: Global, set: &BTreeSet<&'a str>) -> Result<Vec<&'a str>, AllocError>
    ensures { IfOk result (λ names. map (λ t. t.now) names.items ≡ map (λ t. t.now) (keys set.now)) }
{
    let mut names = Vec::with_capacity(alloc, set.len())?;
    for name in set {
        names.push(*name)?;
    }
    Ok(names)
}

fn name_set<'a>(alloc: Global, picks: &[Pick<'a>]) -> Result<BTreeSet<&'a str>, AllocError>
    ensures { IfOk result (λ set. map (λ t. t.now) (keys set) ≡ names_in picks.now) }
{
    let mut names = BTreeSet::new(alloc);
    for i in 0..picks.len() {
        put_new(&mut names, picks, i)?;
    }
    Ok(names)
}

/// Puts the names of one block more to those before, unless the last block has the same.
fn put_new<'a>(
    names: &mut BTreeSet<&'a str>,
    picks: &[Pick<'a>],
    i: usize,
) -> Result<(), AllocError>
    requires within { i < length picks.now }
    requires before { map (λ t. t.now) (keys names.old) ≡ names_in (take i picks.now) }
    ensures { OnOk result (map (λ t. t.now) (keys names.new) ≡ names_in (take (i + 1) picks.now)) }
{
    if are_known(picks, i) {
        return Ok(());
    }
    put_names(names, &picks[i])?;
    Ok(())
}

/// Whether the block of a pick has the names of the one before.
fn are_known(picks: &[Pick<'_>], i: usize) -> bool
    requires { i < length picks.now }
    ensures { IsTrue result → names_in (take (i + 1) picks.now) ≡ names_in (take i picks.now) }
{
    if i < 1 {
        return false;
    }
    have_same_names(&picks[i], &picks[i - 1])
}

fn have_same_names(pick: &Pick<'_>, other: &Pick<'_>) -> bool
    ensures { IsTrue result → names_of pick.now.block ≡ names_of other.now.block }
{
    if pick.columns() != other.columns() {
        return false;
    }
    for c in 0..pick.columns() {
        if !are_same(pick.name(c), other.name(c)) {
            return false;
        }
    }
    true
}

fn are_same(name: &str, other: &str) -> bool
    ensures { result ≡ bytes_eq name.now other.now }
{
    name == other
}

/// Puts the names of a block to the others.
fn put_names<'a>(names: &mut BTreeSet<&'a str>, pick: &Pick<'a>) -> Result<(), AllocError>
    ensures { OnOk result (map (λ t. t.now) (keys names.new)
        ≡ fold (insert_key bytes_cmp) (map (λ t. t.now) (keys names.old)) (names_of pick.now.block)) }
{
    for c in 0..pick.columns() {
        names.insert(pick.name(c))?;
    }
    Ok(())
}
