//! Gathering the rows that are picked.

ghost use Rattle.std.specs.Prelude.{◌≡◌, ◌<◌, ◌++◌, IfOk, OnOk, length, true};
ghost use Rattle.std.specs.List.{AllByRecursion, list_all};
ghost use Rattle.vl_row.specs.Place.{IsInOrder};
ghost use Rattle.block_body.specs.Outlines.{outline_of, weight_of};
ghost use Rattle.block_model.specs.Keys.{IsNumbered, keys_of};
ghost use Rattle.block_model.specs.Texts.{is_text_row};
ghost use Rattle.block_format.specs.Rows.{IsBlock};
ghost use Rattle.block_gather.specs.Picked.{rows_of, rows_picked};

use crate::columns::columns_of;
use crate::names::names_in;
use crate::pick::Pick;
use block_body::{ColumnHead, ColumnNames, Extent, Head, StoredRows};
use block_model::Key;
use std::alloc::{AllocError, Global};

/// Holds the rows that are picked, one pick after another. No row is made. The names of the columns are shared with
/// the last block if they can be.
pub fn gathered(
    alloc: Global,
    picks: &[Pick<'_>],
    names: &mut ColumnNames,
) -> Result<StoredRows, AllocError>
    requires { IsBlock (rows_picked picks.now) }
    ensures { IfOk result (λ stored. stored ≡ rows_picked picks.now) }
{
    let keys = keys_of(alloc, picks)?;
    let texts = names_in(alloc, picks)?;
    names.set(alloc, texts.as_slice())?;
    let columns = columns_of(alloc, picks, names, texts.as_slice(), keys.len())?;
    let head = head_of(alloc, picks, keys.as_slice(), columns.weight, columns.heads)?;
    let stored = StoredRows::held(alloc, head, keys.as_slice(), columns.values)?;
    Ok(stored)
}

/// The keys of the rows that are picked.
fn keys_of(alloc: Global, picks: &[Pick<'_>]) -> Result<Vec<Key>, AllocError>
    ensures keys { IfOk result (λ keys. keys.items ≡ keys_of (rows_picked picks.now)) }
    ensures rules { IfOk result (λ keys. AllByRecursion IsNumbered (rows_picked picks.now)) }
    ensures texts { IfOk result (λ keys. list_all is_text_row (rows_picked picks.now) ≡ true) }
{
    let mut keys = Vec::new(alloc);
    for pick in picks {
        put_keys(&mut keys, pick)?;
    }
    Ok(keys)
}

/// Appends the keys of the rows of a pick.
fn put_keys(out: &mut Vec<Key>, pick: &Pick<'_>) -> Result<(), AllocError>
    ensures keys { OnOk result (out.new.items ≡ out.old.items ++ keys_of (rows_of pick.now)) }
    ensures rules { AllByRecursion IsNumbered (rows_of pick.now) }
    ensures texts { list_all is_text_row (rows_of pick.now) ≡ true }
{
    pick.rules();
    for i in pick.from()..pick.to() {
        out.push(pick.key(i))?;
    }
    Ok(())
}

/// The head of the rows that are picked, which have these keys and this weight.
fn head_of(
    alloc: Global,
    picks: &[Pick<'_>],
    keys: &[Key],
    weight: u64,
    columns: Vec<ColumnHead>,
) -> Result<Head, AllocError>
    requires block { IsBlock (rows_picked picks.now) }
    requires keys { keys.now ≡ keys_of (rows_picked picks.now) }
    requires weight { weight ≡ weight_of (rows_picked picks.now) }
    requires columns { columns.items ≡ (outline_of (rows_picked picks.now)).columns }
    ensures { IfOk result (λ head. head ≡ outline_of (rows_picked picks.now)) }
{
    let first = keys[0];
    let last = keys[keys.len() - 1];
    let extent = Extent {
        min: first.time,
        max: last.time,
        rows: keys.len(),
        weight,
    };
    let stream = picks[0].stream().try_copy(alloc)?;
    let head = Head::new(alloc, stream, extent, columns)?;
    Ok(head)
}
