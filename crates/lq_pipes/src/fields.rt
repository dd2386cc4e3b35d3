//! The pipes that change the fields of each record: `fields`, `delete`, `rename` and `copy`.
ghost use Rattle.std.specs.Prelude.{◌≡◌, IfOk, OnOk, map};
ghost use Rattle.lq_ast.specs.PipeView.{name_pair};
ghost use Rattle.lq_ast.specs.Records.{copied, copy_fields, only_fields, rename_fields, renamed, without_fields};

use lq_ast::Pair;
use std::alloc::{AllocError, Global};
use vl_row::{FieldList, Recs, Text};

/// Keeps the fields of these names.
pub(crate) fn keep_fields(names: &[Text], r: Recs) -> Recs
    ensures { result ≡ map (only_fields names.now) r }
{
    let mut records = r.into_vec();
    for record in records.iter_mut() {
        record.keep(names);
    }
    Recs::of(records)
}

/// Removes the fields of these names.
pub(crate) fn delete_fields(names: &[Text], r: Recs) -> Recs
    ensures { result ≡ map (without_fields names.now) r }
{
    let mut records = r.into_vec();
    for record in records.iter_mut() {
        record.remove_all(names);
    }
    Recs::of(records)
}

/// Gives fields other names, pair by pair.
pub(crate) fn rename(alloc: Global, pairs: &[Pair], r: Recs) -> Result<Recs, AllocError>
    ensures { IfOk result (λ records. records ≡ map (rename_fields (map name_pair pairs.entry.now)) r) }
{
    let mut records = r.into_vec();
    for record in records.iter_mut() {
        rename_in(alloc, pairs, record)?;
    }
    Ok(Recs::of(records))
}

fn rename_in(alloc: Global, pairs: &[Pair], r: &mut FieldList) -> Result<(), AllocError>
    ensures { OnOk result (r.new ≡ rename_fields (map name_pair pairs.now) r.old) }
{
    for pair in pairs {
        rename_one(alloc, pair, r)?;
    }
    Ok(())
}

fn rename_one(alloc: Global, pair: &Pair, r: &mut FieldList) -> Result<(), AllocError>
    ensures { OnOk result (r.new ≡ renamed r.old (name_pair pair.now)) }
{
    let from = pair.from.as_str();
    if from == pair.to.as_str() {
        return Ok(());
    }
    copy_one(alloc, pair, r)?;
    r.remove(from);
    Ok(())
}

/// Copies fields under other names, pair by pair.
pub(crate) fn copy(alloc: Global, pairs: &[Pair], r: Recs) -> Result<Recs, AllocError>
    ensures { IfOk result (λ records. records ≡ map (copy_fields (map name_pair pairs.entry.now)) r) }
{
    let mut records = r.into_vec();
    for record in records.iter_mut() {
        copy_in(alloc, pairs, record)?;
    }
    Ok(Recs::of(records))
}

fn copy_in(alloc: Global, pairs: &[Pair], r: &mut FieldList) -> Result<(), AllocError>
    ensures { OnOk result (r.new ≡ copy_fields (map name_pair pairs.now) r.old) }
{
    for pair in pairs {
        copy_one(alloc, pair, r)?;
    }
    Ok(())
}

/// Gives one name the value of another, which removes the field where that value is empty. No field has an empty name.
fn copy_one(alloc: Global, pair: &Pair, r: &mut FieldList) -> Result<(), AllocError>
    ensures { OnOk result (r.new ≡ copied r.old (name_pair pair.now)) }
{
    let to = pair.to.as_str();
    if to.is_empty() {
        return Ok(());
    }
    let value = Text::try_of(alloc, r.get(pair.from.as_str()))?;
    r.set(alloc, to, value.as_str())
}
