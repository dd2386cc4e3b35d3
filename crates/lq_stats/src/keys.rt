//! Keys, and their values in records.
ghost use Rattle.std.specs.Prelude.{◌≡◌, IfOk, map};
ghost use Rattle.lq_ast.specs.Groups.{key_value};
ghost use Rattle.lq_ast.specs.PipeView.{group_by};
ghost use Rattle.lq_stats.specs.Key.{grouped_by};

use crate::bucket::Bucket;
use crate::key::Key;
use lq_ast::StatKey;
use std::alloc::{AllocError, Global};
use vl_row::FieldList;

/// Returns the keys of a pipe.
pub(crate) fn keys(alloc: Global, keys: &[StatKey]) -> Result<Vec<Key>, AllocError>
    ensures { IfOk result (λ made. map grouped_by made.items ≡ map group_by keys.now) }
{
    let mut made = Vec::with_capacity(alloc, keys.len())?;
    for key in keys {
        made.push(key_of(alloc, key)?)?;
    }
    Ok(made)
}

fn key_of(alloc: Global, key: &StatKey) -> Result<Key, AllocError>
    ensures { IfOk result (λ made. grouped_by made ≡ group_by key.now) }
{
    Ok(Key {
        name: key.name.try_copy(alloc)?,
        step: key.step,
    })
}

/// Returns the names of these keys.
pub(crate) fn key_names<'a>(alloc: Global, keys: &'a [Key]) -> Result<Vec<&'a str>, AllocError>
    ensures { IfOk result (λ names. map (λ name. name.now) names.items
        ≡ map (λ key. key.0) (map grouped_by keys.entry.now)) }
{
    let mut names = Vec::with_capacity(alloc, keys.len())?;
    for key in keys {
        names.push(key.name.as_str())?;
    }
    Ok(names)
}

/// Returns the value of a key.
pub(crate) fn key_value<'a>(
    alloc: Global,
    bucket: &'a mut Bucket,
    key: &Key,
    fields: &'a FieldList,
) -> Result<&'a str, AllocError>
    ensures { IfOk result (λ value. value.now ≡ key_value fields.entry.now (grouped_by key.now)) }
{
    let value = fields.get(key.name.as_str());
    match key.step {
        None => Ok(value),
        Some(step) => bucket.text_of(alloc, value, step),
    }
}
