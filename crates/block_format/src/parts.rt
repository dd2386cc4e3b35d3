//! All parts of a block.

ghost use Rattle.std.specs.Prelude.{◌≡◌, IfOk, length};
ghost use Rattle.std.specs.List.{All};
ghost use Rattle.byte_format.specs.Format.{front};
ghost use Rattle.byte_format.specs.Gives.{Gives};
ghost use Rattle.block_format.specs.Columns.{HasRows};
ghost use Rattle.block_format.specs.Parts.{parts, parts_steps};

use crate::columns::{NamedColumn, take_columns};
use crate::keys::take_keys;
use crate::labels::take_labels;
use block_model::Key;
use byte_format::{Stop, take_u16};
use std::alloc::Global;
use std::marker::Model;
use vl_row::Field;

/// What the items of a block say. They may still be no block.
#[derive(Drop)]
pub struct Parts {
    pub labels: Vec<Field>,
    pub keys: Vec<Key>,
    pub columns: Vec<NamedColumn>,
}

impl Model for Parts {
    ghost use Rattle.block_format.specs.Found.{Found};

    ghost Value = { Found };

    ghost view = { λ p. record { labels = p.labels.items; keys = p.keys.items; columns = p.columns.items } };
}

/// What the bytes at the front say, and the bytes after it. Each column has a value for each row.
pub fn take_parts(alloc: Global, bytes: &[u8]) -> Result<(Parts, &[u8]), Stop>
    ensures value { Gives (λ x. (x.0, x.1.now)) result (front parts bytes.now) }
    ensures rows { IfOk result (λ x. All (HasRows (length x.0.keys)) x.0.columns) }
{
    take_steps(alloc, bytes)
}

#[tactic(auto, unfolding(crate::specs::Parts::parts_steps))]
fn take_steps(alloc: Global, bytes: &[u8]) -> Result<(Parts, &[u8]), Stop>
    ensures value { Gives (λ x. (x.0, x.1.now)) result (parts_steps bytes.now) }
    ensures rows { IfOk result (λ x. All (HasRows (length x.0.keys)) x.0.columns) }
{
    let (labels, rest) = take_labels(alloc, bytes)?;
    let (rows, rest) = take_u16(rest)?;
    let (columns, rest) = take_u16(rest)?;
    let (keys, rest) = take_keys(alloc, rows as usize, rest)?;
    let (columns, rest) = take_columns(alloc, columns, rows as usize, rest)?;
    Ok((
        Parts {
            labels,
            keys,
            columns,
        },
        rest,
    ))
}
