//! Writing blocks.

ghost use Rattle.std.specs.Prelude.{◌≡◌, ◌++◌, OnOk, length};
ghost use Rattle.std.specs.List.{flat_map};
ghost use Rattle.block_format.specs.Columns.{column_bytes};
ghost use Rattle.block_format.specs.Keys.{keys_bytes};
ghost use Rattle.block_format.specs.Spelling.{block_bytes};
ghost use Rattle.block_body.specs.Held.{AreEven, AreFilters, IsStored, columns_in, keys_in, rows_held};

use crate::body::{Batches, Body, put_batches};
use crate::head::{ColumnHead, Head};
use crate::held_columns::HeldColumns;
use block_format::put_labels;
use byte_format::{put_i64s, put_u32s};
use std::alloc::AllocError;

impl Body {
    /// Appends the one spelling of the block that has this head and this body.
    pub(crate) fn put(
        &self,
        out: &mut Vec<u8>,
        head: &Head,
        batches: &Batches,
    ) -> Result<(), AllocError>
        requires { IsStored (rows_held head.now self.now batches.now) head.now self.now batches.now }
        ensures { OnOk result (out.new.items
            ≡ out.old.items ++ block_bytes (rows_held head.now self.now batches.now)) }
    {
        put_labels(out, head.stream())?;
        out.extend_from_slice(&(self.times.len() as u16).to_le_bytes())?;
        out.extend_from_slice(&(self.columns.len() as u16).to_le_bytes())?;
        put_keys(out, self, batches)?;
        put_columns(out, head.column_heads(), &self.columns)?;
        Ok(())
    }
}

/// Appends the times, the numbers of the batches, and the places.
fn put_keys(out: &mut Vec<u8>, body: &Body, batches: &Batches) -> Result<(), AllocError>
    requires { AreEven body.now batches.now }
    ensures { OnOk result (out.new.items ≡ out.old.items ++ keys_bytes (keys_in body.now batches.now)) }
{
    put_i64s(out, body.times.as_slice())?;
    put_batches(out, batches, body.times.len())?;
    put_u32s(out, body.places.as_slice())?;
    Ok(())
}

fn put_columns(
    out: &mut Vec<u8>,
    heads: &[ColumnHead],
    columns: &HeldColumns,
) -> Result<(), AllocError>
    requires count { length heads.now ≡ length columns.now }
    requires filters { AreFilters heads.now columns.now }
    ensures { OnOk result (out.new.items ≡ out.old.items ++ flat_map column_bytes (columns_in heads.now columns.now)) }
{
    for i in 0..columns.len() {
        columns.put(out, i, &heads[i])?;
    }
    Ok(())
}
