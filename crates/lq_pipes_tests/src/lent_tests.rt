//! Rows that lend their integers as integers, and have a cell without a value before their fields.
ghost use Rattle.std.specs.Prelude.{◌≡◌, ◌+◌, ◌<◌, ◌^◌, [], ◌∷◌, length};
ghost use Rattle.lent_row.specs.Cells.{cell_at, value_text};

use lent_row::{LentRow, Value};
use std::alloc::{AllocError, Global};
use vl_row::{Field, FieldList, Row, Stream, number};

/// How many fields are too many for a row that is lent so.
const MANY: usize = 1000;

/// A row as it may lie in columns.
#[derive(Clone, Copy)]
pub(crate) struct Lent<'r> {
    row: &'r Row,
    ghost few: { length row.now.fields < 2 ^ 32 },
}

impl<'r> Lent<'r> {
    /// Returns the row as it may lie in columns, if it has not too many fields.
    pub(crate) fn of(row: &'r Row) -> Option<Lent<'r>> {
        if row.fields().len() < MANY {
            Some(Lent { row })
        } else {
            None
        }
    }
}

fn lend(text: &str) -> Value<'_>
    ensures { value_text result ≡ text.now }
{
    match number(text) {
        Some(integer) => Value::Int(integer),
        None => Value::Str(text),
    }
}

/// Returns the field in the cell at this place, which is not the first one.
#[tactic(auto, using(crate::proofs::LentCells::cell_after))]
fn field_at(row: &Row, place: usize) -> &Field
    requires later { 0 < place }
    requires within { place < length row.now.fields + 1 }
    ensures { result.now ≡ cell_at (([], []) ∷ row.entry.now.fields) place }
{
    row.fields().at(place - 1)
}

impl<'r> LentRow for Lent<'r> {
    ghost use Rattle.std.specs.Prelude.{[], ◌∷◌};

    ghost event = { λ lent. lent.row.now };

    ghost cells = { λ lent. ([], []) ∷ lent.row.now.fields };

    fn time(&self) -> i64 {
        self.row.time()
    }

    fn stream(&self) -> &Stream {
        self.row.stream()
    }

    fn value(&self, name: &str) -> Value<'_> {
        lend(self.row.value(name))
    }

    fn cell_count(&self) -> usize {
        1 + self.row.fields().len()
    }

    fn name_at(&self, place: usize) -> &str {
        if place == 0 {
            return "";
        }
        field_at(self.row, place).name()
    }

    fn value_at(&self, place: usize) -> Value<'_> {
        if place == 0 {
            return Value::Str("");
        }
        lend(field_at(self.row, place).value())
    }

    fn copy_fields(&self, alloc: Global, more: usize) -> Result<FieldList, AllocError> {
        self.row.fields().copy_with_room(alloc, more)
    }

    fn rules(&self) {
        let _fields = self.row.fields();
    }
}
