//! A `Row` as a row that is lent.
use crate::lent::LentRow;
use crate::value::Value;
use std::alloc::{AllocError, Global};
use vl_row::{FieldList, Row, Stream};

impl LentRow for Row {
    ghost event = { λ row. row };

    ghost cells = { λ row. row.fields };

    fn time(&self) -> i64 {
        Row::time(self)
    }

    fn stream(&self) -> &Stream {
        Row::stream(self)
    }

    fn value(&self, name: &str) -> Value<'_> {
        Value::Str(Row::value(self, name))
    }

    fn cell_count(&self) -> usize {
        self.fields().len()
    }

    fn name_at(&self, place: usize) -> &str {
        self.fields().at(place).name()
    }

    fn value_at(&self, place: usize) -> Value<'_> {
        Value::Str(self.fields().at(place).value())
    }

    fn copy_fields(&self, alloc: Global, more: usize) -> Result<FieldList, AllocError> {
        self.fields().copy_with_room(alloc, more)
    }

    fn rules(&self) {
        let _fields = self.fields();
    }
}
