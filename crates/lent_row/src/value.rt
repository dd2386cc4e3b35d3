//! Values that are lent.
ghost use Rattle.std.specs.Prelude.{◌≡◌, IsTrue};
ghost use Rattle.log_model.specs.Field.{is_empty};
ghost use Rattle.lent_row.specs.Cells.{value_text};

/// The value of a field: its text, or the integer whose decimal text it is.
#[derive(Clone, Copy, Debug)]
pub enum Value<'a> {
    /// The text, which is empty where the row has no such field.
    Str(&'a str),
    /// An integer, in place of its decimal text.
    Int(i64),
}

impl Value<'_> {
    /// Returns whether the text is empty, which that of an integer never is.
    pub fn is_empty(self) -> bool
        ensures { result ≡ is_empty (value_text self.entry) }
    {
        match self {
            Value::Str(text) => text.is_empty(),
            Value::Int(_) => false,
        }
    }
}
