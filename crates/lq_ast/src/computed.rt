//! The fields of a row that are computed, and not stored.

/// A field that each row has, computed of its moment or of the labels of its stream.
#[derive(Clone, Copy, Debug, PartialEq, Eq)]
pub enum Computed {
    /// `_time`: the text of the moment.
    Time,
    /// `_stream`: the text of the labels.
    Stream,
    /// `_stream_id`: the id of the labels.
    StreamId,
}

impl Computed {
    ghost use Rattle.std.specs.Prelude.{◌≡◌};
    ghost use Rattle.lq_ast.specs.ComputedField.{computed_of};

    /// Returns the computed field of this name. A stored field has none of these names.
    pub fn of(name: &str) -> Option<Computed>
        ensures { result ≡ computed_of name.now }
    {
        if name == "_time" {
            return Some(Computed::Time);
        }
        if name == "_stream" {
            return Some(Computed::Stream);
        }
        if name == "_stream_id" {
            return Some(Computed::StreamId);
        }
        None
    }
}
