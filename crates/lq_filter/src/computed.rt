//! The fields of a row that are not stored: its timestamp, and the text and the id of its stream.
ghost use Rattle.std.specs.Prelude.{◌≡◌, IfOk, IsTrue};
ghost use Rattle.lq_filter.specs.Computed.{computed_text, is_source};

use lent_row::LentRow;
use std::alloc::{AllocError, Global};
use stream_label::{label_text, stream_id};
use time_text::write_moment;
use vl_row::Text;

/// A field of a row that is not stored.
#[derive(Clone, Copy)]
pub enum Computed {
    /// `_time`, the text of the row's timestamp.
    Time,
    /// `_stream`, the text of the labels of the row's stream.
    Stream,
    /// `_stream_id`, the id of the row's stream.
    StreamId,
}

impl Computed {
    /// Returns which field of this name is computed, if it is one.
    pub(crate) fn of(name: &str) -> Option<Computed>
        ensures { IsTrue (is_source result name.now) }
    {
        if name == "_time" {
            return Some(Computed::Time);
        }
        if name == "_stream" {
            return Some(Computed::Stream);
        }
        if name == "_stream_id" {
            return Some(Computed::StreamId);
        }
        None
    }

    /// Returns the text of the field.
    pub(crate) fn text<R: LentRow>(self, alloc: Global, row: &R) -> Result<Text, AllocError>
        ensures { IfOk result (λ text. text ≡ computed_text self (R.event row.now)) }
    {
        let mut text = Text::new();
        match self {
            Computed::Time => {
                write_moment(alloc, row.time(), &mut text)?;
                Ok(text)
            }
            Computed::Stream => {
                label_text(alloc, row.stream(), &mut text)?;
                Ok(text)
            }
            Computed::StreamId => {
                stream_id(alloc, row.stream(), &mut text)?;
                Ok(text)
            }
        }
    }
}
