//! A stream as it is printed: its text and its id.
ghost use Rattle.std.specs.Prelude.{◌≡◌, IfOk, OnOk};
ghost use Rattle.log_model.specs.Stream.{label_text, stream_id};

use std::alloc::{AllocError, Global};
use std::marker::Model;
use stream_label::{label_text, stream_id};
use vl_row::{Stream, Text};

/// A stream with its text and its id, which are computed once.
///
/// A contract sees it as the list of the labels.
#[derive(Drop)]
pub(crate) struct PrintedStream {
    labels: Stream,
    text: Text,
    id: Text,
}

impl Model for PrintedStream {
    ghost use Rattle.std.specs.Prelude.{◌≡◌, List};
    ghost use Rattle.log_model.specs.Field.{Field as Pair};
    ghost use Rattle.log_model.specs.Stream.{label_text, stream_id};

    ghost Value = { List Pair };

    ghost view = { λ p. p.labels };

    ghost invariant = { λ p. (p.text ≡ label_text p.labels) × (p.id ≡ stream_id p.labels) };
}

impl PrintedStream {
    pub(crate) fn of(alloc: Global, labels: Stream) -> Result<PrintedStream, AllocError>
        ensures { IfOk result (λ printed. printed ≡ labels) }
    {
        let mut text = Text::new();
        label_text(alloc, &labels, &mut text)?;
        let mut id = Text::new();
        stream_id(alloc, &labels, &mut id)?;
        Ok(PrintedStream { labels, text, id })
    }

    pub(crate) fn labels(&self) -> &Stream
        ensures { result.now ≡ self.now }
    {
        &self.labels
    }

    pub(crate) fn text(&self) -> &str
        ensures { result.now ≡ label_text self.now }
    {
        self.text.as_str()
    }

    pub(crate) fn id(&self) -> &str
        ensures { result.now ≡ stream_id self.now }
    {
        self.id.as_str()
    }

    /// Becomes this stream, with its text and its id.
    pub(crate) fn turn_to(&mut self, alloc: Global, stream: &Stream) -> Result<(), AllocError>
        ensures { OnOk result (self.new ≡ stream.now) }
    {
        if self.labels.is_same(stream) {
            return Ok(());
        }
        *self = PrintedStream::of(alloc, stream.try_copy(alloc)?)?;
        Ok(())
    }
}
