//! How the lines of an input come in.
ghost use Rattle.std.specs.Prelude.{◌≡◌, ◌≤ℤ◌, IfOk, Some, pos, unsigned_abs};
ghost use Rattle.vl_io.specs.Moments.{IsMoment};
ghost use Rattle.vl_pipe.specs.Groups.{arrival_at, labelled_by};

use ingest_row::{OptionFault, Options};
use std::alloc::{AllocError, Global};
use std::marker::Model;
use vl_row::{Field, Text};

/// What is asked for the lines of an input, and when they come in.
#[derive(Drop)]
pub struct Arrival {
    options: Options,
    moment: i64,
}

impl Model for Arrival {
    ghost use Rattle.std.specs.Prelude.{◌≤ℤ◌, pos, unsigned_abs};
    ghost use Rattle.vl_pipe.specs.Groups.{Arrival as Came};

    ghost Value = { Came };

    ghost view = { λ a. record { options = a.options; moment = unsigned_abs a.moment } };

    ghost invariant = { λ a. pos 0 ≤ℤ a.moment };
}

impl Arrival {
    /// Lines come in at this moment. The labels of their rows are those of their fields that the list names, if one is
    /// given.
    pub fn at(alloc: Global, stream_fields: &Option<Text>, now: i64) -> Result<Arrival, AllocError>
        requires { pos 0 ≤ℤ now }
        ensures { IfOk result (λ arrival. arrival ≡ arrival_at stream_fields.now (unsigned_abs now)) }
    {
        let options = match stream_fields {
            Some(list) => labelled_by(alloc, list.as_str())?,
            None => Options::plain(alloc),
        };
        Ok(Arrival {
            options,
            moment: now,
        })
    }

    /// Returns what is asked for the lines.
    pub(crate) fn options(&self) -> &Options
        ensures { result.now ≡ self.now.options }
    {
        &self.options
    }

    /// When they come in, in nanoseconds since the start of 1970.
    pub(crate) fn moment(&self) -> i64
        ensures value { unsigned_abs result ≡ self.now.moment }
        ensures in_range { IsMoment result }
    {
        self.moment
    }
}

/// Returns the options by which the fields that the list names are the labels of rows.
#[tactic(auto, unfolding(ingest_row::specs::Asked::pieces, ingest_row::specs::Asked::extras_of))]
fn labelled_by(alloc: Global, list: &str) -> Result<Options, AllocError>
    ensures { IfOk result (λ options. options ≡ labelled_by (Some list.now)) }
{
    let name = Text::try_of(alloc, "_stream_fields")?;
    let value = Text::try_of(alloc, list)?;
    match Options::read(alloc, &[Field { name, value }]) {
        Ok(options) => Ok(options),
        Err(OptionFault::Memory) => Err(AllocError),
        Err(OptionFault::BadExtra) => unreachable!(),
    }
}
