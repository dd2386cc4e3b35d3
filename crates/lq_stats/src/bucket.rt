//! Buckets of moments.
ghost use Rattle.std.specs.Prelude.{◌≡◌, ◌-◌, ◌%◌, ◌≤ℤ◌, [], IfOk, pos, unsigned_abs};
ghost use Rattle.std.specs.Option.{option_map_or};
ghost use Rattle.log_model.specs.Moment.{moment_text};
ghost use Rattle.lq_ast.specs.Groups.{bucket_text, moment_of};

use std::alloc::{AllocError, Global};
use time_text::{read_moment, write_moment};
use vl_row::Text;

/// The first moment of a bucket and its text. The text is made again only for a moment that lies in another bucket.
#[derive(Drop)]
pub(crate) struct Bucket {
    first: i64,
    text: Text,
    ghost same: { text ≡ moment_text (unsigned_abs first) },
}

impl Bucket {
    /// Returns the bucket whose first moment this is.
    pub(crate) fn at(alloc: Global, first: i64) -> Result<Bucket, AllocError>
        requires { pos 0 ≤ℤ first }
        ensures { IfOk result (λ bucket. bucket.first ≡ first) }
    {
        let mut text = Text::new();
        write_moment(alloc, first, &mut text)?;
        Ok(Bucket { first, text })
    }

    /// Returns the first moment of the bucket in which the moment lies that a text says; empty where it says none.
    pub(crate) fn text_of<'a>(
        &'a mut self,
        alloc: Global,
        text: &str,
        step: i64,
    ) -> Result<&'a str, AllocError>
        ensures { IfOk result (λ bucket.
            bucket.now ≡ option_map_or (bucket_text (unsigned_abs step)) (moment_of text.now) []) }
    {
        match read_moment(text) {
            Ok(moment) => self.text_at(alloc, first_moment(moment, step)),
            Err(_) => Ok(""),
        }
    }

    /// Returns the text of the moment, which is the first of a bucket.
    fn text_at(&mut self, alloc: Global, first: i64) -> Result<&str, AllocError>
        requires { pos 0 ≤ℤ first }
        ensures { IfOk result (λ text. text.now ≡ moment_text (unsigned_abs first)) }
    {
        if self.first != first {
            *self = Bucket::at(alloc, first)?;
        }
        Ok(self.text.as_str())
    }
}

/// Returns the first moment of the bucket of this many nanoseconds in which a moment lies.
fn first_moment(moment: i64, step: i64) -> i64
    requires { pos 0 ≤ℤ moment }
    ensures { result ≡ pos (unsigned_abs moment - unsigned_abs moment % unsigned_abs step) }
{
    let moment = moment.unsigned_abs();
    match moment.checked_rem(step.unsigned_abs()) {
        Some(over) => (moment - over) as i64,
        None => 0,
    }
}
