//! What a filter is asked of.
ghost use Rattle.std.specs.Prelude.{◌≡◌, ◌-ℤ◌, ◌&&◌, pos, int_le, int_lt, false};
ghost use Rattle.std.specs.Option.{option_map_or};
ghost use Rattle.lq_ast.specs.Holds.{is_recent, is_within};
ghost use Rattle.lq_filter.specs.Subject.{subject_of};

use lent_row::LentRow;
use vl_row::FieldList;

/// What a filter is asked of.
#[derive(Drop)]
pub(crate) enum Subject<'s, R> {
    /// A row, at the moment `now`, in nanoseconds since 1970.
    Row { now: i64, row: &'s R },
    /// A record, which is of no moment and of no stream.
    Record(&'s FieldList),
}

impl<'s, R: LentRow> Subject<'s, R> {
    /// Returns whether it is of the last `span` nanoseconds, and not of the future.
    pub(crate) fn is_recent(&self, span: i64) -> bool
        ensures { result ≡ option_map_or (is_recent (subject_of R.event self.now).now span)
            (subject_of R.event self.now).moment false }
    {
        match self {
            Subject::Row { now, row } => is_recent(*now, span, *row),
            Subject::Record(_) => false,
        }
    }

    /// Returns whether its moment is between the ends, both included.
    pub(crate) fn is_during(&self, from: i128, to: i128) -> bool
        ensures { result ≡ option_map_or (is_within from to) (subject_of R.event self.now).moment false }
    {
        match self {
            Subject::Row { row, .. } => is_during(from, to, *row),
            Subject::Record(_) => false,
        }
    }
}

// Returns whether the row is younger than this many nanoseconds, and not of the future.
fn is_recent<R: LentRow>(now: i64, span: i64, row: &R) -> bool
    ensures { result ≡ (int_lt (now -ℤ span) (pos (R.event row.now).moment)
        && int_le (pos (R.event row.now).moment) now) }
{
    let time = row.time();
    now as i128 - (span as i128) < time as i128 && time <= now
}

fn is_during<R: LentRow>(from: i128, to: i128, row: &R) -> bool
    ensures { result ≡ is_within from to (pos (R.event row.now).moment) }
{
    let time = row.time() as i128;
    from <= time && time <= to
}
