//! Integers between two ends.

ghost use Rattle.std.specs.Prelude.{◌≡◌, ℤ, Bool, FitsSigned, IsTrue, length, true};
ghost use Rattle.std.specs.Int.{w64};
ghost use Rattle.std.specs.List.{All};
ghost use Rattle.block_body.specs.Outlines.{DoNotFall};
ghost use Rattle.lq_ast.specs.Holds.{is_recent, is_within};
ghost use Rattle.block_scan.specs.Marks.{kept};

use col_codec::IntColumn;

/// The ends between which integers are, both included.
#[derive(Clone, Copy)]
pub(crate) struct Ends {
    pub(crate) low: i128,
    pub(crate) high: i128,
}

impl Ends {
    /// Returns the ends of the last `span` nanoseconds before the moment `now`.
    pub(crate) fn recent(now: i64, span: i64) -> Ends
        ensures { (time : ℤ) → is_within result.low result.high time ≡ is_recent now span time }
    {
        Ends {
            low: now as i128 - (span as i128) + 1,
            high: now as i128,
        }
    }

    fn has(&self, int: i64) -> bool
        ensures { result ≡ is_within self.now.low self.now.high int }
    {
        let int = int as i128;
        self.low <= int && int <= self.high
    }
}

/// Keeps the marks of the integers between the ends.
pub(crate) fn keep_ints(ints: &IntColumn, ends: &Ends, marks: &mut [bool])
    requires { length marks.old ≡ length ints.now }
    ensures { (test : ℤ → Bool)
        → ((int : ℤ) → FitsSigned w64 int → is_within ends.now.low ends.now.high int ≡ test int)
        → marks.new ≡ kept test ints.now marks.old }
{
    for i in 0..marks.len() {
        marks[i] = marks[i] & ends.has(ints.get(i));
    }
}

/// Keeps the marks of the times between the ends. The times do not fall.
pub(crate) fn keep_times(times: &[i64], ends: &Ends, marks: &mut [bool])
    requires long { length marks.old ≡ length times.now }
    requires order { DoNotFall times.now }
    ensures { marks.new ≡ kept (is_within ends.now.low ends.now.high) times.now marks.old }
{
    if !have_all(ends, times) {
        keep_each_time(times, ends, marks);
    }
}

/// Returns whether all times are between the ends, as they are if the first and the last are.
fn have_all(ends: &Ends, times: &[i64]) -> bool
    requires { DoNotFall times.now }
    ensures { IsTrue result → All (λ time. is_within ends.now.low ends.now.high time ≡ true) times.now }
{
    let count = times.len();
    if count == 0 {
        return true;
    }
    let first = ends.has(times[0]);
    let last = ends.has(times[count - 1]);
    first & last
}

fn keep_each_time(times: &[i64], ends: &Ends, marks: &mut [bool])
    requires { length marks.old ≡ length times.now }
    ensures { marks.new ≡ kept (is_within ends.now.low ends.now.high) times.now marks.old }
{
    for i in 0..marks.len() {
        marks[i] = marks[i] & ends.has(times[i]);
    }
}
