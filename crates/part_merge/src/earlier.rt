//! Which rows of a pick are earlier than another pick.

ghost use Rattle.std.specs.Prelude.{◌≡◌, ◌<◌, ◌≤◌, IfSome, IsTrue, length, slice_get, take};
ghost use Rattle.std.specs.Ordering.{is_lt};
ghost use Rattle.block_format.specs.Rows.{key_in, labels_of};
ghost use Rattle.part_model.specs.Order.{labels_cmp};
ghost use Rattle.part_merge.specs.Before.{are_before, keys_cmp};

use part_model::labels_cmp;
use part_picks::Pick;
use std::cmp::Ordering;

/// The time of a row, the number of its batch, and its place there.
type Key = (i64, u64, u32);

/// Whether the first row of the pick is earlier than the first of the other.
pub(crate) fn is_earlier(pick: &Pick<'_>, other: &Pick<'_>) -> bool
    ensures first { result ≡ are_before (take 1 pick.now) (take 1 other.now) }
    ensures some { 0 < length pick.now }
    ensures other { 0 < length other.now }
{
    let _some = (pick.len(), other.len());
    match stream_cmp(pick, other) {
        Ordering::Less => true,
        Ordering::Equal => is_key_earlier(pick, 0, first_key(other)),
        Ordering::Greater => false,
    }
}

/// How many of the first rows are earlier than the first of the other, by binary search. The first row is. The first
/// steps are short and double, as mostly few rows are.
pub(crate) fn earlier_rows(pick: &Pick<'_>, other: &Pick<'_>) -> usize
    requires { IsTrue (are_before (take 1 pick.now) (take 1 other.now)) }
    ensures some { 0 < result }
    ensures there { result ≤ length pick.now }
    ensures before { IsTrue (are_before (take result pick.now) (take 1 other.now)) }
{
    pick.rules();
    let last = pick.len() - 1;
    if stream_cmp(pick, other).is_ne() {
        return last + 1;
    }
    let key = first_key(other);
    if is_key_earlier(pick, last, key) {
        return last + 1;
    }
    let mut low = 1;
    let mut high = last;
    while low < high {
        let middle = low + ((high - low) / 2).min(low - 1);
        if is_key_earlier(pick, middle, key) {
            low = middle + 1;
        } else {
            high = middle;
        }
    }
    low
}

/// The order of the two streams.
fn stream_cmp(pick: &Pick<'_>, other: &Pick<'_>) -> Ordering
    ensures { result ≡ labels_cmp (labels_of pick.now) (labels_of other.now) }
{
    let labels = pick.stream().as_slice();
    labels_cmp(labels, other.stream().as_slice())
}

fn first_key(pick: &Pick<'_>) -> Key
    ensures some { 0 < length pick.now }
    ensures key { IfSome (slice_get pick.now 0) (λ row. result ≡ key_in row) }
{
    let _some = pick.len();
    pick.key(0)
}

/// Whether the key of a row comes before this one.
fn is_key_earlier(pick: &Pick<'_>, i: usize, key: Key) -> bool
    requires { i < length pick.now }
    ensures { IfSome (slice_get pick.now i) (λ row. result ≡ is_lt (keys_cmp (key_in row) key)) }
{
    let (time, batch, place) = pick.key(i);
    let batches = time.cmp(&key.0).then(batch.cmp(&key.1));
    batches.then(place.cmp(&key.2)).is_lt()
}
