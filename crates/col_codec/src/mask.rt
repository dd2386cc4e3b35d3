//! Which integers lie between two bounds. The bounds are moved once, and then the numbers are compared as they are
//! held.

ghost use Rattle.std.specs.Prelude.{◌≡◌, false, length, map, replicate};
ghost use Rattle.col_codec.specs.Between.{above, is_between, is_number_between};
ghost use Rattle.col_codec.specs.Lanes.{ints_in, numbers_in};

use crate::lanes::Lanes;

/// Marks each integer that is at least `low` and at most `high`.
pub(crate) fn mark_ints(least: i64, lanes: &Lanes, low: i64, high: i64, marks: &mut [bool])
    requires { length marks.old ≡ length (numbers_in lanes.now) }
    ensures { marks.new ≡ map (is_between low high) (ints_in least lanes.now) }
{
    if high < least {
        clear(marks);
        return;
    }
    mark_numbers(lanes, above(least, low), above(least, high), marks);
}

/// How far the integer lies above the least, and 0 if it lies below.
fn above(least: i64, int: i64) -> u64
    ensures { result ≡ above least int }
{
    if int < least { 0 } else { int.abs_diff(least) }
}

/// Marks each number that is at least `low` and at most `high`.
fn mark_numbers(lanes: &Lanes, low: u64, high: u64, marks: &mut [bool])
    requires { length marks.old ≡ length (numbers_in lanes.now) }
    ensures { marks.new ≡ map (is_number_between low high) (numbers_in lanes.now) }
{
    match lanes {
        Lanes::One(numbers) => mark_ones(numbers.as_slice(), low, high, marks),
        Lanes::Two(numbers) => mark_twos(numbers.as_slice(), low, high, marks),
        Lanes::Four(numbers) => mark_fours(numbers.as_slice(), low, high, marks),
        Lanes::Eight(numbers) => mark_u64s(numbers.as_slice(), low, high, marks),
    }
}

fn mark_ones(numbers: &[u8], low: u64, high: u64, marks: &mut [bool])
    requires { length marks.old ≡ length numbers.now }
    ensures { marks.new ≡ map (is_number_between low high) numbers.now }
{
    if low > 255 {
        clear(marks);
        return;
    }
    mark_u8s(numbers, low as u8, high.min(255) as u8, marks);
}

fn mark_twos(numbers: &[u16], low: u64, high: u64, marks: &mut [bool])
    requires { length marks.old ≡ length numbers.now }
    ensures { marks.new ≡ map (is_number_between low high) numbers.now }
{
    if low > 65_535 {
        clear(marks);
        return;
    }
    mark_u16s(numbers, low as u16, high.min(65_535) as u16, marks);
}

fn mark_fours(numbers: &[u32], low: u64, high: u64, marks: &mut [bool])
    requires { length marks.old ≡ length numbers.now }
    ensures { marks.new ≡ map (is_number_between low high) numbers.now }
{
    if low > 4_294_967_295 {
        clear(marks);
        return;
    }
    mark_u32s(numbers, low as u32, high.min(4_294_967_295) as u32, marks);
}

fn mark_u8s(numbers: &[u8], low: u8, high: u8, marks: &mut [bool])
    requires { length marks.old ≡ length numbers.now }
    ensures { marks.new ≡ map (is_number_between low high) numbers.now }
{
    for (i, n) in numbers.iter().enumerate() {
        marks[i] = (low <= *n) & (*n <= high);
    }
}

fn mark_u16s(numbers: &[u16], low: u16, high: u16, marks: &mut [bool])
    requires { length marks.old ≡ length numbers.now }
    ensures { marks.new ≡ map (is_number_between low high) numbers.now }
{
    for (i, n) in numbers.iter().enumerate() {
        marks[i] = (low <= *n) & (*n <= high);
    }
}

fn mark_u32s(numbers: &[u32], low: u32, high: u32, marks: &mut [bool])
    requires { length marks.old ≡ length numbers.now }
    ensures { marks.new ≡ map (is_number_between low high) numbers.now }
{
    for (i, n) in numbers.iter().enumerate() {
        marks[i] = (low <= *n) & (*n <= high);
    }
}

fn mark_u64s(numbers: &[u64], low: u64, high: u64, marks: &mut [bool])
    requires { length marks.old ≡ length numbers.now }
    ensures { marks.new ≡ map (is_number_between low high) numbers.now }
{
    for (i, n) in numbers.iter().enumerate() {
        marks[i] = (low <= *n) & (*n <= high);
    }
}

/// Takes each mark away.
fn clear(marks: &mut [bool])
    ensures { marks.new ≡ replicate (length marks.old) false }
{
    marks.fill(false);
}
