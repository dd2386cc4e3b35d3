//! Numbers of one width.

ghost use Rattle.std.specs.Prelude.{◌≡◌, ◌<◌, ◌++◌, IfOk, OnOk, length, max, nat_eq, slice_index};
ghost use Rattle.std.specs.Int.{to_le_bytes, w8, w16};
ghost use Rattle.std.specs.List.{All, flat_map, fold, list_any};
ghost use Rattle.byte_format.specs.Format.{front, many};
ghost use Rattle.byte_format.specs.Gives.{Gives};
ghost use Rattle.byte_format.specs.Items.{number};
ghost use Rattle.col_codec.specs.Lanes.{numbers_in, width_of};
ghost use Rattle.col_codec.specs.Widths.{bits_of, limit};

use crate::width::IntWidth;
use byte_format::{Stop, put_u32s, put_u64s, take_u16, take_u32s, take_u64s};
use std::alloc::{AllocError, Global};

/// Numbers of one width.
#[derive(Drop)]
pub(crate) enum Lanes {
    One(Vec<u8>),
    Two(Vec<u16>),
    Four(Vec<u32>),
    Eight(Vec<u64>),
}

pub(crate) fn width_of(lanes: &Lanes) -> IntWidth
    ensures { result ≡ width_of lanes.now }
{
    match lanes {
        Lanes::One(_) => IntWidth::One,
        Lanes::Two(_) => IntWidth::Two,
        Lanes::Four(_) => IntWidth::Four,
        Lanes::Eight(_) => IntWidth::Eight,
    }
}

/// How many numbers there are.
pub(crate) fn count_of(lanes: &Lanes) -> usize
    ensures { result ≡ length (numbers_in lanes.now) }
{
    match lanes {
        Lanes::One(numbers) => numbers.len(),
        Lanes::Two(numbers) => numbers.len(),
        Lanes::Four(numbers) => numbers.len(),
        Lanes::Eight(numbers) => numbers.len(),
    }
}

pub(crate) fn number_at(lanes: &Lanes, i: usize) -> u64
    requires { i < length (numbers_in lanes.now) }
    ensures { result ≡ slice_index (numbers_in lanes.now) i }
{
    match lanes {
        Lanes::One(numbers) => numbers[i] as u64,
        Lanes::Two(numbers) => numbers[i] as u64,
        Lanes::Four(numbers) => numbers[i] as u64,
        Lanes::Eight(numbers) => numbers[i],
    }
}

/// The greatest of the numbers, or 0 if there is none.
pub(crate) fn most_of(lanes: &Lanes) -> u64
    ensures { result ≡ fold max 0 (numbers_in lanes.now) }
{
    let mut most = 0;
    for i in 0..count_of(lanes) {
        most = most.max(number_at(lanes, i));
    }
    most
}

pub(crate) fn have_zero(lanes: &Lanes) -> bool
    ensures { result ≡ list_any (nat_eq 0) (numbers_in lanes.now) }
{
    for i in 0..count_of(lanes) {
        if 0 == number_at(lanes, i) {
            return true;
        }
    }
    false
}

/// The same numbers, in this width.
pub(crate) fn narrowed(
    alloc: Global,
    width: IntWidth,
    numbers: Vec<u64>,
) -> Result<Lanes, AllocError>
    requires { All (λ n. n < limit width) numbers.items }
    ensures numbers { IfOk result (λ lanes. numbers_in lanes ≡ numbers.items) }
    ensures width { IfOk result (λ lanes. width_of lanes ≡ width) }
{
    match width {
        IntWidth::One => Ok(Lanes::One(to_u8s(alloc, numbers.as_slice())?)),
        IntWidth::Two => Ok(Lanes::Two(to_u16s(alloc, numbers.as_slice())?)),
        IntWidth::Four => Ok(Lanes::Four(to_u32s(alloc, numbers.as_slice())?)),
        IntWidth::Eight => Ok(Lanes::Eight(numbers)),
    }
}

fn to_u8s(alloc: Global, numbers: &[u64]) -> Result<Vec<u8>, AllocError>
    requires { All (λ n. n < 256) numbers.now }
    ensures { IfOk result (λ narrow. narrow.items ≡ numbers.now) }
{
    let mut narrow = Vec::with_capacity(alloc, numbers.len())?;
    for n in numbers {
        narrow.push(*n as u8)?;
    }
    Ok(narrow)
}

fn to_u16s(alloc: Global, numbers: &[u64]) -> Result<Vec<u16>, AllocError>
    requires { All (λ n. n < 65_536) numbers.now }
    ensures { IfOk result (λ narrow. narrow.items ≡ numbers.now) }
{
    let mut narrow = Vec::with_capacity(alloc, numbers.len())?;
    for n in numbers {
        narrow.push(*n as u16)?;
    }
    Ok(narrow)
}

fn to_u32s(alloc: Global, numbers: &[u64]) -> Result<Vec<u32>, AllocError>
    requires { All (λ n. n < 4_294_967_296) numbers.now }
    ensures { IfOk result (λ narrow. narrow.items ≡ numbers.now) }
{
    let mut narrow = Vec::with_capacity(alloc, numbers.len())?;
    for n in numbers {
        narrow.push(*n as u32)?;
    }
    Ok(narrow)
}

/// Equal numbers, in memory of their own.
pub(crate) fn try_copy(alloc: Global, lanes: &Lanes) -> Result<Lanes, AllocError>
    ensures numbers { IfOk result (λ copy. numbers_in copy ≡ numbers_in lanes.now) }
    ensures width { IfOk result (λ copy. width_of copy ≡ width_of lanes.now) }
{
    match lanes {
        Lanes::One(numbers) => Ok(Lanes::One(numbers.to_vec(alloc)?)),
        Lanes::Two(numbers) => Ok(Lanes::Two(numbers.to_vec(alloc)?)),
        Lanes::Four(numbers) => Ok(Lanes::Four(numbers.to_vec(alloc)?)),
        Lanes::Eight(numbers) => Ok(Lanes::Eight(numbers.to_vec(alloc)?)),
    }
}

/// Appends the numbers, each with its least byte first.
pub(crate) fn put_lanes(out: &mut Vec<u8>, lanes: &Lanes) -> Result<(), AllocError>
    ensures { OnOk result (out.new.items ≡ out.old.items
        ++ flat_map (to_le_bytes (bits_of (width_of lanes.now))) (numbers_in lanes.now)) }
{
    match lanes {
        Lanes::One(numbers) => put_u8s(out, numbers.as_slice())?,
        Lanes::Two(numbers) => put_u16s(out, numbers.as_slice())?,
        Lanes::Four(numbers) => put_u32s(out, numbers.as_slice())?,
        Lanes::Eight(numbers) => put_u64s(out, numbers.as_slice())?,
    }
    Ok(())
}

fn put_u8s(out: &mut Vec<u8>, numbers: &[u8]) -> Result<(), AllocError>
    ensures { OnOk result (out.new.items ≡ out.old.items ++ flat_map (to_le_bytes w8) numbers.now) }
{
    out.extend_from_slice(numbers)?;
    Ok(())
}

fn put_u16s(out: &mut Vec<u8>, numbers: &[u16]) -> Result<(), AllocError>
    ensures { OnOk result (out.new.items ≡ out.old.items ++ flat_map (to_le_bytes w16) numbers.now) }
{
    for n in numbers {
        out.extend_from_slice(&n.to_le_bytes())?;
    }
    Ok(())
}

/// So many numbers of this width at the front of the bytes, and the bytes after them. Reserves memory only for those
/// that the bytes can hold.
pub(crate) fn take_lanes(
    alloc: Global,
    count: usize,
    width: IntWidth,
    bytes: &[u8],
) -> Result<(Lanes, &[u8]), Stop>
    ensures value { Gives (λ x. (numbers_in x.0, x.1.now)) result
        (front (many count (number (bits_of width))) bytes.now) }
    ensures width { IfOk result (λ x. width_of x.0 ≡ width) }
{
    match width {
        IntWidth::One => {
            let (numbers, rest) = take_u8s(alloc, count, bytes)?;
            Ok((Lanes::One(numbers), rest))
        }
        IntWidth::Two => {
            let (numbers, rest) = take_u16s(alloc, count, bytes)?;
            Ok((Lanes::Two(numbers), rest))
        }
        IntWidth::Four => {
            let (numbers, rest) = take_u32s(alloc, count, bytes)?;
            Ok((Lanes::Four(numbers), rest))
        }
        IntWidth::Eight => {
            let (numbers, rest) = take_u64s(alloc, count, bytes)?;
            Ok((Lanes::Eight(numbers), rest))
        }
    }
}

fn take_u8s(alloc: Global, count: usize, bytes: &[u8]) -> Result<(Vec<u8>, &[u8]), Stop>
    ensures { Gives (λ x. (x.0.items, x.1.now)) result (front (many count (number w8)) bytes.now) }
{
    if bytes.len() < count {
        return Err(Stop::Left(0));
    }
    let (numbers, rest) = bytes.split_at(count);
    Ok((numbers.to_vec(alloc)?, rest))
}

fn take_u16s(alloc: Global, count: usize, bytes: &[u8]) -> Result<(Vec<u16>, &[u8]), Stop>
    ensures { Gives (λ x. (x.0.items, x.1.now)) result (front (many count (number w16)) bytes.now) }
{
    let mut numbers = Vec::with_capacity(alloc, count.min(bytes.len() / 2))?;
    let mut rest = bytes;
    for _ in 0..count {
        let (n, after) = take_u16(rest)?;
        numbers.push(n)?;
        rest = after;
    }
    Ok((numbers, rest))
}
