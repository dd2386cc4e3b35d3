//! Dictionaries that were read. They are mostly as they would be made.

ghost use Rattle.std.specs.Prelude.{◌≡◌, ◌↔◌, ◌-◌, ◌<◌, IfOk, IsTrue, false, length, map, nat_eq, nat_lt, not, true, ℕ};
ghost use Rattle.std.specs.List.{list_all, list_any};
ghost use Rattle.std.specs.List.Sorted.{IsStrictlySortedBy};
ghost use Rattle.std.specs.declared.cmp.Ordering.TheVariants.{Less};
ghost use Rattle.block_column.specs.Cells.{IsFirst};
ghost use Rattle.block_column.specs.Kinds.{is_number};
ghost use Rattle.block_model.specs.Distinct.{is_short, text_at};
ghost use Rattle.log_model.specs.Field.{bytes_cmp};

use crate::cells::Cells;
use crate::codes::MAX_VALUES;
use crate::kept::are_short;
use crate::kinds::are_integers;
use crate::members::each_of;
use col_codec::TextColumn;
use std::alloc::{AllocError, Global};

/// Whether the dictionary of these texts and codes is the first kind that fits the texts of the rows, and is as it
/// would be made: it has two texts or more, each is above the one before and is used, and one is no number.
pub(crate) fn is_first_dictionary(
    alloc: Global,
    held: &TextColumn,
    codes: &Vec<u8>,
) -> Result<bool, AllocError>
    requires { list_all (λ code. nat_lt code (length held.now)) codes.now.items ≡ true }
    ensures { IfOk result (λ first. IsTrue first → IsFirst (Cells.Dictionary held.now codes.now)) }
{
    if held.len() < 2 || held.len() > MAX_VALUES {
        return Ok(false);
    }
    let texts = each_of(alloc, held)?;
    if !are_made(held, texts.as_slice()) {
        return Ok(false);
    }
    let used = are_all_used(alloc, codes.as_slice(), held.len())?;
    Ok(used)
}

/// Whether each text is above the one before, none is long, and one is no number.
fn are_made(held: &TextColumn, texts: &[&str]) -> bool
    requires { map (λ t. t.now) texts.now ≡ held.now }
    ensures rising { IsTrue result → IsStrictlySortedBy bytes_cmp held.now }
    ensures short { IsTrue result → list_all is_short held.now ≡ true }
    ensures numbers { IsTrue result → list_all is_number held.now ≡ false }
{
    are_rising(held) && none_is_long(texts) && have_text(texts)
}

fn none_is_long(texts: &[&str]) -> bool
    ensures { result ≡ list_all is_short (map (λ t. t.now) texts.now) }
{
    are_short(texts)
}

/// Whether one is no number.
fn have_text(texts: &[&str]) -> bool
    ensures { result ≡ not (list_all is_number (map (λ t. t.now) texts.now)) }
{
    !are_integers(texts)
}

/// Whether each text is above the one before.
fn are_rising(held: &TextColumn) -> bool
    ensures { IsTrue result → IsStrictlySortedBy bytes_cmp held.now }
{
    for i in 1..held.len() {
        if !is_rising_at(held, i) {
            return false;
        }
    }
    true
}

/// Whether the text at this place is above the one before.
fn is_rising_at(held: &TextColumn, i: usize) -> bool
    requires later { 0 < i }
    requires within { i < length held.now }
    ensures { IsTrue result → bytes_cmp (text_at held.now (i - 1)) (text_at held.now i) ≡ Less }
{
    let before = held.get(i - 1);
    let text = held.get(i);
    is_below(before, text)
}

fn is_below(text: &str, other: &str) -> bool
    ensures { IsTrue result ↔ (bytes_cmp text.now other.now ≡ Less) }
{
    text.cmp(other).is_lt()
}

/// Whether each code below the count is there.
fn are_all_used(alloc: Global, codes: &[u8], count: usize) -> Result<bool, AllocError>
    requires { list_all (λ code. nat_lt code count) codes.now ≡ true }
    ensures { IfOk result (λ all. IsTrue all → (code : ℕ) → code < count → list_any (nat_eq code) codes.now ≡ true) }
{
    let mut used = vec![in alloc; false; count]?;
    for code in codes {
        used[*code as usize] = true;
    }
    let all = are_true(used.as_slice());
    Ok(all)
}

fn are_true(used: &[bool]) -> bool
    ensures { result ≡ list_all (λ is_used. is_used) used.now }
{
    used.iter().all(|is_used| *is_used)
}
