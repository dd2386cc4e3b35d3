//! Tests of a value.
ghost use Rattle.std.specs.Prelude.{◌≡◌, ◌≤◌, ◌&&◌, false, not, nat_le, length, chars, bytes_eq};
ghost use Rattle.std.specs.Prelude.{IfOk, if◌then◌else◌};
ghost use Rattle.std.specs.List.{list_any};
ghost use Rattle.std.specs.Option.{option_map_or};
ghost use Rattle.std.specs.Ordering.{is_lt};
ghost use Rattle.log_model.specs.Field.{bytes_cmp, is_empty};
ghost use Rattle.log_model.specs.Order.{number_of};
ghost use Rattle.log_model.specs.Words.{occurs};
ghost use Rattle.lq_ast.specs.Holds.{is_within};
ghost use Rattle.lq_ast.specs.Phrases.{case_folded, in_order};
ghost use Rattle.word_tokens.specs.Prefix.{occurs_as_prefix};

use caseless::default_case_fold_str;
use std::alloc::{AllocError, Global};
use vl_row::{Text, number};
use word_tokens::plain;
use word_tokens::plain::stands_at;

/// Returns whether the value contains the phrase. An empty phrase always matches.
pub(crate) fn has_phrase(value: &str, phrase: &str) -> bool
    ensures { result ≡ occurs value.now phrase.now }
{
    phrase.is_empty() || plain::has_phrase(value, phrase)
}

/// Returns whether a word of the value starts with the prefix. An empty prefix matches every value that is not empty.
pub(crate) fn has_prefix(value: &str, prefix: &str) -> bool
    ensures { result ≡ (if is_empty prefix.now then not (is_empty value.now)
        else occurs_as_prefix value.now prefix.now) }
{
    if prefix.is_empty() {
        !value.is_empty()
    } else {
        plain::has_prefix(value, prefix)
    }
}

/// Returns whether the value is one of the texts.
pub(crate) fn is_one_of(value: &str, texts: &[Text]) -> bool
    ensures { result ≡ list_any (bytes_eq value.now) texts.now }
{
    match texts {
        [] => false,
        [text, others @ ..] => value == text.as_str() || is_one_of(value, others),
    }
}

/// Returns whether the value contains the phrase, ignoring case. An empty phrase matches only an empty value.
pub(crate) fn has_folded(alloc: Global, value: &str, phrase: &str) -> Result<bool, AllocError>
    ensures { IfOk result (λ found. found ≡ (if is_empty phrase.now then is_empty value.now
        else occurs (case_folded value.now) (case_folded phrase.now))) }
{
    if phrase.is_empty() {
        return Ok(value.is_empty());
    }
    let value = default_case_fold_str(alloc, value)?;
    let phrase = default_case_fold_str(alloc, phrase)?;
    Ok(has_phrase(value.as_str(), phrase.as_str()))
}

/// Returns whether the value has from `low` to `high` characters, both included.
pub(crate) fn has_length(value: &str, low: u64, high: u64) -> bool
    ensures { result ≡ (nat_le low (length (chars value.now)) && nat_le (length (chars value.now)) high) }
{
    let length = characters(value) as u64;
    !(length < low || high < length)
}

fn characters(value: &str) -> usize
    ensures { result ≡ length (chars value.now) }
{
    value.chars().count()
}

/// Returns whether the value is at least `low` and less than `high`, by bytes.
pub(crate) fn is_between(value: &str, low: &str, high: &str) -> bool
    ensures { result ≡ (not (is_lt (bytes_cmp value.now low.now)) && is_lt (bytes_cmp value.now high.now)) }
{
    !(value < low) && value < high
}

/// Returns whether the value is a number from `low` to `high`, both included.
pub(crate) fn is_number_within(value: &str, low: i128, high: i128) -> bool
    ensures { result ≡ option_map_or (is_within low high) (number_of value.now) false }
{
    let Some(number) = number(value) else {
        return false;
    };
    is_within(low, high, number as i128)
}

/// Returns whether the number is from `low` to `high`, both included.
pub(crate) fn is_within(low: i128, high: i128, number: i128) -> bool
    ensures { result ≡ is_within low high number }
{
    !(number < low || high < number)
}

/// Returns whether the value contains the phrases in this order: the first at `from` or later, and each other one at
/// the end of the one before it or later. Empty phrases are skipped.
pub(crate) fn are_in_order(value: &str, from: usize, phrases: &[Text]) -> bool
    requires { from ≤ length value.now }
    ensures { result ≡ in_order value.now from phrases.now }
{
    let [phrase, others @ ..] = phrases else {
        return true;
    };
    let phrase = phrase.as_str();
    if phrase.is_empty() {
        return are_in_order(value, from, others);
    }
    for place in from..value.len() + 1 {
        if stands_at(value, phrase, place) && are_in_order(value, place + phrase.len(), others) {
            return true;
        }
    }
    false
}
