// Numbers and literals.
ghost use Rattle.std.specs.Prelude.{◌≡◌, ◌∷◌, []};
ghost use Rattle.log_model.specs.Token.{scalar_text};
ghost use Rattle.jsonline_in.specs.Reading.{word_end, whole_end, fraction_end, signed_end, exponent_end};
ghost use Rattle.jsonline_in.specs.Reading.{unsigned_end, number_end, number_at, bare_at};
ghost use Rattle.jsonline_in.specs.Clauses.{ReadsAs, mapped};

use crate::scan::{digits, expect, past, prefix};
use crate::scan_fault::ScanFault;

/// Zero, or digits that begin with another.
#[tactic(auto, unfolding(crate::specs::Reading::whole_end))]
fn whole(text: &str) -> Result<&str, ScanFault>
    ensures { ReadsAs (λ rest. (tt, rest.now)) result (whole_end text.now) }
{
    match past(text, b'0') {
        Some(rest) => Ok(rest),
        None => digits(text),
    }
}

#[tactic(auto, unfolding(crate::specs::Reading::fraction_end))]
fn fraction(text: &str) -> Result<&str, ScanFault>
    ensures { ReadsAs (λ rest. (tt, rest.now)) result (fraction_end text.now) }
{
    match past(text, b'.') {
        Some(rest) => digits(rest),
        None => Ok(text),
    }
}

/// Digits that may have a sign.
#[tactic(auto, unfolding(crate::specs::Reading::signed_end))]
fn signed(text: &str) -> Result<&str, ScanFault>
    ensures { ReadsAs (λ rest. (tt, rest.now)) result (signed_end text.now) }
{
    if let Some(rest) = past(text, b'+') {
        return digits(rest);
    }
    match past(text, b'-') {
        Some(rest) => digits(rest),
        None => digits(text),
    }
}

#[tactic(auto, unfolding(crate::specs::Reading::exponent_end))]
fn exponent(text: &str) -> Result<&str, ScanFault>
    ensures { ReadsAs (λ rest. (tt, rest.now)) result (exponent_end text.now) }
{
    if let Some(rest) = past(text, b'e') {
        return signed(rest);
    }
    match past(text, b'E') {
        Some(rest) => signed(rest),
        None => Ok(text),
    }
}

#[tactic(auto, unfolding(crate::specs::Reading::unsigned_end))]
fn unsigned(text: &str) -> Result<&str, ScanFault>
    ensures { ReadsAs (λ rest. (tt, rest.now)) result (unsigned_end text.now) }
{
    exponent(fraction(whole(text)?)?)
}

#[tactic(auto, unfolding(crate::specs::Reading::number_end))]
fn number_end(text: &str) -> Result<&str, ScanFault>
    ensures { ReadsAs (λ rest. (tt, rest.now)) result (number_end text.now) }
{
    match past(text, b'-') {
        Some(rest) => unsigned(rest),
        None => unsigned(text),
    }
}

/// Returns a number as it is spelled.
#[tactic(auto, unfolding(crate::specs::Reading::number_at))]
fn number(text: &str) -> Result<(&str, &str), ScanFault>
    ensures { ReadsAs (λ x. (x.0.now, x.1.now)) result (number_at text.now) }
{
    let rest = number_end(text)?;
    Ok((prefix(text, rest), rest))
}

/// Returns what follows the `t`, and so for the two below.
fn rest_of_true(text: &str) -> Result<&str, ScanFault>
    ensures { ReadsAs (λ rest. (tt, rest.now)) result (word_end (114 ∷ 117 ∷ 101 ∷ []) text.now) }
{
    expect(expect(expect(text, b'r')?, b'u')?, b'e')
}

fn rest_of_false(text: &str) -> Result<&str, ScanFault>
    ensures { ReadsAs (λ rest. (tt, rest.now)) result (word_end (97 ∷ 108 ∷ 115 ∷ 101 ∷ []) text.now) }
{
    expect(expect(expect(expect(text, b'a')?, b'l')?, b's')?, b'e')
}

fn rest_of_null(text: &str) -> Result<&str, ScanFault>
    ensures { ReadsAs (λ rest. (tt, rest.now)) result (word_end (117 ∷ 108 ∷ 108 ∷ []) text.now) }
{
    expect(expect(expect(text, b'u')?, b'l')?, b'l')
}

/// Returns the text of a number or a literal, and what follows it.
#[tactic(auto, unfolding(crate::specs::Reading::bare_at))]
#[inline(never)]
pub(crate) fn bare(text: &str) -> Result<(&str, &str), ScanFault>
    ensures { ReadsAs (λ x. (x.0.now, x.1.now)) result (mapped scalar_text (bare_at text.now)) }
{
    if let Some(rest) = past(text, b't') {
        return Ok(("true", rest_of_true(rest)?));
    }
    if let Some(rest) = past(text, b'f') {
        return Ok(("false", rest_of_false(rest)?));
    }
    if let Some(rest) = past(text, b'n') {
        return Ok(("", rest_of_null(rest)?));
    }
    number(text)
}
