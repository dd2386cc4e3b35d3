// Numbers and literals.
ghost use Rattle.std.specs.Prelude.{◌≡◌, ◌∷◌, []};
ghost use Rattle.log_model.specs.Token.{scalar_text};
ghost use Rattle.jsonline_in.specs.Reading.{word_end, whole_end, fraction_end, signed_end, exponent_end};
ghost use Rattle.jsonline_in.specs.Reading.{number_end, bare_at};
ghost use Rattle.jsonline_in.specs.Clauses.{ReadsAs, mapped};

use crate::scan::{digits, expect, past, prefix};
use jsonline_in::ScanFault;

/// int = zero / ( digit1-9 *DIGIT )
#[tactic(auto, unfolding(jsonline_in::specs::Reading::whole_end))]
fn int(text: &str) -> Result<&str, ScanFault>
    ensures { ReadsAs (λ rest. (tt, rest.now)) result (whole_end text.now) }
{
    if let Some(rest) = past(text, b'0') {
        return Ok(rest);
    }
    digits(text)
}

/// [ decimal-point 1*DIGIT ]
#[tactic(auto, unfolding(jsonline_in::specs::Reading::fraction_end))]
fn frac(text: &str) -> Result<&str, ScanFault>
    ensures { ReadsAs (λ rest. (tt, rest.now)) result (fraction_end text.now) }
{
    let Some(rest) = past(text, b'.') else {
        return Ok(text);
    };
    digits(rest)
}

/// [ minus / plus ] 1*DIGIT
#[tactic(auto, unfolding(jsonline_in::specs::Reading::signed_end))]
fn signed(text: &str) -> Result<&str, ScanFault>
    ensures { ReadsAs (λ rest. (tt, rest.now)) result (signed_end text.now) }
{
    match (past(text, b'+'), past(text, b'-')) {
        (Some(rest), _) => digits(rest),
        (None, Some(rest)) => digits(rest),
        (None, None) => digits(text),
    }
}

/// [ e [ minus / plus ] 1*DIGIT ]
#[tactic(auto, unfolding(jsonline_in::specs::Reading::exponent_end))]
fn exp(text: &str) -> Result<&str, ScanFault>
    ensures { ReadsAs (λ rest. (tt, rest.now)) result (exponent_end text.now) }
{
    match (past(text, b'e'), past(text, b'E')) {
        (Some(rest), _) => signed(rest),
        (None, Some(rest)) => signed(rest),
        (None, None) => Ok(text),
    }
}

/// number = [ minus ] int [ frac ] [ exp ]
#[tactic(auto, unfolding(jsonline_in::specs::Reading::number_end, jsonline_in::specs::Reading::unsigned_end))]
fn number_end(text: &str) -> Result<&str, ScanFault>
    ensures { ReadsAs (λ rest. (tt, rest.now)) result (number_end text.now) }
{
    let Some(rest) = past(text, b'-') else {
        return exp(frac(int(text)?)?);
    };
    exp(frac(int(rest)?)?)
}

/// Matches `true` after its first letter, and returns the rest.
fn after_t(text: &str) -> Result<&str, ScanFault>
    ensures { ReadsAs (λ rest. (tt, rest.now)) result (word_end (114 ∷ 117 ∷ 101 ∷ []) text.now) }
{
    let text = expect(text, b'r')?;
    let text = expect(text, b'u')?;
    expect(text, b'e')
}

fn after_f(text: &str) -> Result<&str, ScanFault>
    ensures { ReadsAs (λ rest. (tt, rest.now)) result (word_end (97 ∷ 108 ∷ 115 ∷ 101 ∷ []) text.now) }
{
    let text = expect(text, b'a')?;
    let text = expect(text, b'l')?;
    let text = expect(text, b's')?;
    expect(text, b'e')
}

fn after_n(text: &str) -> Result<&str, ScanFault>
    ensures { ReadsAs (λ rest. (tt, rest.now)) result (word_end (117 ∷ 108 ∷ 108 ∷ []) text.now) }
{
    let text = expect(text, b'u')?;
    let text = expect(text, b'l')?;
    expect(text, b'l')
}

/// Parses a number or a literal. Returns its text and the rest.
#[tactic(auto, unfolding(jsonline_in::specs::Reading::bare_at, jsonline_in::specs::Reading::number_at))]
pub(crate) fn bare(text: &str) -> Result<(&str, &str), ScanFault>
    ensures { ReadsAs (λ x. (x.0.now, x.1.now)) result (mapped scalar_text (bare_at text.now)) }
{
    if let Some(rest) = past(text, b't') {
        return Ok(("true", after_t(rest)?));
    }
    if let Some(rest) = past(text, b'f') {
        return Ok(("false", after_f(rest)?));
    }
    if let Some(rest) = past(text, b'n') {
        return Ok(("", after_n(rest)?));
    }
    let rest = number_end(text)?;
    Ok((prefix(text, rest), rest))
}
