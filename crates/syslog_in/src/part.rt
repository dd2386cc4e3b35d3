//! The parts of a header, each up to a blank or the end.
ghost use Rattle.std.specs.Prelude.{◌≡◌, IfOk, IfErr, IfSome, IfNone, List, ℕ, length, IsFalse, IsTrue};
ghost use Rattle.std.specs.Option.{option_map};
ghost use Rattle.std.specs.List.{list_all, prefix_len};
ghost use Rattle.syslog_in.specs.Message.{is_visible, IsName};
ghost use Rattle.syslog_in.specs.DataReading.{first_part, behind_part, is_end};
ghost use Rattle.syslog_in.specs.HeaderReading.{past};
ghost use Rattle.syslog_in.specs.Parts.{Behind, Stands};

use memchr::memchr;

/// Returns the bytes up to the first blank, and those after it.
pub(crate) fn cut(text: &[u8]) -> (&[u8], &[u8])
    ensures part { result.0.now ≡ first_part text.now }
    ensures rest { result.1.now ≡ behind_part text.now }
{
    match memchr(b' ', text) {
        Some(end) => (&text[..end], &text[end + 1..]),
        None => (text, &text[text.len()..]),
    }
}

/// Returns what follows the byte, if the bytes begin with it.
pub(crate) fn past(bytes: &[u8], byte: u8) -> Option<&[u8]>
    ensures { option_map (λ rest. rest.now) result ≡ past byte bytes.now }
{
    match bytes {
        [first, rest @ ..] if *first == byte => Some(rest),
        _ => None,
    }
}

fn is_visible(byte: u8) -> bool
    ensures { result ≡ is_visible byte }
{
    byte.is_ascii_graphic()
}

fn are_visible(bytes: &[u8]) -> bool
    ensures { result ≡ list_all is_visible bytes.now }
{
    bytes.iter().all(|byte| is_visible(*byte))
}

/// Returns the bytes as a text, if they are visible ones.
pub(crate) fn visible(bytes: &[u8]) -> Option<&str>
    ensures some { IfSome result (λ text. text.now ≡ bytes.now) }
    ensures visible { IfSome result (λ _. IsTrue (list_all is_visible bytes.now)) }
    ensures none { IfNone result (IsFalse (list_all is_visible bytes.now)) }
{
    if !are_visible(bytes) {
        return None;
    }
    Some(unsafe { std::str::from_utf8_unchecked(bytes) })
}

/// Returns how many visible bytes come first.
fn visible_len(text: &[u8]) -> usize
    ensures { result ≡ prefix_len is_visible text.now }
{
    text.iter().take_while(|byte| is_visible(**byte)).count()
}

/// Returns what follows a blank, or the end.
fn behind(after: &[u8]) -> Option<&[u8]>
    ensures some { IfSome result (λ rest. Behind after.now rest.now) }
    ensures none { IfNone result (IsFalse (is_end after.now)) }
{
    match after {
        [] => Some(after),
        [b' ', rest @ ..] => Some(rest),
        _ => None,
    }
}

/// Returns the bytes up to the first blank, if they are visible ones, and those after it.
fn visible_part(text: &[u8]) -> Option<(&str, &[u8])>
    ensures part { IfSome result (λ x. x.0.now ≡ first_part text.now) }
    ensures visible { IfSome result (λ _. IsTrue (list_all is_visible (first_part text.now))) }
    ensures rest { IfSome result (λ x. x.1.now ≡ behind_part text.now) }
    ensures none { IfNone result (IsFalse (list_all is_visible (first_part text.now))) }
{
    let (part, after) = text.split_at(visible_len(text));
    let Some(rest) = behind(after) else {
        return None;
    };
    Some((unsafe { std::str::from_utf8_unchecked(part) }, rest))
}

/// Returns the name of at most this many bytes that stands at the start, and what stands after it; or how many bytes
/// are left there.
pub(crate) fn name(text: &[u8], most: usize) -> Result<(&str, &[u8]), usize>
    ensures stands { IfOk result (λ x. Stands (IsName most) text.now x.1.now) }
    ensures name { IfOk result (λ x. x.0.now ≡ first_part text.now) }
    ensures rest { IfOk result (λ x. x.1.now ≡ behind_part text.now) }
    ensures lacks { IfErr result (λ left. (rest : List ℕ) → Stands (IsName most) text.now rest → ⊥) }
    ensures left { IfErr result (λ left. left ≡ length text.now) }
{
    let Some((name, rest)) = visible_part(text) else {
        return Err(text.len());
    };
    if name.is_empty() || name.len() > most {
        return Err(text.len());
    }
    Ok((name, rest))
}
