// White space, single bytes and runs of digits. Each scanner gives the text after what it read.
ghost use Rattle.std.specs.Prelude.{◌≡◌, ℕ, ◌<◌, ◌++◌, List, length};
ghost use Rattle.std.specs.Option.{option_map};
ghost use Rattle.std.specs.List.{prefix_len};
ghost use Rattle.std.specs.Char.{is_ascii_digit, is_ascii_hexdigit};
ghost use Rattle.log_model.specs.Json.{is_space};
ghost use Rattle.jsonline_in.specs.Reading.{after_space, past, expect, one_of, digits_end, prefix_of};
ghost use Rattle.jsonline_in.specs.Clauses.{ReadsAs};

use crate::scan_fault::ScanFault;

#[inline]
fn is_space(byte: u8) -> bool
    ensures { result ≡ is_space byte }
{
    matches!(byte, b' ' | b'\t' | b'\n' | b'\r')
}

#[inline]
fn space_len(bytes: &[u8]) -> usize
    ensures { result ≡ prefix_len is_space bytes.now }
{
    bytes.iter().take_while(|byte| is_space(**byte)).count()
}

#[tactic(auto, using(crate::proofs::Cuts::space_cut), unfolding(crate::specs::Reading::after_space))]
#[inline]
pub(crate) fn after_space(text: &str) -> &str
    ensures { result.now ≡ after_space text.now }
{
    &text[space_len(text.as_bytes())..]
}

/// Returns what follows the ASCII byte, if the text begins with it.
#[tactic(auto, using(crate::proofs::Cuts::byte_cut))]
#[inline]
pub(crate) fn past(text: &str, byte: u8) -> Option<&str>
    requires { byte < 128 }
    ensures { option_map (λ rest. rest.now) result ≡ past byte text.now }
{
    match text.as_bytes() {
        [first, ..] if *first == byte => Some(&text[1..]),
        _ => None,
    }
}

#[tactic(auto, unfolding(crate::specs::Reading::expect))]
#[inline]
pub(crate) fn expect(text: &str, byte: u8) -> Result<&str, ScanFault>
    requires { byte < 128 }
    ensures { ReadsAs (λ rest. (tt, rest.now)) result (expect byte text.now) }
{
    match past(text, byte) {
        Some(rest) => Ok(rest),
        None => Err(ScanFault::Stuck { left: text.len() }),
    }
}

/// Returns what stands before the rest of a text.
#[inline]
pub(crate) fn prefix<'a>(text: &'a str, rest: &str) -> &'a str
    requires { (taken : List ℕ) × (text.now ≡ taken ++ rest.now) }
    ensures { result.now ≡ prefix_of text.now rest.now }
{
    &text[..text.len() - rest.len()]
}

#[inline]
fn digits_len(bytes: &[u8]) -> usize
    ensures { result ≡ prefix_len is_ascii_digit bytes.now }
{
    bytes
        .iter()
        .take_while(|byte| byte.is_ascii_digit())
        .count()
}

/// One decimal digit or more.
#[tactic(auto, using(crate::proofs::Cuts::digits_cut), unfolding(crate::specs::Reading::digits_end))]
#[inline]
pub(crate) fn digits(text: &str) -> Result<&str, ScanFault>
    ensures { ReadsAs (λ rest. (tt, rest.now)) result (digits_end text.now) }
{
    let len = digits_len(text.as_bytes());
    if len == 0 {
        return Err(ScanFault::Stuck { left: text.len() });
    }
    Ok(&text[len..])
}

/// One hexadecimal digit.
#[tactic(auto, using(crate::proofs::Cuts::hex_cut), unfolding(crate::specs::Reading::one_of))]
pub(crate) fn hex(text: &str) -> Result<(u8, &str), ScanFault>
    ensures { ReadsAs (λ x. (x.0, x.1.now)) result (one_of is_ascii_hexdigit text.now) }
{
    match text.as_bytes() {
        [first, ..] if first.is_ascii_hexdigit() => Ok((*first, &text[1..])),
        _ => Err(ScanFault::Stuck { left: text.len() }),
    }
}
