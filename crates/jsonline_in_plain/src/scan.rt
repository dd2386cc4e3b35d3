// White space, single bytes and digits, one byte at a time.
ghost use Rattle.std.specs.Prelude.{◌≡◌, ℕ, ◌<◌, ◌++◌, List};
ghost use Rattle.std.specs.Option.{option_map};
ghost use Rattle.std.specs.List.{prefix_len};
ghost use Rattle.std.specs.Char.{is_ascii_digit, is_ascii_hexdigit};
ghost use Rattle.log_model.specs.Json.{is_space, is_plain};
ghost use Rattle.jsonline_in.specs.Reading.{after_space, past, expect, one_of, digits_end, prefix_of};
ghost use Rattle.jsonline_in.specs.Clauses.{ReadsAs};

use jsonline_in::ScanFault;

fn space_len(text: &str) -> usize
    ensures { result ≡ prefix_len is_space text.now }
{
    text.bytes()
        .take_while(|byte| *byte == b' ' || *byte == b'\t' || *byte == b'\n' || *byte == b'\r')
        .count()
}

fn digits_len(text: &str) -> usize
    ensures { result ≡ prefix_len is_ascii_digit text.now }
{
    text.bytes()
        .take_while(|byte| byte.is_ascii_digit())
        .count()
}

pub(crate) fn plain_len(text: &str) -> usize
    ensures { result ≡ prefix_len is_plain text.now }
{
    text.bytes()
        .take_while(|byte| *byte >= 0x20 && *byte != b'"' && *byte != b'\\')
        .count()
}

#[tactic(auto, using(jsonline_in::proofs::Cuts::space_cut), unfolding(jsonline_in::specs::Reading::after_space))]
pub(crate) fn skip_space(text: &str) -> &str
    ensures { result.now ≡ after_space text.now }
{
    text.split_at(space_len(text)).1
}

/// Returns the rest after an ASCII byte, if the text begins with it.
#[tactic(auto, using(jsonline_in::proofs::Cuts::byte_cut))]
pub(crate) fn past(text: &str, byte: u8) -> Option<&str>
    requires { byte < 128 }
    ensures { option_map (λ rest. rest.now) result ≡ past byte text.now }
{
    if text.is_empty() || text.as_bytes()[0] != byte {
        return None;
    }
    Some(&text[1..])
}

#[tactic(auto, unfolding(jsonline_in::specs::Reading::expect))]
pub(crate) fn expect(text: &str, byte: u8) -> Result<&str, ScanFault>
    requires { byte < 128 }
    ensures { ReadsAs (λ rest. (tt, rest.now)) result (expect byte text.now) }
{
    if let Some(rest) = past(text, byte) {
        return Ok(rest);
    }
    Err(ScanFault::Stuck { left: text.len() })
}

/// Returns the part of the text before its suffix `rest`.
pub(crate) fn prefix<'a>(text: &'a str, rest: &str) -> &'a str
    requires { (taken : List ℕ) × (text.now ≡ taken ++ rest.now) }
    ensures { result.now ≡ prefix_of text.now rest.now }
{
    text.split_at(text.len() - rest.len()).0
}

/// Skips one or more decimal digits.
#[tactic(auto, using(jsonline_in::proofs::Cuts::digits_cut), unfolding(jsonline_in::specs::Reading::digits_end))]
pub(crate) fn digits(text: &str) -> Result<&str, ScanFault>
    ensures { ReadsAs (λ rest. (tt, rest.now)) result (digits_end text.now) }
{
    match digits_len(text) {
        0 => Err(ScanFault::Stuck { left: text.len() }),
        len => Ok(text.split_at(len).1),
    }
}

/// Reads one hexadecimal digit.
#[tactic(auto, using(jsonline_in::proofs::Cuts::hex_cut), unfolding(jsonline_in::specs::Reading::one_of))]
pub(crate) fn hex(text: &str) -> Result<(u8, &str), ScanFault>
    ensures { ReadsAs (λ x. (x.0, x.1.now)) result (one_of is_ascii_hexdigit text.now) }
{
    if text.is_empty() || !text.as_bytes()[0].is_ascii_hexdigit() {
        return Err(ScanFault::Stuck { left: text.len() });
    }
    Ok((text.as_bytes()[0], &text[1..]))
}
