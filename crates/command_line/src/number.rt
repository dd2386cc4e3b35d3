//! Numbers among the words.
ghost use Rattle.std.specs.Prelude.{◌≡◌, ℕ, ◌^◌, ◌<◌, IfNone, IfSome, Some, decimal};
ghost use Rattle.command_line.specs.Asked.{IsNumber};

/// Returns the number from `least` to `most` that the text is, if it is one.
pub(crate) fn number_between(least: u64, most: u64, text: &str) -> Option<u64>
    requires { most < 2 ^ 63 }
    ensures some { IfSome result (IsNumber least most (Some text.now)) }
    ensures none { IfNone result ((number : ℕ) → IsNumber least most (Some text.now) number → ⊥) }
{
    match natural(text) {
        Some(number) if least <= number && number <= most => Some(number),
        _ => None,
    }
}

/// Returns the number below 2^63 whose decimal text this is, if it is one: digits without a sign or a zero ahead.
fn natural(text: &str) -> Option<u64>
    ensures some { IfSome result (λ number. (text.now ≡ decimal number) × (number < 2 ^ 63)) }
    ensures none { IfNone result ((number : ℕ) → number < 2 ^ 63 → text.now ≡ decimal number → ⊥) }
{
    u64::try_from(vl_row::number(text)?).ok()
}
