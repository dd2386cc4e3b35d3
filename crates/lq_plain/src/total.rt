//! Sums values.
ghost use Rattle.std.specs.Prelude.{◌≡◌, IfOk, filter_map};
ghost use Rattle.std.specs.Fmt.{signed_decimal};
ghost use Rattle.log_model.specs.Order.{number_of};
ghost use Rattle.lq_ast.specs.Statistics.{sum_text, total};

use std::alloc::{AllocError, Global};
use vl_row::{Text, number};

/// Returns the sum of the numbers among the values as text, which is empty if there are none, or `None` if the sum is
/// not a 64-bit integer.
pub(crate) fn sum_text(alloc: Global, values: &[Text]) -> Result<Option<Text>, AllocError>
    ensures { IfOk result (λ text. text ≡ sum_text (filter_map number_of values.now)) }
{
    let numbers = numbers(alloc, values)?;
    let numbers = numbers.as_slice();
    if numbers.is_empty() {
        return Ok(Some(Text::new()));
    }
    match i64::try_from(total(numbers)) {
        Ok(total) => Ok(Some(decimal(alloc, total)?)),
        Err(_) => Ok(None),
    }
}

/// Returns the numbers among the values.
fn numbers(alloc: Global, values: &[Text]) -> Result<Vec<i64>, AllocError>
    ensures { IfOk result (λ numbers. numbers.items ≡ filter_map number_of values.now) }
{
    values
        .iter()
        .filter_map(|value| number(value.as_str()))
        .collect(alloc)
}

/// Returns the sum of numbers. It fits, since there are fewer than 2^64 of them.
fn total(numbers: &[i64]) -> i128
    ensures { result ≡ total numbers.now }
{
    let mut sum = 0;
    for number in numbers {
        sum += *number as i128;
    }
    sum
}

/// Returns the number as text.
pub(crate) fn decimal(alloc: Global, number: i64) -> Result<Text, AllocError>
    ensures { IfOk result (λ text. text ≡ signed_decimal number) }
{
    let text = number.to_string(alloc)?;
    Text::try_of(alloc, text.as_str())
}
