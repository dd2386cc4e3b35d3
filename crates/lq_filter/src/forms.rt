// What each form of filter asks of the value of its field.
ghost use Rattle.std.specs.Prelude.{◌≡◌, ◌+◌, [], ◌∷◌, IfOk, IfErr, IsOk};
ghost use Rattle.lq_ast.specs.Condition as is;
ghost use Rattle.lq_ast.specs.Patterns.{IsReadable};
ghost use Rattle.lq_filter.specs.Refusal.{IsRefusal};
ghost use Rattle.lq_filter.specs.Value.{condition_of_field};

use crate::choices::Choices;
use crate::fault::PrepareFault;
use crate::pattern::Pattern;
use crate::room::Room;
use crate::value::{FieldTest, Folded, ValueTest};
use std::alloc::{AllocError, Global};
use vl_row::Text;
use word_tokens::Finder;

pub(crate) fn filled(alloc: Global, field: &Text) -> Result<FieldTest, AllocError>
    ensures { IfOk result (λ made. condition_of_field made ≡ is.some_value field.now) }
{
    FieldTest::new(alloc, field, ValueTest::Filled)
}

pub(crate) fn missing(alloc: Global, field: &Text) -> Result<FieldTest, AllocError>
    ensures { IfOk result (λ made. condition_of_field made ≡ is.no_value field.now) }
{
    FieldTest::new(alloc, field, ValueTest::Missing)
}

pub(crate) fn phrase(alloc: Global, field: &Text, text: &Text) -> Result<FieldTest, AllocError>
    ensures { IfOk result (λ made. condition_of_field made ≡ is.phrase field.now text.now) }
{
    let phrase = Finder::new(text.as_str()).into_owned(alloc)?;
    FieldTest::new(alloc, field, ValueTest::Phrase(phrase))
}

pub(crate) fn prefix(alloc: Global, field: &Text, text: &Text) -> Result<FieldTest, AllocError>
    ensures { IfOk result (λ made. condition_of_field made ≡ is.prefix field.now text.now) }
{
    let phrase = Finder::new(text.as_str()).into_owned(alloc)?;
    FieldTest::new(alloc, field, ValueTest::Prefix(phrase))
}

pub(crate) fn exact(alloc: Global, field: &Text, text: &Text) -> Result<FieldTest, AllocError>
    ensures { IfOk result (λ made. condition_of_field made ≡ is.exact field.now text.now) }
{
    let text = text.try_copy(alloc)?;
    FieldTest::new(alloc, field, ValueTest::Exact(text))
}

pub(crate) fn exact_prefix(
    alloc: Global,
    field: &Text,
    text: &Text,
) -> Result<FieldTest, AllocError>
    ensures { IfOk result (λ made. condition_of_field made ≡ is.exact_prefix field.now text.now) }
{
    let text = text.try_copy(alloc)?;
    FieldTest::new(alloc, field, ValueTest::ExactPrefix(text))
}

pub(crate) fn one_of(alloc: Global, field: &Text, texts: &[Text]) -> Result<FieldTest, AllocError>
    ensures { IfOk result (λ made. condition_of_field made ≡ is.one_of field.now texts.now) }
{
    let choices = Choices::new(alloc, texts)?;
    FieldTest::new(alloc, field, ValueTest::OneOf(choices))
}

/// Reads the pattern, whose number is `nth`, and raises that by one.
pub(crate) fn pattern(
    room: &mut Room,
    field: &Text,
    text: &Text,
    nth: &mut u32,
) -> Result<FieldTest, PrepareFault>
    ensures same { IfOk result (λ made. condition_of_field made ≡ is.pattern field.now text.now) }
    ensures counted { IsOk result → nth.new ≡ nth.old + 1 }
    ensures readable { IfOk result (λ _. IsReadable text.now) }
    ensures refused { IfErr result (IsRefusal nth.old ((text.now, text.now) ∷ [])) }
{
    let number = *nth;
    let pattern = Pattern::new(room, text.as_str(), number)?;
    *nth = number.checked_add(1).ok_or(PrepareFault::Memory)?;
    Ok(FieldTest::new(room.alloc, field, ValueTest::Pattern(pattern))?)
}

pub(crate) fn folded(alloc: Global, field: &Text, text: &Text) -> Result<FieldTest, AllocError>
    ensures { IfOk result (λ made. condition_of_field made ≡ is.folded field.now text.now) }
{
    let folded = Folded::new(alloc, text.as_str())?;
    FieldTest::new(alloc, field, ValueTest::Folded(folded))
}

pub(crate) fn sequence(alloc: Global, field: &Text, texts: &[Text]) -> Result<FieldTest, AllocError>
    ensures { IfOk result (λ made. condition_of_field made ≡ is.sequence field.now texts.now) }
{
    let phrases = phrases(alloc, texts)?;
    FieldTest::new(alloc, field, ValueTest::Sequence(phrases))
}

fn phrases(alloc: Global, texts: &[Text]) -> Result<Vec<Finder<'static>>, AllocError>
    ensures { IfOk result (λ all. all.items ≡ texts.now) }
{
    let mut all = Vec::with_capacity(alloc, texts.len())?;
    for text in texts {
        all.push(Finder::new(text.as_str()).into_owned(alloc)?)?;
    }
    Ok(all)
}

pub(crate) fn length(
    alloc: Global,
    field: &Text,
    low: u64,
    high: u64,
) -> Result<FieldTest, AllocError>
    ensures { IfOk result (λ made. condition_of_field made ≡ is.length_in field.now low high) }
{
    FieldTest::new(alloc, field, ValueTest::Length { low, high })
}

pub(crate) fn between(
    alloc: Global,
    field: &Text,
    low: &Text,
    high: &Text,
) -> Result<FieldTest, AllocError>
    ensures { IfOk result (λ made. condition_of_field made ≡ is.text_in field.now low.now high.now) }
{
    let low = low.try_copy(alloc)?;
    let high = high.try_copy(alloc)?;
    FieldTest::new(alloc, field, ValueTest::Between { low, high })
}

pub(crate) fn number(
    alloc: Global,
    field: &Text,
    low: i128,
    high: i128,
) -> Result<FieldTest, AllocError>
    ensures { IfOk result (λ made. condition_of_field made ≡ is.number_in field.now low high) }
{
    FieldTest::new(alloc, field, ValueTest::Number { low, high })
}
