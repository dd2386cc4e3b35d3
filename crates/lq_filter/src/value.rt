ghost use Rattle.std.specs.Prelude.{◌≡◌, ◌&&◌, ◌≤◌, ◌∷◌, ℕ, List, false, not, nat_le, length, chars};
ghost use Rattle.std.specs.Prelude.{IfOk, IfSome, IsTrue, MatchOption, if◌then◌else◌, string_bytes};
ghost use Rattle.std.specs.Fmt.{signed_decimal};
ghost use Rattle.std.specs.Option.{option_map_or};
ghost use Rattle.std.specs.Ordering.{is_lt};
ghost use Rattle.log_model.specs.Field.{bytes_cmp, is_empty};
ghost use Rattle.log_model.specs.Order.{number_of};
ghost use Rattle.log_model.specs.Row.{value_of};
ghost use Rattle.log_model.specs.Words.{occurs};
ghost use Rattle.lq_ast.specs.Holds.{is_within};
ghost use Rattle.lq_ast.specs.Phrases.{case_folded, in_order};
ghost use Rattle.word_tokens.specs.Prefix.{occurs_as_prefix};
ghost use Rattle.lent_row.specs.Cells.{value_text};
ghost use Rattle.lq_filter.specs.Computed.{is_source};

use crate::asking::Asking;
use crate::choices::Choices;
use crate::computed::Computed;
use crate::pattern::Pattern;
use crate::subject::Subject;
use caseless::Caseless;
use itoa::Buffer;
use lent_row::{LentRow, Value};
use std::alloc::{AllocError, Global};
use std::marker::Model;
use vl_row::{Text, number};
use word_tokens::Finder;

/// What is asked of the value of a field.
#[derive(Drop)]
pub(crate) enum ValueTest {
    Filled,
    Missing,
    Phrase(Finder<'static>),
    Prefix(Finder<'static>),
    Exact(Text),
    ExactPrefix(Text),
    OneOf(Choices),
    Pattern(Pattern),
    Folded(Folded),
    Sequence(Vec<Finder<'static>>),
    Length { low: u64, high: u64 },
    Between { low: Text, high: Text },
    Number { low: i128, high: i128 },
}

impl ValueTest {
    ghost use Rattle.lq_filter.specs.Value.{value_holds};

    // An integer is printed, and then its text is asked.
    fn holds_of<'p>(&'p self, asking: &mut Asking<'p>, value: Value<'_>) -> Result<bool, AllocError>
        ensures { IfOk result (λ found. found ≡ value_holds self.now (value_text value.entry)) }
    {
        match value {
            Value::Str(text) => self.holds(asking, text),
            Value::Int(integer) => self.holds_of_integer(asking, integer),
        }
    }

    fn holds_of_integer<'p>(
        &'p self,
        asking: &mut Asking<'p>,
        integer: i64,
    ) -> Result<bool, AllocError>
        ensures { IfOk result (λ found. found ≡ value_holds self.now (signed_decimal integer)) }
    {
        let mut digits = Buffer::new();
        self.holds(asking, digits.format(integer))
    }

    fn holds<'p>(&'p self, asking: &mut Asking<'p>, value: &str) -> Result<bool, AllocError>
        ensures { IfOk result (λ found. found ≡ value_holds self.now value.now) }
    {
        match self {
            ValueTest::Filled => Ok(!value.is_empty()),
            ValueTest::Missing => Ok(value.is_empty()),
            ValueTest::Phrase(phrase) => Ok(phrase.has_phrase(value)),
            ValueTest::Prefix(prefix) => Ok(has_prefix(prefix, value)),
            ValueTest::Exact(text) => Ok(value == text.as_str()),
            ValueTest::ExactPrefix(text) => Ok(
                value.as_bytes().starts_with(text.as_str().as_bytes()),
            ),
            ValueTest::OneOf(choices) => Ok(choices.has(value)),
            ValueTest::Pattern(pattern) => asking.is_found(pattern, value),
            ValueTest::Folded(folded) => folded.is_in(asking.alloc, value),
            ValueTest::Sequence(phrases) => Ok(are_in_order(phrases.as_slice(), value)),
            ValueTest::Length { low, high } => Ok(has_length(value, *low, *high)),
            ValueTest::Between { low, high } => Ok(is_between(value, low.as_str(), high.as_str())),
            ValueTest::Number { low, high } => Ok(is_number_within(value, *low, *high)),
        }
    }
}

/// A field, and what is asked of its value.
#[derive(Drop)]
pub struct FieldTest {
    pub(crate) name: Text,
    pub(crate) computed: Option<Computed>,
    pub(crate) test: ValueTest,
    ghost source: { IsTrue (is_source computed name) },
}

impl FieldTest {
    ghost use Rattle.lq_filter.specs.Subject.{subject_of};
    ghost use Rattle.lq_filter.specs.Value.{condition_of_field, condition_on, field_holds, field_name, value_holds};

    /// Returns the test of the value of this field.
    pub(crate) fn new(alloc: Global, field: &Text, test: ValueTest) -> Result<FieldTest, AllocError>
        ensures { IfOk result (λ made. condition_of_field made ≡ condition_on field.now test) }
    {
        let name = field.try_copy(alloc)?;
        let computed = Computed::of(name.as_str());
        Ok(FieldTest {
            name,
            computed,
            test,
        })
    }

    /// Returns whether the value of the field is as asked.
    pub(crate) fn holds<'p, R: LentRow>(
        &'p self,
        asking: &mut Asking<'p>,
        subject: &Subject<'_, R>,
    ) -> Result<bool, AllocError>
        ensures { IfOk result
            (λ found. found ≡ value_holds self.now.test ((subject_of R.event subject.now).value self.now.name)) }
    {
        match subject {
            Subject::Row { row, .. } => self.holds_of_row(asking, *row),
            Subject::Record(fields) => self.test.holds(asking, fields.get(self.name.as_str())),
        }
    }

    /// Returns whether the value that the row has in the field is as asked.
    #[tactic(auto, using(crate::proofs::Values::computed_value, crate::proofs::Values::stored_value))]
    pub fn holds_of_row<'p, R: LentRow>(
        &'p self,
        asking: &mut Asking<'p>,
        row: &R,
    ) -> Result<bool, AllocError>
        ensures { IfOk result
            (λ found. found ≡ field_holds self.now (value_of (R.event row.now) (field_name self.now))) }
    {
        match self.computed {
            Some(computed) => {
                let text = computed.text(asking.alloc, row)?;
                self.test.holds(asking, text.as_str())
            }
            None => self.test.holds_of(asking, row.value(self.name.as_str())),
        }
    }

    /// Returns the name of the field.
    pub fn name(&self) -> &str
        ensures { result.now ≡ field_name self.now }
    {
        self.name.as_str()
    }

    /// Returns how the value of the field is computed, or nothing if it is stored.
    pub fn computed(&self) -> Option<Computed>
        ensures { IsTrue (is_source result (field_name self.now)) }
    {
        self.computed
    }

    /// Returns whether this text is as asked of the value of the field.
    pub fn holds_text<'p>(&'p self, asking: &mut Asking<'p>, text: &str) -> Result<bool, AllocError>
        ensures { IfOk result (λ found. found ≡ field_holds self.now text.now) }
    {
        self.test.holds(asking, text)
    }

    /// Returns whether the decimal text of this integer is as asked of the value of the field.
    pub fn holds_integer<'p>(
        &'p self,
        asking: &mut Asking<'p>,
        integer: i64,
    ) -> Result<bool, AllocError>
        ensures { IfOk result (λ found. found ≡ field_holds self.now (signed_decimal integer)) }
    {
        self.test.holds_of_integer(asking, integer)
    }

    /// Returns the least and the greatest number that the value may be, if what is asked is that it is a number between
    /// two ends.
    pub fn number_bounds(&self) -> Option<(i128, i128)>
        ensures { IfSome result (λ bounds. (value : List ℕ) → field_holds self.now value
            ≡ option_map_or (is_within bounds.0 bounds.1) (number_of value) false) }
    {
        match &self.test {
            ValueTest::Number { low, high } => Some((*low, *high)),
            _ => None,
        }
    }
}

fn has_prefix(prefix: &Finder<'static>, value: &str) -> bool
    ensures { result ≡ (if is_empty prefix.now then not (is_empty value.now)
        else occurs_as_prefix value.now prefix.now) }
{
    if prefix.is_empty() {
        !value.is_empty()
    } else {
        prefix.has_prefix(value)
    }
}

/// A phrase that is looked for whatever the case of its letters.
#[derive(Drop)]
pub(crate) struct Folded {
    text: Text,
    phrase: Finder<'static>,
}

impl Model for Folded {
    ghost use Rattle.std.specs.Prelude.{◌≡◌, ℕ, List};
    ghost use Rattle.lq_ast.specs.Phrases.{case_folded};

    ghost Value = { List ℕ };

    ghost view = { λ f. f.text };

    ghost invariant = { λ f. f.phrase ≡ case_folded f.text };
}

impl Folded {
    pub(crate) fn new(alloc: Global, text: &str) -> Result<Folded, AllocError>
        ensures { IfOk result (λ folded. folded ≡ text.now) }
    {
        let folded = case_folded(alloc, text)?;
        let phrase = Finder::new(folded.as_str()).into_owned(alloc)?;
        let text = Text::try_of(alloc, text)?;
        Ok(Folded { text, phrase })
    }

    fn is_in(&self, alloc: Global, value: &str) -> Result<bool, AllocError>
        ensures { IfOk result (λ found. found ≡ (if is_empty self.now then is_empty value.now
            else occurs (case_folded value.now) (case_folded self.now))) }
    {
        if self.text.as_str().is_empty() {
            return Ok(value.is_empty());
        }
        let folded = case_folded(alloc, value)?;
        Ok(self.phrase.has_phrase(folded.as_str()))
    }
}

// Returns the text with its case folded. Of ASCII that is its lower case, which is made much faster.
fn case_folded(alloc: Global, text: &str) -> Result<String, AllocError>
    ensures { IfOk result (λ folded. string_bytes folded ≡ case_folded text.now) }
{
    if text.is_ascii() {
        return text.to_ascii_lowercase(alloc);
    }
    caseless::default_case_fold_str(alloc, text)
}

// Returns whether the phrases stand in the value in this order, each from the end of the one before or later.
fn are_in_order(phrases: &[Finder<'static>], value: &str) -> bool
    ensures { result ≡ in_order value.now 0 phrases.now }
{
    let mut from = 0;
    for phrase in phrases {
        let Some(end) = end_from(phrase, value, from) else {
            return false;
        };
        from = end;
    }
    true
}

// Returns the end of the first place from `from` on at which the phrase stands, which leaves most room for others; an
// empty one is skipped.
fn end_from(phrase: &Finder<'static>, value: &str, from: usize) -> Option<usize>
    requires { from ≤ length value.now }
    ensures found { IfSome result (λ end. end ≤ length value.now) }
    ensures others { (more : List (List ℕ)) → MatchOption result (in_order value.now from (phrase.now ∷ more) ≡ false)
        (λ end. in_order value.now from (phrase.now ∷ more) ≡ in_order value.now end more) }
{
    if phrase.is_empty() {
        return Some(from);
    }
    let place = phrase.place_from(value, from)?;
    Some(place + phrase.len())
}

fn has_length(value: &str, low: u64, high: u64) -> bool
    ensures { result ≡ (nat_le low (length (chars value.now)) && nat_le (length (chars value.now)) high) }
{
    let length = characters(value) as u64;
    low <= length && length <= high
}

fn characters(value: &str) -> usize
    ensures { result ≡ length (chars value.now) }
{
    value.chars().count()
}

fn is_between(value: &str, low: &str, high: &str) -> bool
    ensures { result ≡ (not (is_lt (bytes_cmp value.now low.now)) && is_lt (bytes_cmp value.now high.now)) }
{
    let value = value.as_bytes();
    !value.cmp(low.as_bytes()).is_lt() && value.cmp(high.as_bytes()).is_lt()
}

fn is_number_within(value: &str, low: i128, high: i128) -> bool
    ensures { result ≡ option_map_or (is_within low high) (number_of value.now) false }
{
    match number(value) {
        Some(n) => low <= n as i128 && n as i128 <= high,
        None => false,
    }
}
