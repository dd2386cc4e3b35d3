// The functions of the pipe STATS, and the names of their values.
ghost use Rattle.std.specs.Prelude.{◌≡◌, ◌++◌, ℕ, IfOk};
ghost use Rattle.std.specs.List.{join_with_byte};
ghost use Rattle.lq_grammar.specs.LogsQL.{counted, name_call, call_of_one, call, naming};
ghost use Rattle.lq_grammar.specs.Stages.{call_text as text_of_call, call_word as word_of_call};
ghost use Rattle.lq_grammar.specs.Clauses.{Gives, at as at_of};

use crate::names::{name_list, names};
use lq_ast::Call;
use lq_grammar::scan::{at, expect, past, text_past};
use lq_grammar::{Item, LIST_NAMES, Role, Stop, WORDS};
use lq_parse_filter::{field_named, name};
use std::alloc::{AllocError, Global};
use vl_row::{Items, Text};

/// Parses the fields that COUNT looks at. There are none where it counts all records.
#[tactic(auto, unfolding(lq_grammar::specs::LogsQL::counted))]
fn counted<'t>(alloc: Global, tokens: &'t [Item]) -> Result<(Items<Text>, &'t [Item]), Stop>
    ensures { (depth : ℕ) → Gives (λ x. (x.0, x.1.now)) result (at_of depth counted tokens.now) }
{
    if let Some(rest) = past(tokens, &[Role::Star]) {
        return Ok((Items::of(Vec::new(alloc)), rest));
    }
    if at(tokens, WORDS) {
        return names(alloc, tokens);
    }
    Ok((Items::of(Vec::new(alloc)), tokens))
}

/// Parses the word of a function of one field.
#[tactic(auto, unfolding(lq_grammar::specs::LogsQL::name_call))]
fn name_call(tokens: &[Item]) -> Result<(Call, &[Item]), Stop>
    ensures { (depth : ℕ) → Gives (λ x. (x.0, x.1.now)) result (at_of depth name_call tokens.now) }
{
    if let Some(rest) = past(tokens, &[Role::Sum]) {
        return Ok((Call::Sum, rest));
    }
    if let Some(rest) = past(tokens, &[Role::Min]) {
        return Ok((Call::Min, rest));
    }
    if let Some(rest) = past(tokens, &[Role::Max]) {
        return Ok((Call::Max, rest));
    }
    let rest = expect(tokens, &[Role::UniqValues])?;
    Ok((Call::UniqValues, rest))
}

/// Parses a function and its fields.
#[tactic(auto, unfolding(lq_grammar::specs::LogsQL::call))]
pub(crate) fn call<'t>(
    alloc: Global,
    tokens: &'t [Item],
) -> Result<((Call, Items<Text>), &'t [Item]), Stop>
    ensures { (depth : ℕ) → Gives (λ x. ((x.0.0, x.0.1), x.1.now)) result (at_of depth call tokens.now) }
{
    if let Some(rest) = past(tokens, &[Role::Count]) {
        let rest = expect(rest, &[Role::Open])?;
        let (names, rest) = counted(alloc, rest)?;
        let rest = expect(rest, &[Role::Close])?;
        return Ok(((Call::Count, names), rest));
    }
    if let Some(rest) = past(tokens, &[Role::CountEmpty]) {
        let (names, rest) = name_list(alloc, rest)?;
        return Ok(((Call::CountEmpty, names), rest));
    }
    if let Some(rest) = past(tokens, &[Role::CountUniq]) {
        let (names, rest) = name_list(alloc, rest)?;
        return Ok(((Call::CountUniq, names), rest));
    }
    call_of_one(alloc, tokens)
}

/// Parses a function of one field, and the field.
#[tactic(auto, unfolding(lq_grammar::specs::LogsQL::call_of_one))]
fn call_of_one<'t>(
    alloc: Global,
    tokens: &'t [Item],
) -> Result<((Call, Items<Text>), &'t [Item]), Stop>
    ensures { (depth : ℕ) → Gives (λ x. ((x.0.0, x.0.1), x.1.now)) result (at_of depth call_of_one tokens.now) }
{
    let (call, rest) = name_call(tokens)?;
    let rest = expect(rest, &[Role::Open])?;
    let (name, rest) = name(alloc, rest, WORDS)?;
    let rest = expect(rest, &[Role::Close])?;
    let mut names = Vec::new(alloc);
    names.push(name)?;
    Ok(((call, Items::of(names)), rest))
}

/// Parses the name of a value: any name after AS, or a name with one of these roles. Both may be missing.
#[tactic(auto, unfolding(lq_grammar::specs::LogsQL::naming))]
pub(crate) fn naming<'t>(
    alloc: Global,
    tokens: &'t [Item],
    roles: &[Role],
) -> Result<(Option<Text>, &'t [Item]), Stop>
    ensures { (depth : ℕ) → Gives (λ x. (x.0, x.1.now)) result (at_of depth (naming roles.now) tokens.now) }
{
    if let Some(rest) = past(tokens, &[Role::As]) {
        let (name, rest) = name(alloc, rest, LIST_NAMES)?;
        return Ok((Some(name), rest));
    }
    if let Some((word, rest)) = text_past(tokens, roles) {
        let name = field_named(alloc, word)?;
        return Ok((Some(name), rest));
    }
    Ok((None, tokens))
}

/// Returns the name of a value without a name of its own, such as `count()`, `sum(x)` or `count_uniq(a,b)`.
pub(crate) fn call_text(alloc: Global, call: Call, names: &[Text]) -> Result<Text, AllocError>
    ensures { IfOk result (λ text. text ≡ text_of_call (call, names.now)) }
{
    let mut text = Text::try_of(alloc, call_word(call))?;
    text.push_str(alloc, "(")?;
    push_joined(alloc, names, &mut text)?;
    text.push_str(alloc, ")")?;
    Ok(text)
}

/// Appends names with commas between them.
fn push_joined(alloc: Global, names: &[Text], text: &mut Text) -> Result<(), AllocError>
    ensures { IfOk result (λ _. text.new ≡ text.old ++ join_with_byte 44 names.now) }
{
    let [first, others @ ..] = names else {
        return Ok(());
    };
    text.push_str(alloc, first.as_str())?;
    for name in others {
        text.push_str(alloc, ",")?;
        text.push_str(alloc, name.as_str())?;
    }
    Ok(())
}

/// Returns the word of a function.
fn call_word(call: Call) -> &'static str
    ensures { result.now ≡ word_of_call call }
{
    match call {
        Call::Count => "count",
        Call::CountEmpty => "count_empty",
        Call::CountUniq => "count_uniq",
        Call::Sum => "sum",
        Call::Min => "min",
        Call::Max => "max",
        Call::UniqValues => "uniq_values",
    }
}
