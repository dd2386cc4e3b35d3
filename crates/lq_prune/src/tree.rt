//! What a filter needs of a block, as a tree.
ghost use Rattle.std.specs.Prelude.{◌≡◌, ◌+ℤ◌, ◌-ℤ◌, IfOk, flat_map, map, pos, true};
ghost use Rattle.std.specs.List.{list_all};
ghost use Rattle.std.specs.Str.{is_utf8};
ghost use Rattle.log_model.specs.Field.{is_reserved};
ghost use Rattle.lq_ast.specs.Condition.{conditions};
ghost use Rattle.lq_ast.specs.View.{condition, groups_of};
ghost use Rattle.word_filter.specs.Words.{words_in};
ghost use Rattle.lq_prune.specs.Need.{all_needed, ended_words, field_need, need_of, needs_of, one_needed, text_needed};
ghost use Rattle.lq_prune.specs.Need.{words_needed};
ghost use Rattle.lq_prune.specs.Need as is;
ghost use Rattle.lq_prune.specs.Texts.{has_texts, have_texts};
ghost use Rattle.lq_prune.specs.Tree.{needed_of};

use crate::selection::Selection;
use crate::words;
use lq_ast::{Computed, Filter, Select};
use std::alloc::{AllocError, Global};
use vl_row::Text;

/// What a filter needs of a block.
#[derive(Drop)]
pub(crate) enum Tree {
    /// Nothing is needed.
    Nothing,
    /// Each of these words is needed in the column of the field.
    Words { field: Text, words: Vec<Text> },
    /// A time between the ends is needed, both included.
    Within { from: i128, to: i128 },
    /// The stream has to be selected.
    Stream(Selection),
    /// All of these are needed.
    All(Vec<Tree>),
    /// One of these is needed. Where there is none, no row holds.
    Any(Vec<Tree>),
}

impl Tree {
    /// What the filter needs at the moment `now`.
    #[cycle(needing)]
    pub(crate) fn new(alloc: Global, filter: &Filter, now: i64) -> Result<Tree, AllocError>
        ensures need { IfOk result (λ tree. needed_of tree ≡ need_of now (condition filter.now)) }
        ensures texts { IfOk result (λ _. has_texts (condition filter.now) ≡ true) }
    {
        match filter {
            Filter::Phrase { field, text } => all_words(alloc, field, text),
            Filter::Exact { field, text } => all_words(alloc, field, text),
            Filter::Prefix { field, text } => ended_words(alloc, field, text),
            Filter::ExactPrefix { field, text } => ended_words(alloc, field, text),
            Filter::OneOf { field, texts } => one_text(alloc, field, texts.as_slice()),
            Filter::Seq { field, texts } => all_texts(alloc, field, texts.as_slice()),
            Filter::Last { span } => Ok(since(now, *span)),
            Filter::Times { from, to } => Ok(within(*from, *to)),
            Filter::Select(select) => stream(alloc, select),
            Filter::All2(filters) => all_of(alloc, filters.as_slice(), now),
            Filter::Any2(filters) => any_of(alloc, filters.as_slice(), now),
            Filter::All => Ok(Tree::Nothing),
            Filter::Any { .. } => Ok(Tree::Nothing),
            Filter::Empty { .. } => Ok(Tree::Nothing),
            Filter::Regex { .. } => Ok(Tree::Nothing),
            Filter::Fold { .. } => Ok(Tree::Nothing),
            Filter::Length { .. } => Ok(Tree::Nothing),
            Filter::Between { .. } => Ok(Tree::Nothing),
            Filter::Range { .. } => Ok(Tree::Nothing),
            Filter::Not(_) => Ok(Tree::Nothing),
        }
    }
}

#[cycle(needing)]
fn all_of(alloc: Global, filters: &[Filter], now: i64) -> Result<Tree, AllocError>
    ensures need { IfOk result
        (λ tree. needed_of tree ≡ all_needed (needs_of now (conditions (map condition filters.now)))) }
    ensures texts { IfOk result (λ _. have_texts (conditions (map condition filters.now)) ≡ true) }
{
    let all = trees(alloc, filters, now)?;
    Ok(Tree::All(all))
}

#[cycle(needing)]
fn any_of(alloc: Global, filters: &[Filter], now: i64) -> Result<Tree, AllocError>
    ensures need { IfOk result
        (λ tree. needed_of tree ≡ one_needed (needs_of now (conditions (map condition filters.now)))) }
    ensures texts { IfOk result (λ _. have_texts (conditions (map condition filters.now)) ≡ true) }
{
    let some = trees(alloc, filters, now)?;
    Ok(Tree::Any(some))
}

#[cycle(needing)]
fn trees(alloc: Global, filters: &[Filter], now: i64) -> Result<Vec<Tree>, AllocError>
    ensures need { IfOk result
        (λ trees. map needed_of trees.items ≡ needs_of now (conditions (map condition filters.now))) }
    ensures texts { IfOk result (λ _. have_texts (conditions (map condition filters.now)) ≡ true) }
{
    let mut trees = Vec::new(alloc);
    for filter in filters {
        let tree = Tree::new(alloc, filter, now)?;
        trees.push(tree)?;
    }
    Ok(trees)
}

/// All words of a text.
fn all_words(alloc: Global, field: &Text, text: &Text) -> Result<Tree, AllocError>
    ensures need { IfOk result
        (λ tree. needed_of tree ≡ field_need field.now (text_needed field.now text.now)) }
    ensures text { IfOk result (λ _. is_utf8 text.now ≡ true) }
{
    let found = words::words_in(alloc, text)?;
    words_of_field(alloc, field, found)
}

/// The words of a text that end before it does.
fn ended_words(alloc: Global, field: &Text, text: &Text) -> Result<Tree, AllocError>
    ensures need { IfOk result
        (λ tree. needed_of tree ≡ field_need field.now (words_needed field.now (ended_words text.now))) }
    ensures text { IfOk result (λ _. is_utf8 text.now ≡ true) }
{
    let found = words::ended_words(alloc, text)?;
    words_of_field(alloc, field, found)
}

/// The words of all texts.
fn all_texts(alloc: Global, field: &Text, texts: &[Text]) -> Result<Tree, AllocError>
    ensures need { IfOk result (λ tree. needed_of tree
        ≡ field_need field.now (words_needed field.now (flat_map words_in texts.now))) }
    ensures texts { IfOk result (λ _. list_all is_utf8 texts.now ≡ true) }
{
    let found = words::words_of_all(alloc, texts)?;
    words_of_field(alloc, field, found)
}

/// The words of one of the texts.
fn one_text(alloc: Global, field: &Text, texts: &[Text]) -> Result<Tree, AllocError>
    ensures { IfOk result (λ tree. needed_of tree
        ≡ field_need field.now (one_needed (map (text_needed field.now) texts.now))) }
{
    if is_computed(field.as_str()) {
        return Ok(Tree::Nothing);
    }
    let mut trees = Vec::new(alloc);
    for text in texts {
        let words = words::words_in(alloc, text)?;
        trees.push(words_of(alloc, field, words)?)?;
    }
    Ok(Tree::Any(trees))
}

fn words_of(alloc: Global, field: &Text, words: Vec<Text>) -> Result<Tree, AllocError>
    ensures { IfOk result (λ tree. needed_of tree ≡ words_needed field.now words.items) }
{
    let field = field.try_copy(alloc)?;
    Ok(Tree::Words { field, words })
}

/// These words of a field. No column has the values of a computed one.
fn words_of_field(alloc: Global, field: &Text, words: Vec<Text>) -> Result<Tree, AllocError>
    ensures { IfOk result (λ tree. needed_of tree ≡ field_need field.now (words_needed field.now words.items)) }
{
    if is_computed(field.as_str()) {
        return Ok(Tree::Nothing);
    }
    words_of(alloc, field, words)
}

/// Whether the field is computed.
fn is_computed(name: &str) -> bool
    ensures { result ≡ is_reserved name.now }
{
    Computed::of(name).is_some()
}

fn within(from: i128, to: i128) -> Tree
    ensures { needed_of result ≡ is.time_within from to }
{
    Tree::Within { from, to }
}

/// The last `span` nanoseconds.
fn since(now: i64, span: i64) -> Tree
    ensures { needed_of result ≡ is.time_within (now -ℤ span +ℤ pos 1) now }
{
    within(first_moment(now, span), now as i128)
}

/// The first of the last `span` nanoseconds.
fn first_moment(now: i64, span: i64) -> i128
    ensures { result ≡ now -ℤ span +ℤ pos 1 }
{
    now as i128 - span as i128 + 1
}

fn stream(alloc: Global, select: &Select) -> Result<Tree, AllocError>
    ensures { IfOk result (λ tree. needed_of tree ≡ is.stream_selected (groups_of select.now)) }
{
    let selection = Selection::new(alloc, select)?;
    Ok(Tree::Stream(selection))
}
