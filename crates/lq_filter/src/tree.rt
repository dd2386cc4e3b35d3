ghost use Rattle.std.specs.Prelude.{◌≡◌, ◌+◌, ℕ, List, [], ◌∷◌, length, map};
ghost use Rattle.std.specs.Prelude.{IfOk, IfErr, IfSome, IsOk};
ghost use Rattle.std.specs.List.{AllByRecursion};
ghost use Rattle.lq_ast.specs.Condition as is;
ghost use Rattle.lq_ast.specs.Condition.{conditions};
ghost use Rattle.lq_ast.specs.Holds.{are_all_met, is_met, is_some_met, selects};
ghost use Rattle.lq_ast.specs.Patterns.{CanBeRead, IsReadable, Pattern, patterns_among, patterns_of};
ghost use Rattle.lq_ast.specs.View.{condition, groups_of};
ghost use Rattle.lq_filter.specs.Labels.{groups_of as prepared_groups};
ghost use Rattle.lq_filter.specs.Refusal.{IsRefusal};
ghost use Rattle.lq_filter.specs.Subject.{subject_of};
ghost use Rattle.lq_filter.specs.Tree.{condition_of_tree};
ghost use Rattle.lq_filter.specs.Value.{condition_of_field};

use crate::asking::Asking;
use crate::fault::PrepareFault;
use crate::forms;
use crate::labels::Selector;
use crate::room::Room;
use crate::subject::Subject;
use crate::value::FieldTest;
use lent_row::LentRow;
use lq_ast::{Filter, Select};
use std::alloc::AllocError;
use vl_row::{Stream, Text};

/// A filter for which everything that does not depend on a row is done.
#[derive(Drop)]
pub enum Tree {
    /// Every row.
    Always,
    /// The value of a field passes a test.
    Field(FieldTest),
    /// The row is of the last `span` nanoseconds, and not of the future.
    Last { span: i64 },
    /// The time of the row is between the ends, both included, in nanoseconds since 1970.
    Times { from: i128, to: i128 },
    /// The stream of the row is selected.
    Selected(Selector),
    /// The filter does not hold.
    Not(Box<Tree>),
    /// All of the filters hold.
    All(Vec<Tree>),
    /// Some of the filters holds.
    Any(Vec<Tree>),
}

impl Tree {
    /// Prepares a filter, whose first pattern has the number `nth`, and raises it by the number of patterns.
    #[cycle(preparing)]
    pub(crate) fn new(room: &mut Room, filter: &Filter, nth: &mut u32) -> Result<Tree, PrepareFault>
        ensures same { IfOk result (λ tree. condition_of_tree tree ≡ condition filter.now) }
        ensures counted { IsOk result → nth.new ≡ nth.old + length (patterns_of (condition filter.now)) }
        ensures readable { IfOk result (λ _. AllByRecursion CanBeRead (patterns_of (condition filter.now))) }
        ensures refused { IfErr result (IsRefusal nth.old (patterns_of (condition filter.now))) }
    {
        let alloc = room.alloc;
        match filter {
            Filter::All => Ok(Tree::Always),
            Filter::Any { field } => plain(forms::filled(alloc, field)),
            Filter::Empty { field } => plain(forms::missing(alloc, field)),
            Filter::Phrase { field, text } => plain(forms::phrase(alloc, field, text)),
            Filter::Prefix { field, text } => plain(forms::prefix(alloc, field, text)),
            Filter::Exact { field, text } => plain(forms::exact(alloc, field, text)),
            Filter::ExactPrefix { field, text } => plain(forms::exact_prefix(alloc, field, text)),
            Filter::OneOf { field, texts } => plain(forms::one_of(alloc, field, texts.as_slice())),
            Filter::Regex { field, pattern } => of_pattern(room, field, pattern, nth),
            Filter::Fold { field, text } => plain(forms::folded(alloc, field, text)),
            Filter::Seq { field, texts } => plain(forms::sequence(alloc, field, texts.as_slice())),
            Filter::Length { field, low, high } => plain(forms::length(alloc, field, *low, *high)),
            Filter::Between { field, low, high } => plain(forms::between(alloc, field, low, high)),
            Filter::Range { field, low, high } => plain(forms::number(alloc, field, *low, *high)),
            Filter::Last { span } => Ok(Tree::Last { span: *span }),
            Filter::Times { from, to } => Ok(Tree::Times {
                from: *from,
                to: *to,
            }),
            Filter::Select(select) => of_selector(room, select, nth),
            Filter::Not(filter) => negated(room, filter, nth),
            Filter::All2(filters) => all_of(room, filters.as_slice(), nth),
            Filter::Any2(filters) => any_of(room, filters.as_slice(), nth),
        }
    }
}

#[cycle(preparing)]
fn negated(room: &mut Room, filter: &Filter, nth: &mut u32) -> Result<Tree, PrepareFault>
    ensures same { IfOk result (λ tree. condition_of_tree tree ≡ is.negated (condition filter.now)) }
    ensures counted { IsOk result → nth.new ≡ nth.old + length (patterns_of (condition filter.now)) }
    ensures readable { IfOk result (λ _. AllByRecursion CanBeRead (patterns_of (condition filter.now))) }
    ensures refused { IfErr result (IsRefusal nth.old (patterns_of (condition filter.now))) }
{
    let tree = Tree::new(room, filter, nth)?;
    Ok(Tree::Not(Box::new(room.alloc, tree)?))
}

#[cycle(preparing)]
fn all_of(room: &mut Room, filters: &[Filter], nth: &mut u32) -> Result<Tree, PrepareFault>
    ensures same { IfOk result (λ tree. condition_of_tree tree ≡ is.all_of (conditions (map condition filters.now))) }
    ensures counted { IsOk result →
        nth.new ≡ nth.old + length (patterns_among (conditions (map condition filters.now))) }
    ensures readable { IfOk result
        (λ _. AllByRecursion CanBeRead (patterns_among (conditions (map condition filters.now)))) }
    ensures refused { IfErr result (IsRefusal nth.old (patterns_among (conditions (map condition filters.now)))) }
{
    let trees = trees(room, filters, nth)?;
    Ok(Tree::All(trees))
}

#[cycle(preparing)]
fn any_of(room: &mut Room, filters: &[Filter], nth: &mut u32) -> Result<Tree, PrepareFault>
    ensures same { IfOk result (λ tree. condition_of_tree tree ≡ is.any_of (conditions (map condition filters.now))) }
    ensures counted { IsOk result →
        nth.new ≡ nth.old + length (patterns_among (conditions (map condition filters.now))) }
    ensures readable { IfOk result
        (λ _. AllByRecursion CanBeRead (patterns_among (conditions (map condition filters.now)))) }
    ensures refused { IfErr result (IsRefusal nth.old (patterns_among (conditions (map condition filters.now)))) }
{
    let trees = trees(room, filters, nth)?;
    Ok(Tree::Any(trees))
}

#[cycle(preparing)]
fn trees(room: &mut Room, filters: &[Filter], nth: &mut u32) -> Result<Vec<Tree>, PrepareFault>
    ensures same { IfOk result (λ trees. map condition_of_tree trees.items ≡ map condition filters.now) }
    ensures counted { IsOk result →
        nth.new ≡ nth.old + length (patterns_among (conditions (map condition filters.now))) }
    ensures readable { IfOk result
        (λ _. AllByRecursion CanBeRead (patterns_among (conditions (map condition filters.now)))) }
    ensures refused { IfErr result (IsRefusal nth.old (patterns_among (conditions (map condition filters.now)))) }
{
    let mut trees = Vec::new(room.alloc);
    for filter in filters {
        let tree = Tree::new(room, filter, nth)?;
        trees.push(tree)?;
    }
    Ok(trees)
}

// Returns a test of a field's value, which has no pattern.
fn plain(made: Result<FieldTest, AllocError>) -> Result<Tree, PrepareFault>
    ensures same { (asked : is.Condition) → IfOk made (λ field. condition_of_field field ≡ asked)
        → IfOk result (λ tree. condition_of_tree tree ≡ asked) }
    ensures refused { (first : ℕ) (patterns : List Pattern) → IfErr result (IsRefusal first patterns) }
{
    match made {
        Ok(field) => Ok(Tree::Field(field)),
        Err(_) => Err(PrepareFault::Memory),
    }
}

fn of_pattern(
    room: &mut Room,
    field: &Text,
    pattern: &Text,
    nth: &mut u32,
) -> Result<Tree, PrepareFault>
    ensures same { IfOk result (λ tree. condition_of_tree tree ≡ is.pattern field.now pattern.now) }
    ensures counted { IsOk result → nth.new ≡ nth.old + 1 }
    ensures readable { IfOk result (λ _. IsReadable pattern.now) }
    ensures refused { IfErr result (IsRefusal nth.old ((pattern.now, pattern.now) ∷ [])) }
{
    let field = forms::pattern(room, field, pattern, nth)?;
    Ok(Tree::Field(field))
}

fn of_selector(room: &mut Room, select: &Select, nth: &mut u32) -> Result<Tree, PrepareFault>
    ensures same { IfOk result (λ tree. condition_of_tree tree ≡ is.selected (groups_of select.now)) }
    ensures counted { IsOk result → nth.new ≡ nth.old + length (patterns_of (is.selected (groups_of select.now))) }
    ensures readable { IfOk result (λ _. AllByRecursion CanBeRead (patterns_of (is.selected (groups_of select.now)))) }
    ensures refused { IfErr result (IsRefusal nth.old (patterns_of (is.selected (groups_of select.now)))) }
{
    let selector = Selector::new(room, select, nth)?;
    Ok(Tree::Selected(selector))
}

impl Tree {
    /// Returns whether the filter holds for the subject. The filters of an AND or an OR are asked in their order, up to
    /// the first that settles it.
    #[cycle(holding)]
    pub(crate) fn holds<'p, R: LentRow>(
        &'p self,
        asking: &mut Asking<'p>,
        subject: &Subject<'_, R>,
    ) -> Result<bool, AllocError>
        ensures { IfOk result
            (λ found. found ≡ is_met (condition_of_tree self.now) (subject_of R.event subject.now)) }
    {
        match self {
            Tree::Always => Ok(true),
            Tree::Field(field) => field.holds(asking, subject),
            Tree::Last { span } => Ok(subject.is_recent(*span)),
            Tree::Times { from, to } => Ok(subject.is_during(*from, *to)),
            Tree::Selected(selector) => selects(selector, asking, subject),
            Tree::Not(tree) => Ok(!tree.holds(asking, subject)?),
            Tree::All(trees) => all_hold(trees.as_slice(), asking, subject),
            Tree::Any(trees) => some_holds(trees.as_slice(), asking, subject),
        }
    }
}

// A record is of the stream without labels.
fn selects<'p, R: LentRow>(
    selector: &'p Selector,
    asking: &mut Asking<'p>,
    subject: &Subject<'_, R>,
) -> Result<bool, AllocError>
    ensures { IfOk result
        (λ found. found ≡ selects (prepared_groups selector.now) (subject_of R.event subject.now).labels) }
{
    match subject {
        Subject::Row { row, .. } => selector.selects(asking, (*row).stream()),
        Subject::Record(_) => selector.selects(asking, &Stream::new(asking.alloc)),
    }
}

impl Tree {
    /// Returns the selector in it that was prepared from this one, if one was.
    #[cycle(finding)]
    pub(crate) fn selector_of(&self, select: &Select) -> Option<&Selector>
        ensures { IfSome result (λ selector. prepared_groups selector.now ≡ groups_of select.now) }
    {
        match self {
            Tree::Selected(selector) if selector.is_of(select) => Some(selector),
            Tree::Not(tree) => tree.selector_of(select),
            Tree::All(trees) | Tree::Any(trees) => selector_among(trees.as_slice(), select),
            _ => None,
        }
    }
}

#[cycle(finding)]
fn selector_among<'t>(trees: &'t [Tree], select: &Select) -> Option<&'t Selector>
    ensures { IfSome result (λ selector. prepared_groups selector.now ≡ groups_of select.now) }
{
    for tree in trees {
        let found = tree.selector_of(select);
        if found.is_some() {
            return found;
        }
    }
    None
}

#[cycle(holding)]
fn all_hold<'p, R: LentRow>(
    trees: &'p [Tree],
    asking: &mut Asking<'p>,
    subject: &Subject<'_, R>,
) -> Result<bool, AllocError>
    ensures { IfOk result (λ found.
        found ≡ are_all_met (conditions (map condition_of_tree trees.now)) (subject_of R.event subject.now)) }
{
    for tree in trees {
        let found = tree.holds(asking, subject)?;
        if !found {
            return Ok(false);
        }
    }
    Ok(true)
}

#[cycle(holding)]
fn some_holds<'p, R: LentRow>(
    trees: &'p [Tree],
    asking: &mut Asking<'p>,
    subject: &Subject<'_, R>,
) -> Result<bool, AllocError>
    ensures { IfOk result (λ found.
        found ≡ is_some_met (conditions (map condition_of_tree trees.now)) (subject_of R.event subject.now)) }
{
    for tree in trees {
        let found = tree.holds(asking, subject)?;
        if found {
            return Ok(true);
        }
    }
    Ok(false)
}
