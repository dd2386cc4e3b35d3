//! Which fields of rows matter to pipes, and records of these fields only.
ghost use Rattle.std.specs.Prelude.{◌≡◌, [], ◌∷◌, ◌++◌, IfOk, List, OnOk, Some, flat_map, map, option_map};
ghost use Rattle.std.specs.List.{AllByRecursion};
ghost use Rattle.log_model.specs.Field.{IsFieldList};
ghost use Rattle.lq_ast.specs.Condition.{conditions};
ghost use Rattle.lq_ast.specs.MakingView.{expression, making, math_item, pattern_piece, pattern_pieces};
ghost use Rattle.lq_ast.specs.PipeView.{group_by, grouping, name_pair, sort_by, sorting, stage, statistic};
ghost use Rattle.lq_ast.specs.Pipes.{all_piped};
ghost use Rattle.lq_ast.specs.Records.{Record};
ghost use Rattle.lq_ast.specs.View.{condition};
ghost use Rattle.lq_pipes.specs.Needs.{asked_among, asked_by, asked_by_statistic, looked_at, makes_anew};
ghost use Rattle.lq_pipes.specs.Needs.{named_by, named_in_expression, named_in_item, named_in_piece};
ghost use Rattle.lq_pipes.specs.Needs.{narrowed, needed};

use lq_ast::{
    Expr, Filter, Func, MathItem, Pair, Pattern, Piece, Pipe, RowPipe, SortKey, SortPipe, StatKey,
    StatsPipe,
};
use std::alloc::{AllocError, Global};
use std::marker::Model;
use vl_row::Text;

/// Which fields of the first records matter to pipes: all of them, or those of some names.
///
/// A contract sees it as the names, if not all fields matter.
#[derive(Drop)]
pub(crate) struct Needs {
    names: Option<Vec<Text>>,
}

impl Model for Needs {
    ghost use Rattle.std.specs.Prelude.{ℕ, List, Option, option_map};

    ghost Value = { Option (List (List ℕ)) };

    ghost view = { λ n. option_map (λ names. names.items) n.names };
}

impl Needs {
    /// Returns the fields that pipes look at, up to the first pipe that makes its records of those only. All matter
    /// where there is none.
    pub(crate) fn of(alloc: Global, pipes: &[Pipe]) -> Result<Needs, AllocError>
        ensures names { IfOk result (λ needs. needs ≡ needed (map stage pipes.now)) }
        // the pipes make of records of these fields what they make of whole ones
        ensures enough { IfOk result (λ needs. (records : List Record) → AllByRecursion IsFieldList records
            → all_piped (map stage pipes.now) (map (narrowed needs) records)
            ≡ all_piped (map stage pipes.now) records) }
    {
        let mut names = Vec::new(alloc);
        for pipe in pipes {
            push_pipe(alloc, pipe, &mut names)?;
            if makes_anew(pipe) {
                return Ok(Needs { names: Some(names) });
            }
        }
        Ok(Needs { names: None })
    }

    /// Returns the fields by which a `sort` compares.
    pub(crate) fn of_sort(alloc: Global, sort: &SortPipe) -> Result<Needs, AllocError>
        ensures { IfOk result (λ needs. needs ≡ Some (map (λ key. key.0) (sorting sort.now).keys)) }
    {
        let mut names = Vec::new(alloc);
        push_sort_keys(alloc, sort.keys.as_slice(), &mut names)?;
        Ok(Needs { names: Some(names) })
    }

    /// Returns the names, if not all fields matter.
    pub(crate) fn names(&self) -> Option<&[Text]>
        ensures { option_map (λ names. names.now) result ≡ self.now }
    {
        match &self.names {
            Some(names) => Some(names.as_slice()),
            None => None,
        }
    }
}

/// Returns whether a pipe makes its records of only the fields that it looks at.
fn makes_anew(pipe: &Pipe) -> bool
    ensures { result ≡ makes_anew (stage pipe.now) }
{
    matches!(
        pipe,
        Pipe::Fields(_) | Pipe::Uniq(_) | Pipe::Stats(_) | Pipe::Top(_),
    )
}

/// Adds the fields that a pipe looks at.
fn push_pipe(alloc: Global, pipe: &Pipe, names: &mut Vec<Text>) -> Result<(), AllocError>
    ensures { OnOk result (names.new.items ≡ names.old.items ++ looked_at (stage pipe.now)) }
{
    match pipe {
        Pipe::Fields(fields) => push_all(alloc, fields.as_slice(), names),
        Pipe::Rename(pairs) | Pipe::Copy(pairs) => push_sources(alloc, pairs.as_slice(), names),
        Pipe::Sort(sort) => push_sort_keys(alloc, sort.keys.as_slice(), names),
        Pipe::Uniq(uniq) => push_all(alloc, uniq.names.as_slice(), names),
        Pipe::Stats(stats) => push_stats(alloc, stats, names),
        Pipe::Keep(filter) => push_filter(alloc, filter, names),
        Pipe::Top(top) => push_all(alloc, top.names.as_slice(), names),
        Pipe::Make(making) => push_making(alloc, making, names),
        Pipe::Delete(_) | Pipe::Limit(_) | Pipe::Offset(_) => Ok(()),
    }
}

fn push_one(alloc: Global, name: &Text, names: &mut Vec<Text>) -> Result<(), AllocError>
    ensures { OnOk result (names.new.items ≡ names.old.items ++ name.now ∷ []) }
{
    names.push(name.try_copy(alloc)?)?;
    Ok(())
}

fn push_all(alloc: Global, fields: &[Text], names: &mut Vec<Text>) -> Result<(), AllocError>
    ensures { OnOk result (names.new.items ≡ names.old.items ++ fields.now) }
{
    for name in fields {
        push_one(alloc, name, names)?;
    }
    Ok(())
}

fn push_sources(alloc: Global, pairs: &[Pair], names: &mut Vec<Text>) -> Result<(), AllocError>
    ensures { OnOk result (names.new.items ≡ names.old.items ++ map (λ pair. pair.0) (map name_pair pairs.now)) }
{
    for pair in pairs {
        push_one(alloc, &pair.from, names)?;
    }
    Ok(())
}

fn push_sort_keys(alloc: Global, keys: &[SortKey], names: &mut Vec<Text>) -> Result<(), AllocError>
    ensures { OnOk result (names.new.items ≡ names.old.items ++ map (λ key. key.0) (map sort_by keys.now)) }
{
    for key in keys {
        push_one(alloc, &key.name, names)?;
    }
    Ok(())
}

fn push_stats(alloc: Global, stats: &StatsPipe, names: &mut Vec<Text>) -> Result<(), AllocError>
    ensures { OnOk result (names.new.items ≡ names.old.items ++ (map (λ key. key.0) (grouping stats.now).keys
        ++ flat_map asked_by_statistic (grouping stats.now).statistics)) }
{
    push_group_keys(alloc, stats.keys.as_slice(), names)?;
    push_funcs(alloc, stats.funcs.as_slice(), names)
}

fn push_group_keys(alloc: Global, keys: &[StatKey], names: &mut Vec<Text>) -> Result<(), AllocError>
    ensures { OnOk result (names.new.items ≡ names.old.items ++ map (λ key. key.0) (map group_by keys.now)) }
{
    for key in keys {
        push_one(alloc, &key.name, names)?;
    }
    Ok(())
}

fn push_funcs(alloc: Global, funcs: &[Func], names: &mut Vec<Text>) -> Result<(), AllocError>
    ensures { OnOk result (names.new.items
        ≡ names.old.items ++ flat_map asked_by_statistic (map statistic funcs.now)) }
{
    for func in funcs {
        push_func(alloc, func, names)?;
    }
    Ok(())
}

fn push_func(alloc: Global, func: &Func, names: &mut Vec<Text>) -> Result<(), AllocError>
    ensures { OnOk result (names.new.items ≡ names.old.items ++ asked_by_statistic (statistic func.now)) }
{
    push_all(alloc, func.names.as_slice(), names)?;
    match &func.only {
        Some(filter) => push_filter(alloc, filter, names),
        None => Ok(()),
    }
}

#[cycle(naming)]
fn push_filter(alloc: Global, filter: &Filter, names: &mut Vec<Text>) -> Result<(), AllocError>
    ensures { OnOk result (names.new.items ≡ names.old.items ++ asked_by (condition filter.now)) }
{
    match filter {
        Filter::All | Filter::Last { .. } | Filter::Times { .. } | Filter::Select(_) => Ok(()),
        Filter::Any { field }
        | Filter::Empty { field }
        | Filter::Phrase { field, .. }
        | Filter::Prefix { field, .. }
        | Filter::Exact { field, .. }
        | Filter::ExactPrefix { field, .. }
        | Filter::OneOf { field, .. }
        | Filter::Regex { field, .. }
        | Filter::Fold { field, .. }
        | Filter::Seq { field, .. }
        | Filter::Length { field, .. }
        | Filter::Between { field, .. }
        | Filter::Range { field, .. } => push_one(alloc, field, names),
        Filter::Not(filter) => push_filter(alloc, filter, names),
        Filter::All2(filters) | Filter::Any2(filters) => {
            push_filters(alloc, filters.as_slice(), names)
        }
    }
}

#[cycle(naming)]
fn push_filters(alloc: Global, filters: &[Filter], names: &mut Vec<Text>) -> Result<(), AllocError>
    ensures { OnOk result (names.new.items
        ≡ names.old.items ++ asked_among (conditions (map condition filters.now))) }
{
    for filter in filters {
        push_filter(alloc, filter, names)?;
    }
    Ok(())
}

fn push_making(alloc: Global, pipe: &RowPipe, names: &mut Vec<Text>) -> Result<(), AllocError>
    ensures { OnOk result (names.new.items ≡ names.old.items ++ named_by (making pipe.now)) }
{
    match pipe {
        RowPipe::Extract { from, .. } | RowPipe::Len { from, .. } => push_one(alloc, from, names),
        RowPipe::Format { pattern, .. } => push_pattern(alloc, pattern, names),
        RowPipe::Math { items } => push_items(alloc, items.as_slice(), names),
    }
}

fn push_pattern(alloc: Global, pattern: &Pattern, names: &mut Vec<Text>) -> Result<(), AllocError>
    ensures { OnOk result (names.new.items
        ≡ names.old.items ++ flat_map named_in_piece (pattern_pieces pattern.now)) }
{
    for piece in pattern.pieces.as_slice() {
        push_piece(alloc, piece, names)?;
    }
    Ok(())
}

fn push_piece(alloc: Global, piece: &Piece, names: &mut Vec<Text>) -> Result<(), AllocError>
    ensures { OnOk result (names.new.items ≡ names.old.items ++ named_in_piece (pattern_piece piece.now)) }
{
    match piece {
        Piece::Plain(_) => Ok(()),
        Piece::Name(name) => push_one(alloc, name, names),
    }
}

fn push_items(alloc: Global, items: &[MathItem], names: &mut Vec<Text>) -> Result<(), AllocError>
    ensures { OnOk result (names.new.items
        ≡ names.old.items ++ flat_map named_in_item (map math_item items.now)) }
{
    for item in items {
        push_expression(alloc, &item.expr, names)?;
    }
    Ok(())
}

fn push_expression(alloc: Global, expr: &Expr, names: &mut Vec<Text>) -> Result<(), AllocError>
    ensures { OnOk result (names.new.items ≡ names.old.items ++ named_in_expression (expression expr.now)) }
{
    match expr {
        Expr::Whole(_) => Ok(()),
        Expr::Named(field) => push_one(alloc, field, names),
        Expr::Two { left, right, .. } => {
            push_expression(alloc, left, names)?;
            push_expression(alloc, right, names)
        }
    }
}
