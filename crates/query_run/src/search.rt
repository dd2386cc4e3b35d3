//! Queries that are read and prepared.
ghost use Rattle.std.specs.Prelude.{◌≡◌};
ghost use Rattle.std.specs.List.{AllByRecursion};
ghost use Rattle.lq_ast.specs.Patterns.{CanBeRead, all_patterns};
ghost use Rattle.lq_ast.specs.Question.{question};
ghost use Rattle.lq_ast.specs.View.{condition};
ghost use Rattle.lq_filter.specs.Tree.{condition_of};

use lq_ast::Query;
use lq_filter::Prepared;
use std::marker::Model;

/// A prepared query: its regular expressions can all be read, and its filter is prepared.
///
/// A contract sees the query.
#[derive(Drop)]
pub struct Search {
    query: Query,
    filter: Prepared,
}

impl Model for Search {
    ghost use Rattle.std.specs.Coded.{codes};
    ghost use Rattle.std.specs.List.{AllByRecursion};
    ghost use Rattle.std.specs.Prelude.{◌≡◌};
    ghost use Rattle.lq_ast.specs.Patterns.{CanBeRead, all_patterns};
    ghost use Rattle.lq_ast.specs.Question.{question};
    ghost use Rattle.lq_ast.specs.View.{condition};
    ghost use Rattle.lq_ast.specs.contracts.query.Query as the_query;
    ghost use Rattle.lq_ast.specs.declared.query.Query.{Query as TheQuery};
    ghost use Rattle.lq_filter.specs.Tree.{condition_of};

    ghost Value = { TheQuery };

    ghost coded = { Prim.hlevel (codes, the_query.the_row.coded) };

    ghost view = { λ s. s.query };

    ghost invariant = { λ s. (condition_of s.filter ≡ condition s.query.filter)
        × AllByRecursion CanBeRead (all_patterns (question s.query)) };
}

impl Search {
    /// Returns the query with its filter, which was prepared from it.
    pub(crate) fn of(query: Query, filter: Prepared) -> Search
        requires prepared { condition_of filter ≡ condition query.filter }
        requires readable { AllByRecursion CanBeRead (all_patterns (question query)) }
        ensures { result ≡ query }
    {
        Search { query, filter }
    }

    /// Returns the query.
    pub(crate) fn query(&self) -> &Query
        ensures same { result.now ≡ self.now }
        ensures readable { AllByRecursion CanBeRead (all_patterns (question self.now)) }
    {
        &self.query
    }

    /// Returns its filter.
    pub(crate) fn filter(&self) -> &Prepared
        ensures { condition_of result.now ≡ condition self.now.filter }
    {
        &self.filter
    }
}
