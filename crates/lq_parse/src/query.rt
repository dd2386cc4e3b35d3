// Whole queries.
ghost use Rattle.std.specs.Prelude.{◌≡◌, ◌≢◌, Result, Ok, Err, IfOk};
ghost use Rattle.lq_ast.specs.Question.{Question, question};
ghost use Rattle.lq_grammar.specs.Query.{HasItems, QueryOf, IsQueryText};
ghost use Rattle.lq_grammar.specs.Clauses.{Gives};
ghost use Rattle.lq_parse.specs.Outcome.{outcome, reading, NamesStop};
ghost use Rattle.lq_grammar.specs.declared.fault.QueryFault.{QueryFault};

use crate::pipes::{MOST_OPEN, pipes};
use lq_ast::Query;
use lq_grammar::scan::place_of_left;
use lq_grammar::{Item, QueryFault, Scope, Stop, items};
use lq_lex::tokens;
use lq_parse_filter::or;
use std::alloc::Global;

/// Returns the query that a text of at most 16,384 bytes spells (LogsQL, "Query syntax").
pub fn parse(alloc: Global, s: &str) -> Result<Query, QueryFault>
    // The text spells the query.
    ensures spelled { IfOk result (λ query. IsQueryText s.now (question query)) }
    ensures complete { (asked : Question) → IsQueryText s.now asked → result ≢ Err QueryFault.Memory
        → outcome result ≡ Ok asked }
    // Each text is a query or has one first fault, and which is answered, unless memory runs out.
    ensures found { result ≢ Err QueryFault.Memory → QueryOf s.now (outcome result) }
    ensures only { (other : Result Question QueryFault) → QueryOf s.now other → result ≢ Err QueryFault.Memory
        → outcome result ≡ other }
{
    let tokens = tokens(alloc, s)?;
    let items = items(alloc, &tokens)?;
    query_of(alloc, &items, s)
}

/// Parses the tokens of a text as a query.
fn query_of(alloc: Global, tokens: &[Item], text: &str) -> Result<Query, QueryFault>
    requires { HasItems text.now tokens.now }
    ensures { result ≢ Err QueryFault.Memory → QueryOf text.now (outcome result) }
{
    match whole(alloc, tokens) {
        Ok(query) => Ok(query),
        Err(stop) => Err(fault_of(stop, tokens, text)),
    }
}

/// Parses all these tokens as a query.
#[tactic(auto, unfolding(lq_grammar::specs::LogsQL::query))]
fn whole(alloc: Global, tokens: &[Item]) -> Result<Query, Stop>
    ensures { Gives question result (reading tokens.now) }
{
    let (filter, rest) = or(alloc, tokens, MOST_OPEN, Scope::Rows, None)?;
    let (pipes, rest) = pipes(alloc, rest)?;
    match rest {
        [] => Ok(Query { filter, pipes }),
        _ => Err(Stop::Stuck { left: rest.len() }),
    }
}

/// Returns the fault of a text, with its place, by where the reader of all its tokens stopped.
fn fault_of(stop: Stop, tokens: &[Item], text: &str) -> QueryFault
    requires text { HasItems text.now tokens.now }
    requires stops { Gives question (Err stop) (reading tokens.now) }
    ensures { NamesStop text.now tokens.now result }
{
    match stop {
        Stop::Stuck { left } => QueryFault::Syntax {
            at: place_of_left(tokens, left, text),
        },
        Stop::TooDeep { at } => QueryFault::TooDeep { at },
        Stop::BadNumber { at } => QueryFault::BadNumber { at },
        Stop::BadTime { at } => QueryFault::BadTime { at },
        Stop::BadDuration { at } => QueryFault::BadDuration { at },
        Stop::BadPattern { at } => QueryFault::BadPattern { at },
        Stop::Memory => QueryFault::Memory,
    }
}
