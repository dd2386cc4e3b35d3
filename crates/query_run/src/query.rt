//! How a query is read and prepared.
ghost use Rattle.std.specs.Prelude.{◌≡◌, ◌≢◌, Err, IfErr, IfOk, IsErr};
ghost use Rattle.std.specs.List.{AllByRecursion};
ghost use Rattle.lq_ast.specs.Patterns.{CanBeRead, all_patterns};
ghost use Rattle.lq_ast.specs.Question.{question};
ghost use Rattle.lq_parse.specs.Query.{IsQueryText};
ghost use Rattle.query_run.specs.Asked.{IsNoReadableQuery, IsReadableQuery, Refuses};
ghost use Rattle.query_run.specs.declared.query.QueryRefusal.TheVariants.{Memory, Unspelled};

use crate::search::Search;
use lq_filter::{PrepareFault, prepare};
use lq_parse::{QueryFault, parse};
use std::alloc::Global;

/// Why a query is not asked.
#[derive(Clone, Copy, Debug, PartialEq, Eq)]
pub enum QueryRefusal {
    /// The text spells no query, for this fault, which is never out of memory.
    Unspelled(QueryFault),
    /// The regular expression with this number, counted from 0 in the order of the text, is the first that cannot be
    /// read.
    Pattern { nth: u32 },
    /// Memory ran out.
    Memory,
}

impl From<QueryFault> for QueryRefusal {
    ghost use Rattle.query_run.specs.Asked.{refused_by};

    ghost from_gives = { λ fault refusal. refusal ≡ refused_by fault };

    fn from(fault: QueryFault) -> QueryRefusal {
        match fault {
            QueryFault::Memory => QueryRefusal::Memory,
            _ => QueryRefusal::Unspelled(fault),
        }
    }
}

impl From<PrepareFault> for QueryRefusal {
    ghost use Rattle.query_run.specs.Asked.{refused_pattern};

    ghost from_gives = { λ fault refusal. refusal ≡ refused_pattern fault };

    fn from(fault: PrepareFault) -> QueryRefusal {
        match fault {
            PrepareFault::RegexRefused { nth } => QueryRefusal::Pattern { nth },
            PrepareFault::Memory => QueryRefusal::Memory,
        }
    }
}

/// Reads the text and prepares its query. All of its patterns are read too. `Memory` may always be returned.
pub fn read_query(alloc: Global, text: &str) -> Result<Search, QueryRefusal>
    ensures read { IfOk result (λ query. IsQueryText text.now (question query)) }
    ensures patterns { IfOk result (λ query. AllByRecursion CanBeRead (all_patterns (question query))) }
    ensures refused { IfErr result (Refuses text.now) }
    ensures fault { result ≢ Err (Unspelled QueryFault.Memory) }

    // A query is refused where it cannot be asked. It is asked where it can, unless memory runs out.
    ensures unasked { IsNoReadableQuery text.now → IsErr result }
    ensures readable { IsReadableQuery text.now → IfErr result (λ refusal. refusal ≡ Memory) }
{
    let query = parse(alloc, text)?;
    let filter = prepare(alloc, &query)?;
    Ok(Search::of(query, filter))
}
