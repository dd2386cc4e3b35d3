//! Queries over what the desk holds.
ghost use Rattle.std.specs.Prelude.{◌≡◌, ◌≤ℤ◌, IfErr, IfOk, OnOk, pos, unsigned_abs};
ghost use Rattle.log_desk.specs.Passes.{IsPassOf};
ghost use Rattle.log_desk.specs.Seen.{caller_of, seen_of};
ghost use Rattle.log_model.specs.Core.{parts_of};
ghost use Rattle.log_model.specs.History.{rows_of};
ghost use Rattle.query_run.specs.Answer.{FailsOver};
ghost use Rattle.query_run.specs.Asked.{IsReadableQuery};
ghost use Rattle.query_run.specs.Opened.{Counts, admitted};
ghost use Rattle.query_run.specs.Question.{question};
ghost use Rattle.vl_session.specs.Answer.{FailsQuery, HasRecords, IsOfEvaluation, IsQueryAnswer, IsSearchAnswer};
ghost use Rattle.vl_session.specs.Answer.{OpensAdmitted, fault_effect};
ghost use Rattle.vl_session.specs.Seen.{Has, Looks};

use crate::access::Access;
use crate::law::select_law;
use log_core::Snapshot;
use log_desk::{Desk, Pass};
use part_file::Part;
use query_run::{QueryFault, QueryRefusal, Search, SearchFault, Steps, answer, read_query};
use std::alloc::{AllocError, Global};
use std::random::RandomSource;
use std::sync::Wait;
use vl_row::Text;

/// The answer to a query.
#[derive(Drop)]
pub struct Answer {
    /// How many batches it is over.
    pub front: u64,
    /// Its records, each as a JSON object on a line.
    pub lines: Text,
    /// What the desk held then, which the answer is over.
    pub snapshot: Snapshot<Part>,
}

/// Why a query has no answer.
#[derive(Drop)]
pub enum AnswerFault {
    /// The text spells no query, for this fault, which is not out of memory.
    Query(QueryFault),
    /// The regular expression with this number, counted from 0 in the order of the text, is the first that cannot be
    /// read.
    RegexRefused { nth: u32 },
    /// 2^32 rows hold, or more.
    ManyRows,
    /// The total of the function of `stats` with this name is not a 64-bit integer.
    Overflow { name: Text },
    /// Memory ran out.
    Memory,
}

impl From<QueryRefusal> for AnswerFault {
    ghost use Rattle.vl_session.specs.Answer.{fault_of_refusal};

    ghost from_gives = { λ refusal fault. fault ≡ fault_of_refusal refusal };

    fn from(refusal: QueryRefusal) -> AnswerFault {
        match refusal {
            QueryRefusal::Unspelled(fault) => AnswerFault::Query(fault),
            QueryRefusal::Pattern { nth } => AnswerFault::RegexRefused { nth },
            QueryRefusal::Memory => AnswerFault::Memory,
        }
    }
}

impl From<SearchFault> for AnswerFault {
    ghost use Rattle.vl_session.specs.Answer.{fault_of_run};

    ghost from_gives = { λ run fault. fault ≡ fault_of_run run };

    fn from(fault: SearchFault) -> AnswerFault {
        match fault {
            SearchFault::ManyRows => AnswerFault::ManyRows,
            SearchFault::Overflow { name } => AnswerFault::Overflow { name },
            SearchFault::Memory => AnswerFault::Memory,
        }
    }
}

/// Answers a query at the moment `now`, in nanoseconds since the start of 1970, over all batches of the history that
/// the pass has then seen.
///
/// A text that spells no query, or has a pattern that cannot be read, is refused without a look at the log. Of the
/// blocks that the desk held, those are opened that the query needs, each as one step of the counter.
pub fn answer_query<R: Wait + RandomSource, L>(
    rt: &R,
    alloc: Global,
    desk: &Desk,
    pass: &mut Pass,
    text: &str,
    now: i64,
    steps: &mut Steps<L>,
) -> Result<Answer, AnswerFault>
    requires pass { IsPassOf desk.now pass.old }
    requires moment { pos 0 ≤ℤ now }
    ensures answered { IfOk result (IsQueryAnswer text.now (unsigned_abs now) (seen_of pass.new).history) }
    ensures refused { IfErr result (FailsQuery text.now (unsigned_abs now) (seen_of pass.new).history) }
    ensures opened { IfOk result (λ answer.
        OpensAdmitted text.now (unsigned_abs now) answer.snapshot steps.old steps.new) }

    // A query that can be asked fails in its evaluation only, and not there where that has records, unless memory runs
    // out.
    ensures asked { IsReadableQuery text.now → IfErr result IsOfEvaluation }
    ensures complete { HasRecords text.now (unsigned_abs now) (seen_of pass.new).history
        → IfErr result (λ fault. fault ≡ AnswerFault.Memory) }

    // An answer takes a turn, and what was seen then begins with what was seen before.
    ensures looks { OnOk result (Looks (caller_of pass.old) (seen_of pass.old) (seen_of pass.new)) }
    ensures effect { IfErr result (λ fault. Has (caller_of pass.old) (seen_of pass.old) (seen_of pass.new)
        (fault_effect fault)) }
    ensures pass { IsPassOf desk.now pass.new }
    ensures caller { caller_of pass.new ≡ caller_of pass.old }
{
    select_law();
    let search = match read_query(alloc, text) {
        Ok(search) => search,
        Err(refusal) => return Err(AnswerFault::from(refusal)),
    };
    let access = Access { rt, alloc, desk };
    match access.answer(pass, &search, now, steps) {
        Ok(answer) => Ok(answer),
        Err(fault) => Err(AnswerFault::from(fault)),
    }
}

impl<R: Wait + RandomSource> Access<'_, R> {
    /// Answers a prepared query, as [`answer_query`] does. Hashes with a new seed, where the system gives one. A look
    /// at the log takes one turn.
    pub fn answer<L>(
        &self,
        pass: &mut Pass,
        search: &Search,
        now: i64,
        steps: &mut Steps<L>,
    ) -> Result<Answer, SearchFault>
        requires { IsPassOf self.now.desk.now pass.old }
        ensures answered { IfOk result (IsSearchAnswer (question search.now) now (seen_of pass.new).history) }
        ensures refused { IfErr result (FailsOver (question search.now) now (rows_of (seen_of pass.new).history)) }
        ensures opened { IfOk result (λ answer. Counts steps.old
            (admitted (question search.now) now (parts_of answer.snapshot)) steps.new) }
        ensures looks { Looks (caller_of pass.old) (seen_of pass.old) (seen_of pass.new) }
        ensures pass { IsPassOf self.now.desk.now pass.new }
        ensures caller { caller_of pass.new ≡ caller_of pass.old }
    {
        let snapshot = match self.look(pass) {
            Ok(snapshot) => snapshot,
            Err(AllocError) => return Err(SearchFault::Memory),
        };
        let front = snapshot.front();
        match answer(self.rt, self.alloc, &snapshot, search, now, steps) {
            Ok(lines) => Ok(Answer {
                front,
                lines,
                snapshot,
            }),
            Err(fault) => Err(fault),
        }
    }
}
