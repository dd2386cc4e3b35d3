//! The desk and its calls.
ghost use Rattle.std.specs.Prelude.{◌≡◌, ℕ, ◌≤ℤ◌, [], IfErr, IfOk, List, OnErr, OnOk, Some, length, pos, unsigned_abs};
ghost use Rattle.ingest_row.specs.Ingest.{Options as Asked};
ghost use Rattle.ingest_row.specs.Intake.{Outcome};
ghost use Rattle.log_model.specs.History.{rows_of};
ghost use Rattle.vl_session.specs.Asked.{IsReadableQuery};
ghost use Rattle.vl_session.specs.Question.{question};
ghost use Rattle.vl_session.specs.Answer.{FailsOver, FailsQuery, HasRecords, IsOfEvaluation, IsQueryAnswer};
ghost use Rattle.vl_session.specs.Answer.{IsSearchAnswer};
ghost use Rattle.vl_session.specs.Insert.{CanBeBatch};
ghost use Rattle.vl_session.specs.Seen.{HasRoom};
ghost use Rattle.log_desk.specs.Faults.{Refuses};
ghost use Rattle.lone_desk.specs.Alone.{FollowsAlone, GainsAlone, InsertsAlone, IsReading, RefusesAlone};

use ingest_row::Options;
use log_desk::{Desk, InsertFault, Pass};
use std::alloc::{AllocError, Global};
use std::marker::Model;
use std::random::RandomSource;
use std::sync::Wait;
use vl_row::Batch;
use vl_session::{
    Access, Answer, AnswerFault, Incoming, Insertion, InsertionFault, Search, SearchFault, Steps,
    answer_query, insert_lines,
};

/// A desk that is made for one pass, with that pass, so that no one else inserts.
///
/// A contract sees what its caller has seen, which is all that there is.
#[derive(Drop)]
pub struct LoneDesk<'d, R> {
    pub(crate) rt: &'d R,
    pub(crate) alloc: Global,
    pub(crate) desk: Desk,
    pub(crate) pass: Pass,
}

impl<'d, R> Model for LoneDesk<'d, R> {
    ghost use Rattle.log_desk.specs.Passes.{IsPassOf};
    ghost use Rattle.log_desk.specs.Seen.{Seen, caller_of, seen_of};
    ghost use Rattle.lone_desk.specs.Alone.{IsAlone};

    ghost Value = { Seen };

    ghost view = { λ d. seen_of d.pass };

    ghost invariant = { λ d. IsPassOf d.desk d.pass × IsAlone (caller_of d.pass) };
}

impl<'d, R: Wait> LoneDesk<'d, R> {
    /// Returns a desk of no batch.
    pub fn fresh(rt: &'d R, alloc: Global) -> Result<LoneDesk<'d, R>, AllocError>
        ensures nothing { IfOk result (λ desk. desk.history ≡ []) }
        ensures unsettled { IfOk result (λ desk. desk.settled ≡ 0) }
    {
        let (desk, pass) = Desk::fresh(rt, alloc, 1)?;
        Ok(LoneDesk {
            rt,
            alloc,
            desk,
            pass,
        })
    }

    /// Inserts the batch, and answers its number.
    pub fn insert(&mut self, batch: Batch) -> Result<u64, InsertFault>
        ensures gains { OnOk result (GainsAlone self.old self.new batch) }
        ensures number { IfOk result (λ number. number ≡ length self.new.history) }
        ensures refused { IfErr result (Refuses (length self.new.history) self.new.settled) }
        ensures follows { OnErr result (FollowsAlone self.old self.new) }
    {
        match self.desk.insert(self.rt, self.alloc, &mut self.pass, batch) {
            Ok(number) => Ok(number),
            Err((fault, _)) => Err(fault),
        }
    }

    /// Takes in the lines of a body that came at the moment `now`, in nanoseconds since the start of 1970.
    pub fn insert_lines(
        &mut self,
        options: &Options,
        now: i64,
        body: &[u8],
    ) -> Result<Insertion, InsertionFault>
        requires moment { pos 0 ≤ℤ now }
        ensures inserted { IfOk result (InsertsAlone options.now (unsigned_abs now) body.now self.old self.new) }
        ensures refused { IfErr result (RefusesAlone options.now (unsigned_abs now) body.now self.old self.new) }

        // Lines with rows that can be a batch are accepted as one, where there is room for it, unless memory runs out.
        ensures batch { (outcomes : List Outcome) → CanBeBatch options.now (unsigned_abs now) body.now outcomes
            → IfOk result (λ insertion. insertion.batch ≡ Some (length self.new.history)) }
        ensures complete { (outcomes : List Outcome) → CanBeBatch options.now (unsigned_abs now) body.now outcomes
            → HasRoom self.old → IfErr result (λ fault. fault ≡ InsertionFault.Memory) }
    {
        insert_lines(
            self.rt,
            self.alloc,
            &self.desk,
            &mut self.pass,
            options,
            now,
            body,
        )
    }

    /// Inserts what was read of a body before, as [`insert_lines`](LoneDesk::insert_lines) does with that body. Where
    /// the body could not be read, that fault comes back.
    pub fn insert_read(
        &mut self,
        read: Result<Incoming, InsertionFault>,
    ) -> Result<Insertion, InsertionFault>
        ensures inserted { (options : Asked) (now : ℕ) (body : List ℕ) → IsReading options now body read
            → IfOk result (InsertsAlone options now body self.old self.new) }
        ensures refused { (options : Asked) (now : ℕ) (body : List ℕ) → IsReading options now body read
            → IfErr result (RefusesAlone options now body self.old self.new) }
    {
        match read {
            Ok(incoming) => {
                let access = Access {
                    rt: self.rt,
                    alloc: self.alloc,
                    desk: &self.desk,
                };
                incoming.commit(&access, &mut self.pass)
            }
            Err(fault) => Err(fault),
        }
    }
}

/// Reads the lines of a body that came at the moment `now`, in nanoseconds since the start of 1970, for
/// [`insert_read`](LoneDesk::insert_read). It needs no desk, so threads can read bodies side by side.
pub fn read_lines(
    alloc: Global,
    options: &Options,
    now: i64,
    body: &[u8],
) -> Result<Incoming, InsertionFault>
    requires { pos 0 ≤ℤ now }
    ensures { IsReading options.now (unsigned_abs now) body.now result }
{
    Incoming::read(alloc, options, now, body)
}

impl<R: Wait + RandomSource> LoneDesk<'_, R> {
    /// Answers a query over all batches, at the moment `now`.
    pub fn answer_query(&mut self, text: &str, now: i64) -> Result<Answer, AnswerFault>
        requires moment { pos 0 ≤ℤ now }
        ensures answered { IfOk result (IsQueryAnswer text.now (unsigned_abs now) self.old.history) }
        ensures refused { IfErr result (FailsQuery text.now (unsigned_abs now) self.old.history) }
        ensures asked { IsReadableQuery text.now → IfErr result IsOfEvaluation }
        ensures complete { HasRecords text.now (unsigned_abs now) self.old.history
            → IfErr result (λ fault. fault ≡ AnswerFault.Memory) }
        ensures same { self.new.history ≡ self.old.history }
        ensures mark { self.new.settled ≡ self.old.settled }
    {
        let mut steps: Steps<()> = Steps::new();
        answer_query(
            self.rt,
            self.alloc,
            &self.desk,
            &mut self.pass,
            text,
            now,
            &mut steps,
        )
    }

    /// Answers a prepared query over all batches, at the moment `now`.
    pub fn answer(&mut self, search: &Search, now: i64) -> Result<Answer, SearchFault>
        ensures answered { IfOk result (IsSearchAnswer (question search.now) now self.old.history) }
        ensures refused { IfErr result (FailsOver (question search.now) now (rows_of self.old.history)) }
        ensures same { self.new.history ≡ self.old.history }
        ensures mark { self.new.settled ≡ self.old.settled }
    {
        let access = Access {
            rt: self.rt,
            alloc: self.alloc,
            desk: &self.desk,
        };
        let mut steps: Steps<()> = Steps::new();
        access.answer(&mut self.pass, search, now, &mut steps)
    }
}
