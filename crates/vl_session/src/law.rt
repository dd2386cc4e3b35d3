//! What follows from the definitions of sessions. These functions do nothing: their contracts are the laws.
ghost use Rattle.std.specs.Prelude.{◌≡◌, ℕ, ◌+◌, ◌++◌, List, [], ◌∷◌, flat_map, length};
ghost use Rattle.log_model.specs.History.{History, batches_in};
ghost use Rattle.log_model.specs.Row.{Batch};
ghost use Rattle.query_run.specs.Records.{Record};
ghost use Rattle.ingest_row.specs.Ingest.{Options};
ghost use Rattle.ingest_row.specs.Intake.{Outcome};
ghost use Rattle.query_run.specs.Asked.{IsReadableQuery};
ghost use Rattle.log_desk.specs.Seen.{Caller, Seen};
ghost use Rattle.vl_session.specs.Answer.{FailsQuery, IsOfEvaluation};
ghost use Rattle.vl_session.specs.Insert.{CanBeBatch, HasInsertOutcome, InsertOutcome, taken};
ghost use Rattle.vl_session.specs.InsertRequest.{InsertRequest, IsInsertAnswered, IsInsertServed};
ghost use Rattle.log_desk.specs.TurnEnd.{TurnEnd};
ghost use Rattle.vl_session.specs.Laws.{AreEnds, Grows, HaveTurns, IsByInput, IsTakenWhole, SyslogInput};
ghost use Rattle.vl_session.specs.Session.{Connection, IsSession};
ghost use Rattle.vl_session.specs.Query.{HasQueryOutcome, QueryOutcome, found};
ghost use Rattle.vl_session.specs.Select.{IsSelectAnswered, IsSelectServed, Select};
ghost use Rattle.vl_session.specs.Seen.{HasRoom, desk_turns};
ghost use Rattle.vl_session.specs.SyslogSession.{batches_of, end_effect, outcomes_of, message_rows};
ghost use Rattle.vl_session.specs.Turns.{accepted_in, desk_turns_of};
ghost use Rattle.vl_session.specs.declared.answer.AnswerFault.{AnswerFault};

use ingest_row::intake_law;
use query_run::query_law;

/// A query that has records has no other outcome. So a select that asks it is answered with them, or that memory ran
/// out.
pub fn select_law()
    ensures found { (text : List ℕ) (now : ℕ) (history : History) (records : List Record)
        → HasQueryOutcome text now history (found records) → (other : QueryOutcome)
        → HasQueryOutcome text now history other → other ≡ found records }
    ensures asked { (text : List ℕ) (now : ℕ) (history : History) → IsReadableQuery text → (fault : AnswerFault)
        → FailsQuery text now history fault → IsOfEvaluation fault }
    ensures select { (caller : Caller) (select : Select) → IsSelectServed caller select → IsSelectAnswered select }
{
    query_law();
}

/// Lines of which some have rows, and these can be a batch, become just that batch, where there is room for another.
/// So an insert of such lines is accepted, or memory ran out.
pub fn insert_law()
    ensures taken { (options : Options) (now : ℕ) (body : List ℕ) (outcomes : List Outcome)
        → CanBeBatch options now body outcomes → (seen : Seen) → HasRoom seen → (other : InsertOutcome)
        → HasInsertOutcome options now body seen other → other ≡ taken outcomes }
    ensures insert { (caller : Caller) (request : InsertRequest) → IsInsertServed caller request
        → IsInsertAnswered caller request }
{
    intake_law();
}

/// Where a session ends by its input, every request of it has its turn. The entries that are the caller's own are the
/// batches of its accepted inserts, in their order. Each reply that tells of what is held was made in a turn of its
/// own, and tells of all that was held then.
pub fn session_law()
    ensures requests { (c : Connection) (session : IsSession c) → IsByInput c.end
        → HaveTurns (session.serving.used ++ session.rest) session.turns }
    ensures entries { (c : Connection) (session : IsSession c)
        → Grows c.caller c.first c.last (accepted_in session.turns) (desk_turns_of session.turns) }

    // The turns that the caller left are those of its requests, in their order.
    ensures ends { (c : Connection) (session : IsSession c)
        → (ends : List TurnEnd) × (c.last.turns ≡ c.first.turns ++ ends) × AreEnds session.turns ends }
{}

/// The entries of a session of syslog that are the caller's own are its batches, in order. Joined, these are the rows
/// of the readable messages.
pub fn syslog_law()
    ensures entries { (s : SyslogInput) (session : IsTakenWhole s)
        → Grows s.caller s.first s.last (batches_of session.reads)
        (length (batches_of session.reads) + desk_turns (end_effect s.report.end)) }
    ensures rows { (s : SyslogInput) (session : IsTakenWhole s)
        → flat_map (λ batch. batch) (batches_of session.reads) ≡ message_rows (outcomes_of session.reads) }
{}

/// On a desk that is made for one pass, no one else adds to the history: what a session adds is the batches of its
/// accepted inserts, and what a session of syslog adds is its batches.
pub fn alone_law()
    ensures { (caller : Caller) (old new : Seen) (batches : List Batch) (turns : ℕ) → caller.lock.passes ≡ 1
        → caller.numbers ≡ 0 ∷ [] → Grows caller old new batches turns
        → batches_in new.history ≡ batches_in old.history ++ batches }
{}
