//! The grammar of LogsQL (LogsQL, "Query syntax"): what each token of a text is to it, and why a text is not a query.
//!
//! The rules themselves are data, in `specs/LogsQL.antt`: a rule for each line of the grammar, with the value of what
//! it spells. What a text is by them stands in `specs/Query.antt`. Readers are built of the steps of `scan`.
#![tactic(auto)]

ghost use Rattle.std.specs.Prelude.{◌≡◌, ℕ, List, Result, Err};
ghost use Rattle.grammar.specs.Rule.{Token};
ghost use Rattle.grammar.specs.Spelling.{Flaw};
ghost use Rattle.lq_ast.specs.Question.{Question};
ghost use Rattle.lq_grammar.specs.Moments.{SaysDuration, SaysBound, duration_of, bound_of};
ghost use Rattle.lq_grammar.specs.Query.{HasItems, IsQuery, QueryOf, flaw_fault};
ghost use Rattle.lq_grammar.specs.Values.{Reason};
ghost use Rattle.lq_grammar.specs.declared.fault.QueryFault.{QueryFault};

mod classify;
mod fault;
mod item;
mod role;
pub mod scan;
mod scope;

pub use fault::{QueryFault, Stop};
pub use item::{Item, items};
pub use role::{
    ATOM_BARES, BARES, COMMON_NAMES, KEY_NAMES, LIST_NAMES, NEGATIONS, OTHER_BARES, PLAIN_WORDS,
    QUOTED, RUN_PARTS, Role, SET_NAMES, TEXTS, UNARY, VALUE_NAMES, WORDS,
};
pub use scope::Scope;

/// What the definitions of the grammar promise. This does nothing: its contract is the laws.
pub fn query_law()
    // A run is read as the duration or the bound that its text spells.
    ensures durations { (text : List ℕ) → SaysDuration text (duration_of text) }
    ensures bounds { (text : List ℕ) → SaysBound text (bound_of text) }
    // Tokens that spell a query but for a flaw have that fault.
    ensures flawed { (text : List ℕ) (items : List (Token (List ℕ))) (flaw : Flaw Reason) (at : ℕ) → HasItems text items
        → IsQuery (Err (flaw, at)) items → QueryOf text (Err (flaw_fault flaw at)) }
    // A text with tokens has an outcome.
    ensures some { (text : List ℕ) (items : List (Token (List ℕ))) → HasItems text items
        → (outcome : Result Question QueryFault) × QueryOf text outcome }
    // A text has one outcome at most.
    ensures one { (text : List ℕ) (one other : Result Question QueryFault) → QueryOf text one → QueryOf text other
        → one ≡ other }
{}
