//! Grammars as data, and a proof that an LL(1) parser accepts exactly the grammar. The crate has no code.
//!
//! - `specs/Rule`: tokens, rules and grammars; `Spelling`: which texts a rule spells, and which errors they have;
//!   `Reading`: the parser, with one token of lookahead.
//! - `proofs/Table`: the tests that a grammar has to pass, each by computing; `Whole`: the theorems on whole texts, for
//!   every grammar that passes them.
#![tactic(auto)]
