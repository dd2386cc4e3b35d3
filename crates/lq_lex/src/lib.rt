//! Splits a query (LogsQL, "Query syntax") into tokens: bare words, quoted strings and punctuation marks, all slices of
//! its text.
//!
//! - `lex`: the public call `tokens`; `scan` reads one token, `quote` the end of a quoted string, `class` has the
//!   character classes.
//! - `token`: a token and the list of them; `text`: the string that a token stands for; `fault`: errors.
//! - `specs/Lexing` defines the lexical grammar, `Texts` the string of a token, `Reading` the lexer's steps.
#![tactic(auto)]

mod class;
mod fault;
mod lex;
mod quote;
mod scan;
mod text;
mod token;

pub use fault::LexFault;
pub use lex::tokens;
pub use text::text_of;
pub use token::{Kind, Token, Tokens};
