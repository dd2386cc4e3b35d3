//! The lexer.
ghost use Rattle.std.specs.Prelude.{◌≢◌, ◌≡◌, ◌<◌, List, Result, Err, IfOk};
ghost use Rattle.lq_lex.specs.declared.fault.LexFault.{LexFault};
ghost use Rattle.lq_lex.specs.Token.{Token as Piece};
ghost use Rattle.lq_lex.specs.Lexing.{HasLexed, IsTokens};
ghost use Rattle.lq_lex.specs.Clauses.{Collects};

use crate::fault::LexFault;
use crate::scan::next_token;
use crate::token::{Token, Tokens};
use std::alloc::Global;

/// The maximum length of a query in bytes.
const LIMIT: usize = 16_384;

/// Splits a text of at most 16,384 bytes into tokens.
pub fn tokens(alloc: Global, s: &str) -> Result<Tokens<'_>, LexFault>
    // The text matches the lexical grammar, and these are its tokens.
    ensures found { IfOk result (λ tokens. IsTokens s.now tokens) }
    // Each text has either tokens or one error, which is returned unless memory runs out.
    ensures lexed { result ≢ Err LexFault.Memory → HasLexed s.now result }
    ensures only { (lexed : Result (List Piece) LexFault) → HasLexed s.now lexed → result ≢ Err LexFault.Memory
        → result ≡ lexed }
{
    if s.len() > LIMIT {
        return Err(LexFault::TooLong);
    }
    let list = collect(alloc, s)?;
    Ok(Tokens { list })
}

fn collect(alloc: Global, text: &str) -> Result<Vec<Token<'_>>, LexFault>
    ensures { Collects text.now result }
{
    let mut list = Vec::new(alloc);
    let mut rest = text;
    'others: while let Some((token, remaining)) = next_token(rest, text.len())? {
        list.push(token)?;
        rest = remaining;
    }
    Ok(list)
}
