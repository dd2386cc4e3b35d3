// Tokens as texts.
use crate::shown_tests::push_text;
use lq_lex::{Kind, Token, text_of, tokens};
use std::alloc::{AllocError, Global};
use vl_row::Text;

/// Returns the tokens of a query, or its fault.
pub(crate) fn answer(alloc: Global, query: &str) -> Result<String, AllocError> {
    match tokens(alloc, query) {
        Ok(tokens) => {
            let mut answer = String::new(alloc);
            for i in 0..tokens.len() {
                push_token(alloc, &tokens.at(i), &mut answer)?;
            }
            Ok(answer)
        }
        Err(fault) => format!(in alloc; "{fault}"),
    }
}

fn push_token(alloc: Global, token: &Token, answer: &mut String) -> Result<(), AllocError> {
    let kind = match token.kind {
        Kind::Bare => 'B',
        Kind::Quoted => 'Q',
        Kind::Mark(mark) => mark as char,
    };
    let glued = if token.glued { "+" } else { "" };
    let mut text = Text::new();
    text_of(alloc, token, &mut text)?;
    write!(answer, "{kind}{}{glued}", token.start)?;
    push_text(&text, answer)?;
    answer.push_str(" ")
}
