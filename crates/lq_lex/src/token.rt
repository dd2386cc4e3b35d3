//! Tokens.
ghost use Rattle.std.specs.Prelude.{◌≡◌, ◌<◌, ◌==◌, length, slice_get, Some};
ghost use Rattle.lq_lex.specs.Token.{token_value};

use std::marker::Model;

/// The kind of a token.
#[derive(Clone, Copy, Debug, PartialEq, Eq)]
pub enum Kind {
    /// A word without quotes.
    Bare,
    /// A string in quotes or backticks, including them.
    Quoted,
    /// One of the characters `|()[]{},:=!~*<>-+`.
    Mark(u8),
}

/// A token and its position.
#[derive(Clone, Copy, Debug)]
pub struct Token<'a> {
    /// The kind of the token.
    pub kind: Kind,
    /// The token's slice of the query.
    pub span: &'a str,
    /// The byte offset of the token in the query.
    pub start: usize,
    /// Whether the token directly follows another one, without white space between them.
    pub glued: bool,
}

/// The tokens of a text, in order. Contracts see them as a list of token values.
#[derive(Drop)]
pub struct Tokens<'a> {
    pub(crate) list: Vec<Token<'a>>,
}

impl<'a> Model for Tokens<'a> {
    ghost use Rattle.std.specs.Prelude.{List, map};
    ghost use Rattle.lq_lex.specs.Token.{Token as Piece, token_value};

    ghost Value = { List Piece };

    ghost view = { λ tokens. map token_value tokens.list.items };
}

impl<'a> Tokens<'a> {
    /// Returns the number of tokens.
    pub fn len(&self) -> usize
        ensures { result ≡ length self.now }
    {
        self.list.len()
    }

    /// Returns whether the list is empty.
    pub fn is_empty(&self) -> bool
        ensures { result ≡ (length self.now == 0) }
    {
        self.list.is_empty()
    }

    /// Returns the token at index `i`.
    pub fn at(&self, i: usize) -> Token<'a>
        requires { i < length self.now }
        ensures { slice_get self.now i ≡ Some (token_value result) }
    {
        self.list[i]
    }
}
