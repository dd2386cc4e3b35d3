// Tokens as the grammar sees them.
ghost use Rattle.std.specs.Prelude.{◌≡◌, ◌==◌, ◌+◌, if◌then◌else◌, map, IfOk};
ghost use Rattle.std.specs.List.{list_any};
ghost use Rattle.grammar.specs.Rule.{has, member};
ghost use Rattle.lq_lex.specs.Token.{token_value};
ghost use Rattle.lq_grammar.specs.Items.{item_of};
ghost use Rattle.lq_grammar.specs.Roles.{any, glued as glued_of, number as number_of, apart_by};

use crate::classify::role_of;
use crate::role::{Role, number};
use lq_lex::{Token, Tokens, text_of};
use std::alloc::{AllocError, Global};
use std::marker::Model;
use vl_row::Text;

/// A token, what it is to the grammar, and the text that it stands for.
///
/// A contract sees it as a token of the grammar.
#[derive(Drop)]
pub struct Item {
    role: Role,
    glued: bool,
    start: usize,
    text: Text,
}

impl Model for Item {
    ghost use Rattle.std.specs.Prelude.{ℕ, List, ◌+◌, if◌then◌else◌};
    ghost use Rattle.grammar.specs.Rule.{Token};
    ghost use Rattle.lq_grammar.specs.Roles.{number, apart_by};

    ghost Value = { Token (List ℕ) };

    ghost view = { λ item. record {
      kind = number item.role + (if item.glued then apart_by else 0);
      place = item.start;
      content = item.text;
    } };
}

impl Item {
    /// Returns whether it has one of these roles.
    pub fn is(&self, roles: &[Role]) -> bool
        ensures { result ≡ has (any roles.now) self.now }
    {
        is_any(self.role, self.glued, roles)
    }

    /// Returns whether it has one of these roles and is glued.
    pub fn is_glued(&self, roles: &[Role]) -> bool
        ensures { result ≡ has (glued_of roles.now) self.now }
    {
        is_glued(self.role, self.glued, roles)
    }

    /// Its first byte's place.
    pub fn start(&self) -> usize
        ensures { result ≡ self.now.place }
    {
        self.start
    }

    /// Returns the text that it stands for.
    pub fn text(&self) -> &str
        ensures { result.now ≡ self.now.content }
    {
        self.text.as_str()
    }
}

/// Returns the tokens of a text as the grammar sees them.
pub fn items(alloc: Global, tokens: &Tokens<'_>) -> Result<Vec<Item>, AllocError>
    ensures { IfOk result (λ list. list.items ≡ map item_of tokens.now) }
{
    let mut list = Vec::with_capacity(alloc, tokens.len())?;
    for i in 0..tokens.len() {
        let token = tokens.at(i);
        let item = classified(alloc, &token)?;
        list.push(item)?;
    }
    Ok(list)
}

#[tactic(auto, unfolding(crate::specs::Items::item_of))]
fn classified(alloc: Global, token: &Token<'_>) -> Result<Item, AllocError>
    ensures { IfOk result (λ item. item ≡ item_of (token_value token.now)) }
{
    let mut text = Text::new();
    text_of(alloc, token, &mut text)?;
    Ok(Item {
        role: role_of(token.kind, token.span, text.as_str()),
        glued: token.glued,
        start: token.start,
        text,
    })
}

/// Returns whether a token of this role is one of these, glued or not.
#[tactic(auto, using(crate::proofs::Codes::any_role))]
fn is_any(role: Role, glued: bool, roles: &[Role]) -> bool
    ensures { result ≡ member (number_of role + (if glued then apart_by else 0)) (any roles.now) }
{
    is_among(role, roles)
}

/// Returns whether it is one of these and glued.
fn is_glued(role: Role, glued: bool, roles: &[Role]) -> bool
    ensures { result ≡ member (number_of role + (if glued then apart_by else 0)) (glued_of roles.now) }
{
    glued && is_among(role, roles)
}

/// Returns whether the role is one of these.
fn is_among(role: Role, roles: &[Role]) -> bool
    ensures { result ≡ list_any (λ other. number_of other == number_of role) roles.now }
{
    let wanted = number(role);
    roles.iter().any(|other| number(*other) == wanted)
}
