// Names of fields.
ghost use Rattle.std.specs.Prelude.{◌≡◌, IfOk};
ghost use Rattle.grammar.specs.Reading.{one_at};
ghost use Rattle.lq_grammar.specs.Roles.{any};
ghost use Rattle.lq_grammar.specs.Values.{field_named as name_of};
ghost use Rattle.lq_grammar.specs.Clauses.{Gives};

use lq_grammar::scan::text;
use lq_grammar::{Item, Role, Stop};
use std::alloc::{AllocError, Global};
use vl_row::Text;

/// Returns the name of a field. An empty name is that of the message.
pub fn field_named(alloc: Global, name: &str) -> Result<Text, AllocError>
    ensures { IfOk result (λ text. text ≡ name_of name.now) }
{
    Text::try_of(alloc, if name.is_empty() { "_msg" } else { name })
}

/// Parses a name that has one of these roles.
pub fn name<'t>(
    alloc: Global,
    tokens: &'t [Item],
    roles: &[Role],
) -> Result<(Text, &'t [Item]), Stop>
    ensures { Gives (λ x. (x.0, x.1.now)) result (one_at (any roles.now) (λ t. name_of t.content) tokens.now) }
{
    let (name, rest) = text(tokens, roles)?;
    Ok((field_named(alloc, name)?, rest))
}
