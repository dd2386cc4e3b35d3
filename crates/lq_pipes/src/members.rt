//! The members of JSON objects, one for each field.
ghost use Rattle.std.specs.Prelude.{◌≡◌, [], ◌∷◌, ◌++◌, OnOk};
ghost use Rattle.json.specs.Token.{key, string};
ghost use Rattle.lq_pipes.specs.Tokens.{members_tokens};

use json::Writer;
use std::alloc::AllocError;
use vl_row::Field;

/// Writes one member: the name, and the value as a string.
pub fn write_member(writer: &mut Writer, name: &str, value: &str) -> Result<(), AllocError>
    ensures before { writer.new.before ≡ writer.old.before }
    ensures ok { OnOk result (writer.new.tokens
        ≡ writer.old.tokens ++ key name.now ∷ string value.now ∷ []) }
{
    writer.key(name)?;
    writer.string(value)
}

/// Writes a member for each field.
pub fn write_members(writer: &mut Writer, fields: &[Field]) -> Result<(), AllocError>
    ensures before { writer.new.before ≡ writer.old.before }
    ensures ok { OnOk result (writer.new.tokens
        ≡ writer.old.tokens ++ members_tokens fields.now) }
{
    for field in fields {
        write_member(writer, field.name(), field.value())?;
    }
    Ok(())
}
