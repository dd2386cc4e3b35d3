//! Makes one row of a trial.
ghost use Rattle.std.specs.Prelude.{◌≡◌, ◌<◌, ◌∷◌, [], IfOk, codes};
ghost use Rattle.vl_trial.specs.Trial.{app_of, fields_of, level_of, message_of, millis_of, next_state, row_of};

use itoa::Buffer;
use std::alloc::{AllocError, Global};
use vl_row::{FieldList, Row, RowFault, Text};

/// The time of the first row, in seconds since 1970. Each later row is one second after the one before.
const FIRST_SECOND: u64 = 1_714_521_600;

/// The nanoseconds of a second.
const NANOS: u64 = 1_000_000_000;

/// How many fields a row has.
const FIELDS: usize = 4;

/// Returns the generator's next state.
#[tactic(auto, unfolding(crate::specs::Trial::next_state))]
pub(crate) fn next_state(state: u64) -> u64
    ensures { result ≡ next_state state }
{
    state
        .wrapping_mul(6_364_136_223_846_793_005)
        .wrapping_add(1_442_695_040_888_963_407)
}

/// Makes the row with this number and this draw. `labels` is the name of its one label, `app`.
pub(crate) fn trial_row(
    alloc: Global,
    labels: &[Text],
    number: u64,
    draw: u64,
) -> Result<Row, AllocError>
    requires labels { labels.now ≡ codes "app" ∷ [] }
    requires number { number < 1_000_000 }
    ensures { IfOk result (λ row. row ≡ row_of number draw) }
{
    let fields = fields_of(alloc, number, draw)?;
    let time = (FIRST_SECOND + number) * NANOS;
    match Row::try_new(alloc, time as i64, labels, fields) {
        Ok(row) => Ok(row),
        Err((fault, _)) => {
            prove!(fault == RowFault::Memory);
            Err(AllocError)
        }
    }
}

/// Makes the fields of a row.
fn fields_of(alloc: Global, number: u64, draw: u64) -> Result<FieldList, AllocError>
    ensures { IfOk result (λ fields. fields ≡ fields_of number draw) }
{
    let message = message(alloc, number, draw)?;
    let mut millis = Buffer::new();
    let mut fields = FieldList::with_room(alloc, FIELDS)?;
    fields.set(alloc, "_msg", message.as_str())?;
    fields.set(alloc, "app", app(draw))?;
    fields.set(alloc, "level", level(draw))?;
    fields.set(alloc, "ms", millis.format(draw / 16 % 1_000))?;
    Ok(fields)
}

/// Makes the message of a row.
fn message(alloc: Global, number: u64, draw: u64) -> Result<Text, AllocError>
    ensures { IfOk result (λ text. text ≡ message_of number draw) }
{
    let mut digits = Buffer::new();
    let mut text = Text::try_of(alloc, "request ")?;
    text.push_str(alloc, digits.format(number))?;
    text.push_str(alloc, " ")?;
    text.push_str(alloc, level(draw))?;
    Ok(text)
}

/// Returns the level of a draw.
fn level(draw: u64) -> &'static str
    ensures { result.now ≡ level_of draw }
{
    match draw % 4 {
        0 => "debug",
        1 => "info",
        2 => "warn",
        _ => "error",
    }
}

/// Returns the application of a draw.
fn app(draw: u64) -> &'static str
    ensures { result.now ≡ app_of draw }
{
    match draw / 4 % 3 {
        0 => "api",
        1 => "db",
        _ => "web",
    }
}
