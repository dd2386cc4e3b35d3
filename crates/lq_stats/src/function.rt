//! The functions of a pipe.
ghost use Rattle.std.specs.Prelude.{◌<◌, ◌^◌, length};

use lq_ast::Call;
use lq_filter::Inner;
use vl_row::Text;

/// A function of `stats` whose condition is prepared.
#[derive(Drop)]
pub(crate) struct Function {
    pub(crate) call: Call,
    pub(crate) names: Vec<Text>,
    pub(crate) only: Option<Inner>,
    pub(crate) name: Text,
    ghost few: { length names.items < 2 ^ 32 },
}
