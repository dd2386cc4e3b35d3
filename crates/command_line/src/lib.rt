//! The command line of the program: what its words ask for.
//!
//!     pipe [--stream-fields LIST] QUERY
//!     load --dir DIRECTORY [--stream-fields LIST]
//!     query --dir DIRECTORY QUERY
//!     trial SEED ROWS
//!     serve --dir DIRECTORY --http ADDRESS [--syslog ADDRESS] [--workers COUNT]
//!
//! SEED is 0 to 2^63 - 1 and ROWS 0 to 1,000,000. COUNT is how many workers each address has: 1 to 64 with one
//! address, 1 to 32 with two, and 4 where it is left out. A number is written in ASCII digits without a sign or a
//! leading zero.
//!
//! An option is named in full, once, by `--NAME VALUE` or `--NAME=VALUE`, on either side of the other words of its
//! command. What stands after `--` is not an option, so a query that begins with `-` stands there. A value may be
//! empty, as in `--stream-fields=`, and `-` by itself is a value. There is no help and no version.
//!
//! `clap` takes the words apart, by the definition in `specs/Program.antt`. The numbers are read here, since those of
//! clap may also have a sign or zeros ahead.
#![tactic(auto)]

mod command;
mod definition;
mod fault;
mod number;
mod reading;

pub use command::Command;
pub use fault::UsageFault;
pub use reading::{command_law, read_words};
