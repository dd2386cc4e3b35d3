//! The command line of the program, as clap defines one.
ghost use Rattle.std.specs.Prelude.{◌≡◌, IfOk, false};
ghost use Rattle.clap.specs.Simple.{app_of, shape_of, with_subcommand};
ghost use Rattle.clap.specs.Walk.{rule_of};
ghost use Rattle.clap.specs.declared.builder.command.Command.TheViews.{out-Command};
ghost use Rattle.command_line.specs.Program.{bare, load, pipe, program, query, serve, trial};
ghost use Rattle.command_line.specs.Program.{needed_option, option, word};

use clap::{Arg, Command};
use std::alloc::{AllocError, Global};

/// Returns the program with its commands.
#[tactic(auto, unfolding(crate::specs::Program::program))]
pub(crate) fn program<'a>(alloc: Global) -> Result<Command<'a>, AllocError>
    ensures { IfOk result (λ whole. app_of whole ≡ program) }
{
    let first = first_commands(alloc)?;
    first.subcommand(trial(alloc)?)?.subcommand(serve(alloc)?)
}

/// Returns the program with the first three of its commands.
fn first_commands<'a>(alloc: Global) -> Result<Command<'a>, AllocError>
    ensures { IfOk result (λ some. app_of some
        ≡ with_subcommand (with_subcommand (with_subcommand bare pipe) load) query) }
{
    let bare = bare_program(alloc);
    bare.subcommand(pipe(alloc)?)?
        .subcommand(load(alloc)?)?
        .subcommand(query(alloc)?)
}

/// Returns the program without its commands.
fn bare_program<'a>(alloc: Global) -> Command<'a>
    ensures { app_of result ≡ bare }
{
    Command::new(alloc, "duvonka")
        .no_binary_name(true)
        .disable_help_flag(true)
        .disable_help_subcommand(true)
        .disable_version_flag(true)
        .subcommand_required(true)
}

fn pipe<'a>(alloc: Global) -> Result<Command<'a>, AllocError>
    ensures shape { IfOk result (λ leaf. shape_of leaf ≡ pipe) }
    ensures globals { IfOk result (λ leaf. (out-Command leaf).has_globals ≡ false) }
{
    Command::new(alloc, "pipe")
        .arg(option(alloc, "stream-fields"))?
        .arg(word(alloc, "query"))
}

fn load<'a>(alloc: Global) -> Result<Command<'a>, AllocError>
    ensures shape { IfOk result (λ leaf. shape_of leaf ≡ load) }
    ensures globals { IfOk result (λ leaf. (out-Command leaf).has_globals ≡ false) }
{
    Command::new(alloc, "load")
        .arg(needed_option(alloc, "dir"))?
        .arg(option(alloc, "stream-fields"))
}

fn query<'a>(alloc: Global) -> Result<Command<'a>, AllocError>
    ensures shape { IfOk result (λ leaf. shape_of leaf ≡ query) }
    ensures globals { IfOk result (λ leaf. (out-Command leaf).has_globals ≡ false) }
{
    Command::new(alloc, "query")
        .arg(needed_option(alloc, "dir"))?
        .arg(word(alloc, "query"))
}

fn trial<'a>(alloc: Global) -> Result<Command<'a>, AllocError>
    ensures shape { IfOk result (λ leaf. shape_of leaf ≡ trial) }
    ensures globals { IfOk result (λ leaf. (out-Command leaf).has_globals ≡ false) }
{
    Command::new(alloc, "trial")
        .arg(word(alloc, "seed"))?
        .arg(word(alloc, "rows"))
}

fn serve<'a>(alloc: Global) -> Result<Command<'a>, AllocError>
    ensures shape { IfOk result (λ leaf. shape_of leaf ≡ serve) }
    ensures globals { IfOk result (λ leaf. (out-Command leaf).has_globals ≡ false) }
{
    Command::new(alloc, "serve")
        .arg(needed_option(alloc, "dir"))?
        .arg(needed_option(alloc, "http"))?
        .arg(option(alloc, "syslog"))?
        .arg(option(alloc, "workers"))
}

/// `--NAME VALUE`, which may be left out.
fn option<'a>(alloc: Global, name: &'a str) -> Arg<'a>
    ensures rule { rule_of result ≡ option name.entry.now }
    ensures local { result.global ≡ false }
{
    Arg::new(alloc, name).long(name)
}

/// `--NAME VALUE`.
fn needed_option<'a>(alloc: Global, name: &'a str) -> Arg<'a>
    ensures rule { rule_of result ≡ needed_option name.entry.now }
    ensures local { result.global ≡ false }
{
    option(alloc, name).required(true)
}

/// Returns a word at its place.
fn word<'a>(alloc: Global, name: &'a str) -> Arg<'a>
    ensures rule { rule_of result ≡ word name.entry.now }
    ensures local { result.global ≡ false }
{
    Arg::new(alloc, name).required(true)
}
