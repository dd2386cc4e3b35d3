//! Words, as the command that they are.
ghost use Rattle.std.specs.Prelude.{◌≡◌, ◌⊎◌, ◌^◌, ◌<◌, ◌≤◌, ℕ, List, [], Option, None, Some};
ghost use Rattle.std.specs.Prelude.{IfErr, IfNone, IfOk, IfSome, OnOk, codes, map, option_map};
ghost use Rattle.clap.specs.Faults.{fault_of};
ghost use Rattle.clap.specs.Matches.{found_of};
ghost use Rattle.clap.specs.Simple.{subcommand_of, subcommand_rows_of};
ghost use Rattle.clap.specs.Walk.{first_of, rows_of};
ghost use Rattle.command_line.specs.Asked.{AreWorkers, HasValues, IsCommand, IsNumber, most_workers, name_of};
ghost use Rattle.command_line.specs.Program.{program};
ghost use Rattle.command_line.specs.declared.command.Command.{Command};

use crate::command::Command;
use crate::definition::program;
use crate::fault::UsageFault;
use crate::number::number_between;
use clap::ArgMatches;
use std::alloc::{AllocError, Global};
use vl_row::Text;

/// How many workers each address has where the words say no number.
const DEFAULT_WORKERS: u32 = 4;

/// The greatest seed: 2^63 - 1.
const MOST_SEED: u64 = i64::MAX as u64;

/// The most rows that a trial makes.
const MOST_ROWS: u64 = 1_000_000;

/// Returns the command that the words after the program's name are.
///
/// `Usage` where they are none, and `Memory` where memory runs out.
pub fn read_words(alloc: Global, words: &[&str]) -> Result<Command, UsageFault>
    ensures read { IfOk result (IsCommand (map (λ word. word.now) words.now)) }
    ensures usage { IfErr result (λ fault. fault ≡ UsageFault.Usage
        → (command : Command) → IsCommand (map (λ word. word.now) words.now) command → ⊥) }
    ensures complete { (command : Command) → IsCommand (map (λ word. word.now) words.now) command
        → (result ≡ Ok command) ⊎ (result ≡ Err UsageFault.Memory) }
{
    let matches = matches_of(alloc, words)?;
    match subcommand(&matches) {
        Some((name, values)) => command_of(alloc, name, values),
        None => Err(UsageFault::Usage),
    }
}

/// What reading promises. This does nothing: its contract is the law that words are at most one command.
pub fn command_law()
    ensures { (words : List (List ℕ)) (a b : Command) → IsCommand words a → IsCommand words b → a ≡ b }
{}

/// Returns what clap finds among the words.
#[tactic(auto, using(crate::proofs::Matched::program_is_simple, crate::proofs::Matched::program_is_free))]
fn matches_of<'a>(alloc: Global, words: &'a [&'a str]) -> Result<ArgMatches<'a>, UsageFault>
    ensures taken { OnOk result (fault_of program (map (λ word. word.now) words.entry.now) ≡ []) }
    ensures found { IfOk result (λ matches. subcommand_rows_of matches
        ≡ subcommand_of program (map (λ word. word.now) words.entry.now)) }
    ensures refused { IfErr result (λ fault. fault ≡ UsageFault.Usage
        → fault_of program (map (λ word. word.now) words.entry.now) ≡ [] → ⊥) }
{
    let matches = program(alloc)?.try_get_matches_from(words)?;
    Ok(matches)
}

/// Returns the name of the command, and what clap found after it.
fn subcommand<'m, 'a>(matches: &'m ArgMatches<'a>) -> Option<(&'a str, &'m ArgMatches<'a>)>
    ensures { option_map (λ found. (found.0.now, rows_of (found_of found.1.now))) result
        ≡ subcommand_rows_of matches.now }
{
    matches.subcommand()
}

/// Returns the command of this name.
fn command_of(alloc: Global, name: &str, values: &ArgMatches<'_>) -> Result<Command, UsageFault>
    ensures read { IfOk result (λ command. (name.now ≡ name_of command)
        × HasValues (rows_of (found_of values.now)) command) }
    ensures usage { IfErr result (λ fault. fault ≡ UsageFault.Usage → (command : Command)
        → name.now ≡ name_of command → HasValues (rows_of (found_of values.now)) command → ⊥) }
{
    match name {
        "pipe" => pipe(alloc, values),
        "load" => load(alloc, values),
        "query" => query(alloc, values),
        "trial" => trial(values),
        "serve" => serve(alloc, values),
        _ => Err(UsageFault::Usage),
    }
}

fn pipe(alloc: Global, values: &ArgMatches<'_>) -> Result<Command, UsageFault>
    ensures name { IfOk result (λ command. name_of command ≡ codes "pipe") }
    ensures read { IfOk result (HasValues (rows_of (found_of values.now))) }
    ensures usage { IfErr result (λ fault. fault ≡ UsageFault.Usage → (fields : Option (List ℕ))
        → (query : List ℕ) → HasValues (rows_of (found_of values.now)) (Command.Pipe fields query) → ⊥) }
{
    Ok(Command::Pipe {
        stream_fields: optional(alloc, values, "stream-fields")?,
        query: needed(alloc, values, "query")?,
    })
}

fn load(alloc: Global, values: &ArgMatches<'_>) -> Result<Command, UsageFault>
    ensures name { IfOk result (λ command. name_of command ≡ codes "load") }
    ensures read { IfOk result (HasValues (rows_of (found_of values.now))) }
    ensures usage { IfErr result (λ fault. fault ≡ UsageFault.Usage → (dir : List ℕ)
        → (fields : Option (List ℕ)) → HasValues (rows_of (found_of values.now)) (Command.Load dir fields) → ⊥) }
{
    Ok(Command::Load {
        dir: needed(alloc, values, "dir")?,
        stream_fields: optional(alloc, values, "stream-fields")?,
    })
}

fn query(alloc: Global, values: &ArgMatches<'_>) -> Result<Command, UsageFault>
    ensures name { IfOk result (λ command. name_of command ≡ codes "query") }
    ensures read { IfOk result (HasValues (rows_of (found_of values.now))) }
    ensures usage { IfErr result (λ fault. fault ≡ UsageFault.Usage → (dir query : List ℕ)
        → HasValues (rows_of (found_of values.now)) (Command.Query dir query) → ⊥) }
{
    Ok(Command::Query {
        dir: needed(alloc, values, "dir")?,
        query: needed(alloc, values, "query")?,
    })
}

fn trial(values: &ArgMatches<'_>) -> Result<Command, UsageFault>
    ensures name { IfOk result (λ command. name_of command ≡ codes "trial") }
    ensures read { IfOk result (HasValues (rows_of (found_of values.now))) }
    ensures usage { IfErr result (λ fault. fault ≡ UsageFault.Usage → (seed rows : ℕ)
        → HasValues (rows_of (found_of values.now)) (Command.Trial seed rows) → ⊥) }
{
    let seed = number(values, "seed", MOST_SEED).ok_or(UsageFault::Usage)?;
    let rows = number(values, "rows", MOST_ROWS).ok_or(UsageFault::Usage)?;
    Ok(Command::Trial { seed, rows })
}

fn serve(alloc: Global, values: &ArgMatches<'_>) -> Result<Command, UsageFault>
    ensures name { IfOk result (λ command. name_of command ≡ codes "serve") }
    ensures read { IfOk result (HasValues (rows_of (found_of values.now))) }
    ensures usage { IfErr result (λ fault. fault ≡ UsageFault.Usage → (dir http : List ℕ)
        → (syslog : Option (List ℕ)) → (workers : ℕ)
        → HasValues (rows_of (found_of values.now)) (Command.Serve dir http syslog workers) → ⊥) }
{
    let most = most_workers(value(values, "syslog"));
    let workers = workers(values, most).ok_or(UsageFault::Usage)?;
    Ok(Command::Serve {
        dir: needed(alloc, values, "dir")?,
        http: needed(alloc, values, "http")?,
        syslog: optional(alloc, values, "syslog")?,
        workers,
    })
}

/// Returns how many workers each address may have, by the address for syslog.
fn most_workers(syslog: Option<&str>) -> u32
    ensures value { result ≡ most_workers (option_map (λ address. address.now) syslog.entry) }
    ensures small { result ≤ 64 }
{
    if syslog.is_some() { 32 } else { 64 }
}

/// Returns how many workers the words say, from 1 to `most`.
fn workers(values: &ArgMatches<'_>, most: u32) -> Option<u32>
    ensures some { IfSome result (AreWorkers most (first_of (codes "workers") (rows_of (found_of values.now)))) }
    ensures none { IfNone result ((workers : ℕ)
        → AreWorkers most (first_of (codes "workers") (rows_of (found_of values.now))) workers → ⊥) }
{
    match value(values, "workers") {
        Some(text) => {
            let workers = number_between(1, u64::from(most), text)?;
            Some(workers as u32)
        }
        None => Some(DEFAULT_WORKERS),
    }
}

/// Returns the number from 0 to `most` that the value of an argument is.
fn number(values: &ArgMatches<'_>, name: &str, most: u64) -> Option<u64>
    requires { most < 2 ^ 63 }
    ensures some { IfSome result (IsNumber 0 most (first_of name.now (rows_of (found_of values.now)))) }
    ensures none { IfNone result ((number : ℕ)
        → IsNumber 0 most (first_of name.now (rows_of (found_of values.now))) number → ⊥) }
{
    number_between(0, most, value(values, name)?)
}

/// Returns the value of an argument.
#[tactic(auto, using(crate::proofs::Values::values_by_rows))]
fn value<'a>(values: &ArgMatches<'a>, name: &str) -> Option<&'a str>
    ensures { option_map (λ text. text.now) result ≡ first_of name.now (rows_of (found_of values.now)) }
{
    values.get_str(name)
}

/// Returns a copy of the value of an argument that a command needs.
fn needed(alloc: Global, values: &ArgMatches<'_>, name: &str) -> Result<Text, UsageFault>
    ensures read { IfOk result (λ copy. first_of name.now (rows_of (found_of values.now)) ≡ Some copy) }
    ensures usage { IfErr result (λ fault. fault ≡ UsageFault.Usage
        → first_of name.now (rows_of (found_of values.now)) ≡ None) }
{
    match value(values, name) {
        Some(text) => Ok(Text::try_of(alloc, text)?),
        None => Err(UsageFault::Usage),
    }
}

/// Returns a copy of the value of an argument, where it has one.
fn optional(alloc: Global, values: &ArgMatches<'_>, name: &str) -> Result<Option<Text>, AllocError>
    ensures { IfOk result (λ copy. first_of name.now (rows_of (found_of values.now)) ≡ copy) }
{
    match value(values, name) {
        Some(text) => Ok(Some(Text::try_of(alloc, text)?)),
        None => Ok(None),
    }
}
