//! The words after the program's name.
ghost use Rattle.std.specs.Prelude.{◌≡◌, ◌⊎◌, Err, IfErr, IfOk, Ok, map};
ghost use Rattle.command_line.specs.Asked.{IsCommand};
ghost use Rattle.command_line.specs.declared.command.Command.{Command};

use command_line::{Command, UsageFault};
use std::alloc::Global;

/// Returns the command that the words are.
///
/// `Usage` where they are none, and `Memory` where memory runs out.
pub fn read_words(alloc: Global, words: &[&str]) -> Result<Command, UsageFault>
    ensures read { IfOk result (IsCommand (map (λ word. word.now) words.now)) }
    ensures usage { IfErr result (λ fault. fault ≡ UsageFault.Usage
        → (command : Command) → IsCommand (map (λ word. word.now) words.now) command → ⊥) }
    ensures complete { (command : Command) → IsCommand (map (λ word. word.now) words.now) command
        → (result ≡ Ok command) ⊎ (result ≡ Err UsageFault.Memory) }
{
    command_line::read_words(alloc, words)
}
