// The command that the words are.
ghost use Rattle.std.specs.Prelude.{◌≡◌, ◌↔◌, IfOk, IsErrOf, true, false, map, string_bytes};
ghost use Rattle.command_words.specs.Words.{Spells, is_of_command};

use crate::command::{Command, WORKERS_UNSAID, WordsFault};
use crate::parsing::{number_at, parse, text_at};
use crate::progress::are_of_command;
use std::alloc::{AllocError, Global};

/// Reads the words of the command, which come without the program's name. Words that aren't of the command are
/// refused without memory.
pub fn read_words(alloc: Global, words: &[String]) -> Result<Command, WordsFault>
    ensures usage { IsErrOf result WordsFault.Usage ↔ (is_of_command (map string_bytes words.now) ≡ false) }
    ensures ok { IfOk result (Spells (map string_bytes words.now)) }
{
    if !are_of_command(words) {
        return Err(WordsFault::Usage);
    }
    match command_of(alloc, words) {
        Ok(command) => Ok(command),
        Err(_) => Err(WordsFault::NoMemory),
    }
}

/// The command that the words are.
fn command_of(alloc: Global, words: &[String]) -> Result<Command, AllocError>
    requires { is_of_command (map string_bytes words.now) ≡ true }
    ensures { IfOk result (Spells (map string_bytes words.now)) }
{
    let matches = match parse(alloc, words) {
        Ok(matches) => matches,
        Err(_) => return Err(AllocError),
    };
    let workers = number_at(&matches, "workers").unwrap_or(WORKERS_UNSAID);
    let depth = matches.get_flag("depth");
    match text_at(alloc, &matches, "script")? {
        Some(script) => {
            let table = text_at(alloc, &matches, "table")?;
            Ok(Command::Run {
                workers,
                script,
                table,
                depth,
            })
        }
        None => {
            let number = number_at(&matches, "gen").unwrap_or(0);
            let jobs = number_at(&matches, "jobs").unwrap_or(0);
            Ok(Command::Gen {
                workers,
                number,
                jobs,
                depth,
            })
        }
    }
}
