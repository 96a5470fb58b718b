//! The flag among the words, and the command that the others are.
ghost use Rattle.std.specs.Prelude.{◌≡◌, ◌↔◌, ◌<◌, IfOk, IfSome, IsErrOf, false, length, map, is_some, string_bytes};
ghost use Rattle.graph_words.specs.GraphWords.{takes_value, is_flag, awaits_value, flag_place, plain_words, names_depth, is_of_graph, SpellsGraph};

use crate::command::GraphCommand;
use command_words::{WordsFault, read_words};
use std::alloc::Global;

fn takes_value(word: &str) -> bool
    ensures { result ≡ takes_value word.now }
{
    word == "--workers" || word == "--gen" || word == "--jobs"
}

fn is_flag(value: bool, word: &str) -> bool
    ensures { result ≡ is_flag value word.now }
{
    !value && word == "--dot"
}

fn awaits_value(value: bool, word: &str) -> bool
    ensures { result ≡ awaits_value value word.now }
{
    !value && takes_value(word)
}

// The place of the first `--dot` that isn't the value of an option.
fn flag_place(words: &[String]) -> Option<usize>
    ensures place { result ≡ flag_place (map string_bytes words.now) }
    ensures within { IfSome result (λ at. at < length words.now) }
{
    let mut value = false;
    for at in 0..words.len() {
        let word = words[at].as_str();
        if is_flag(value, word) {
            return Some(at);
        }
        value = awaits_value(value, word);
    }
    None
}

// Takes that word away, and says whether it was there.
fn take_flag(words: &mut Vec<String>) -> bool
    ensures had { result ≡ is_some (flag_place (map string_bytes words.old.items)) }
    ensures taken { map string_bytes words.new.items ≡ plain_words (map string_bytes words.old.items) }
{
    match flag_place(words) {
        Some(at) => {
            words.remove(at);
            true
        }
        None => false,
    }
}

fn names_depth(words: &[String]) -> bool
    ensures { result ≡ names_depth (map string_bytes words.now) }
{
    for word in words {
        if word.as_str() == "--depth" {
            return true;
        }
    }
    false
}

/// Reads the words of the command that draws, which come without the program's name: those of the command that runs,
/// without `--depth`, and `--dot` once at most. Words that aren't of the command are refused without memory.
pub fn read_graph_words(alloc: Global, words: Vec<String>) -> Result<GraphCommand, WordsFault>
    ensures usage { IsErrOf result WordsFault.Usage ↔ (is_of_graph (map string_bytes words.items) ≡ false) }
    ensures ok { IfOk result (SpellsGraph (map string_bytes words.items)) }
{
    let mut words = words;
    let dot = take_flag(&mut words);
    if names_depth(&words) {
        return Err(WordsFault::Usage);
    }
    let command = read_words(alloc, &words)?;
    Ok(GraphCommand { command, dot })
}
