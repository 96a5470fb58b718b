// What one word is, and which values an option takes.
ghost use Rattle.std.specs.Prelude.{◌≡◌, option_map};
ghost use Rattle.std.specs.Char.{is_ascii_digit};
ghost use Rattle.std.specs.List.{list_all};
ghost use Rattle.command_words.specs.Words.{is_name, is_number_in, fits, after_prefix, spelling, flag_or_positional};
ghost use Rattle.command_words.specs.Seen.{spelling_of, IsOption, small_number};

use crate::command::MOST_DIGITS;
use crate::place::Place;
use job_base::limits::{MOST_GENERATED_JOBS, MOST_SEED, MOST_WORKERS};

/// What a word is, where no option waits for its value.
#[derive(Clone, Copy)]
pub(crate) enum Spelled<'a> {
    Awaits(Place),
    Gives(Place, &'a str),
    Flag,
    Positional,
}

// Only the digits 0 to 9.
fn all_digits(text: &str) -> bool
    ensures { result ≡ list_all is_ascii_digit text.now }
{
    text.bytes().all(|b| b.is_ascii_digit())
}

/// 1 to [`MOST_DIGITS`] decimal digits, as a number.
pub(crate) fn number(text: &str) -> Option<u32>
    ensures { result ≡ small_number text.now }
{
    if text.is_empty() || text.len() > MOST_DIGITS || !all_digits(text) {
        return None;
    }
    text.parse::<u32>().ok()
}

// A word that may name a file: it isn't empty and begins with no `-`.
fn is_name(text: &str) -> bool
    ensures { result ≡ is_name text.now }
{
    match text.as_bytes() {
        [] => false,
        [first, ..] => *first != b'-',
    }
}

// So many digits, and a number within bounds.
fn is_number_in(text: &str, least: u32, most: u32) -> bool
    ensures { result ≡ is_number_in least most text.now }
{
    match number(text) {
        None => false,
        Some(n) => least <= n && n <= most,
    }
}

/// Whether a text may stand at a place.
#[tactic(auto, unfolding(crate::specs::Words::fits))]
pub(crate) fn fits(place: Place, text: &str) -> bool
    ensures { result ≡ fits place text.now }
{
    match place {
        Place::Workers => is_number_in(text, 1, MOST_WORKERS),
        Place::Number => is_number_in(text, 0, MOST_SEED),
        Place::Jobs => is_number_in(text, 1, MOST_GENERATED_JOBS),
        Place::Depth => true,
        Place::Script => is_name(text),
        Place::Table => is_name(text),
    }
}

// What follows a prefix.
fn strip<'a>(word: &'a str, prefix: &str) -> Option<&'a str>
    ensures { option_map (λ s. s.now) result ≡ after_prefix prefix.now word.entry.now }
{
    word.strip_prefix(prefix)
}

// The option of that name, with its value behind `=` or in the next word.
fn spell_option<'a>(place: Place, name: &str, word: &'a str) -> Option<Spelled<'a>>
    ensures { IsOption place name.now word.entry.now result }
{
    if word == name {
        return Some(Spelled::Awaits(place));
    }
    let rest = strip(word, name)?;
    let value = strip(rest, "=")?;
    Some(Spelled::Gives(place, value))
}

fn flag_or_positional<'a>(word: &'a str) -> Spelled<'a>
    ensures { spelling_of result ≡ flag_or_positional word.entry.now }
{
    if word == "--depth" {
        Spelled::Flag
    } else {
        Spelled::Positional
    }
}

/// What a word is, where no option waits for its value.
pub(crate) fn spell<'a>(word: &'a str) -> Spelled<'a>
    ensures { spelling_of result ≡ spelling word.entry.now }
{
    match spell_option(Place::Workers, "--workers", word) {
        Some(spelled) => spelled,
        None => match spell_option(Place::Number, "--gen", word) {
            Some(spelled) => spelled,
            None => match spell_option(Place::Jobs, "--jobs", word) {
                Some(spelled) => spelled,
                None => flag_or_positional(word),
            },
        },
    }
}
