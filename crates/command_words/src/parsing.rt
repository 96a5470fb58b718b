// The command as `clap` knows it, and what it finds in words that were tested.
ghost use Rattle.std.specs.Prelude.{◌≡◌, IfOk, IfErr, true, false, map, option_map, option_and_then, string_bytes};
ghost use Rattle.clap.specs.Words.{first_value, found_of, kind_of, app_of, rule_of};
ghost use Rattle.command_words.specs.Words.{reading, is_of_command};
ghost use Rattle.command_words.specs.Seen.{small_number};
ghost use Rattle.command_words.specs.Found.{HasItems};
ghost use Rattle.command_words.specs.App.{option_rule, flag_rule, plain_app, with_options, app};

use crate::spelling::number;
use clap::error::ErrorKind;
use clap::{Arg, ArgAction, ArgMatches, Command, Error};
use std::alloc::{AllocError, Global};

/// An option with a value.
fn option_arg<'a>(alloc: Global, name: &'a str) -> Arg<'a>
    ensures rule { rule_of result ≡ option_rule name.entry.now }
    ensures local { result.global ≡ false }
{
    Arg::new(alloc, name).long(name)
}

fn flag_arg<'a>(alloc: Global, name: &'a str) -> Arg<'a>
    ensures rule { rule_of result ≡ flag_rule name.entry.now }
    ensures local { result.global ≡ false }
{
    option_arg(alloc, name).action(ArgAction::SetTrue)
}

fn plain_command<'a>(alloc: Global) -> Command<'a>
    ensures { app_of result ≡ plain_app }
{
    Command::new(alloc, "frame_run")
        .no_binary_name(true)
        .disable_help_flag(true)
        .disable_version_flag(true)
}

fn command_with_options<'a>(alloc: Global) -> Result<Command<'a>, AllocError>
    ensures { IfOk result (λ c. app_of c ≡ with_options) }
{
    plain_command(alloc)
        .arg(option_arg(alloc, "workers"))?
        .arg(option_arg(alloc, "gen"))?
        .arg(option_arg(alloc, "jobs"))?
        .arg(flag_arg(alloc, "depth"))
}

fn frame_command<'a>(alloc: Global) -> Result<Command<'a>, AllocError>
    ensures { IfOk result (λ c. app_of c ≡ app) }
{
    command_with_options(alloc)?
        .arg(Arg::new(alloc, "script"))?
        .arg(Arg::new(alloc, "table"))
}

/// The words as `clap` reads them. It refuses none that are of the command, unless memory runs out.
pub(crate) fn parse<'a>(alloc: Global, words: &'a [String]) -> Result<ArgMatches<'a>, Error>
    requires { is_of_command (map string_bytes words.now) ≡ true }
    ensures ok { IfOk result (λ m. HasItems (reading (map string_bytes words.entry.now)).items (found_of m)) }
    ensures err { IfErr result (λ e. kind_of e ≡ ErrorKind.OutOfMemory) }
{
    frame_command(alloc)?.try_get_matches_from(words)
}

/// The number at an option, where `clap` found it.
pub(crate) fn number_at(matches: &ArgMatches, id: &str) -> Option<u32>
    ensures { result ≡ option_and_then small_number (first_value (found_of matches.now) id.now) }
{
    match matches.get_str(id) {
        None => None,
        Some(text) => number(text),
    }
}

pub(crate) fn text_at(
    alloc: Global,
    matches: &ArgMatches,
    id: &str,
) -> Result<Option<String>, AllocError>
    ensures { IfOk result (λ t. option_map string_bytes t ≡ first_value (found_of matches.now) id.now) }
{
    match matches.get_str(id) {
        None => Ok(None),
        Some(text) => Ok(Some(String::from_str(alloc, text)?)),
    }
}
