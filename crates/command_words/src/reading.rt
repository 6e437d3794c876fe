//! The words of each command but `serve`.

ghost use Rattle.std.specs.Prelude.{◌≡◌, IfOk, map, string_bytes};
ghost use Rattle.std.specs.List.{list_any};
ghost use Rattle.clap.specs.Words.{subcommand_rows_of};
ghost use Rattle.command_words.specs.Words.{begins_with_hyphen, subcommand_in, HasClerk};
ghost use Rattle.command_words.specs.Command.{asked};

use crate::Subcommand;
use crate::command::office_command;
use crate::table::{subcommand_alone, subcommand_with};
use clap::ArgMatches;
use clap::error::ErrorKind;
use plain_data::NoMemory;
use std::alloc::Global;

/// What the words ask of the program, and None for words that it doesn't know.
pub fn subcommand_in<'a>(alloc: Global, words: &'a [String]) -> Result<Option<Subcommand>, NoMemory>
    ensures exact { IfOk result (λ found. found ≡ subcommand_in (map string_bytes words.now)) }
    ensures clerk { IfOk result HasClerk }
{
    if has_hyphens(words) {
        return Ok(None);
    }
    let office = office_command(alloc)?;
    match office.try_get_matches_from(words) {
        Ok(matches) => Ok(asked(&matches)),
        Err(error) => match error.kind() {
            ErrorKind::OutOfMemory => Err(NoMemory),
            _ => Ok(None),
        },
    }
}

/// Whether a word begins with a hyphen.
fn has_hyphens(words: &[String]) -> bool
    ensures { result ≡ list_any begins_with_hyphen (map string_bytes words.now) }
{
    for word in words {
        if begins_with_hyphen(word.as_bytes()) {
            return true;
        }
    }
    false
}

fn begins_with_hyphen(word: &[u8]) -> bool
    ensures { result ≡ begins_with_hyphen word.now }
{
    match word {
        [b'-', ..] => true,
        _ => false,
    }
}

/// What the subcommand asks that `clap` found, with its value if it has one.
fn asked(matches: &ArgMatches) -> Option<Subcommand>
    ensures exact { result ≡ asked (subcommand_rows_of matches.now) }
    ensures clerk { HasClerk result }
{
    let (name, inner) = matches.subcommand()?;
    match inner.get_str("value") {
        Some(value) => subcommand_with(name, value),
        None => subcommand_alone(name),
    }
}
