//! Words as a command.

ghost use Rattle.std.specs.Prelude.{◌≡◌, ◌↔◌, [], ◌++◌, IfOk, OnOk, IsTrue, map, option_map, string_bytes, unwrap_or};
ghost use Rattle.clap.specs.Matches.{found_of};
ghost use Rattle.clap.specs.Values.{kind_of};
ghost use Rattle.clap.specs.Walk.{rows_of, texts};
ghost use Rattle.command_words.specs.Commands.{command_of};
ghost use Rattle.command_words.specs.Seen.{work_of};
ghost use Rattle.command_words.specs.Values.{values_found};

use crate::application::application;
use crate::command::Command;
use crate::named;
use clap::error::ErrorKind;
use clap::{ArgMatches, Error};
use std::alloc::{AllocError, Global};

/// Whether a parse failed for want of memory.
fn is_memory(error: &Error) -> bool
    ensures { IsTrue result ↔ (kind_of error.now ≡ ErrorKind.OutOfMemory) }
{
    match error.kind() {
        ErrorKind::OutOfMemory => true,
        _ => false,
    }
}

/// Puts values after those that stand, if some were given.
fn push_all<'a>(values: &mut Vec<&'a str>, found: Option<&[&'a str]>) -> Result<(), AllocError>
    ensures { OnOk result
        (texts values.new.items ≡ texts values.old.items ++ unwrap_or
        (option_map (λ words. texts words.now) found.entry) []) }
{
    if let Some(words) = found {
        values.extend_from_slice(words)?;
    }
    Ok(())
}

/// The values that a parse found, in order.
fn values_given<'a>(alloc: Global, given: &ArgMatches<'a>) -> Result<Vec<&'a str>, AllocError>
    ensures { IfOk result
        (λ values. texts values.items ≡ values_found (rows_of (found_of given.now))) }
{
    let mut values = Vec::new(alloc);
    push_all(&mut values, given.get_strs("values"))?;
    Ok(values)
}

/// The command that the words are, which are the program's arguments after its name, or none. Want
/// of memory is told apart from words that are no command.
pub fn parse<'a>(alloc: Global, words: &'a [String]) -> Result<Option<Command<'a>>, AllocError>
    ensures { IfOk result
        (λ found. option_map work_of found ≡ command_of (map string_bytes words.entry.now)) }
{
    let matches = match application(alloc)?.try_get_matches_from(words) {
        Ok(matches) => matches,
        Err(error) => {
            if is_memory(&error) {
                return Err(AllocError);
            }
            return Ok(None);
        }
    };
    match matches.subcommand() {
        Some((name, given)) => {
            let values = values_given(alloc, given)?;
            Ok(named::command_named(name, values))
        }
        None => Ok(None),
    }
}
