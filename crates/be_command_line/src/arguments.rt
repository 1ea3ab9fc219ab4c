//! The words behind the command, read by the kit's parser of command lines.

ghost use Rattle.std.specs.Prelude.{◌≡◌, ◌≢◌, IfOk, map};
ghost use Rattle.be_base.specs.Readers.{now_of};
ghost use Rattle.clap.specs.Simple.{app_of};
ghost use Rattle.clap.specs.Values.{kind_of};
ghost use Rattle.be_command_line.specs.Arguments.{arguments};
ghost use Rattle.be_command_line.specs.CommandLine.{app};
ghost use Rattle.be_command_line.specs.Read.{AreArguments, argument_values};
ghost use Rattle.be_command_line.specs.Words.{word_texts};

use crate::words::WordsFault;
use be_base::NoMemory;
use clap::error::ErrorKind;
use clap::{Arg, ArgAction, ArgMatches, Command, Error};
use std::alloc::Global;

/// The id of the words that stand by their places.
pub const WORD: &str = "word";

/// The id and the name of the option for a file that is loaded.
pub const LOAD: &str = "load";

/// Reads the words behind the command.
pub fn read_arguments(alloc: Global, words: &[String]) -> Result<ArgMatches<'_>, WordsFault>
    ensures { AreArguments (arguments (word_texts words.now)) result }
{
    match command_line(alloc)?.try_get_matches_from(words) {
        Ok(matches) => Ok(matches),
        Err(error) => Err(fault_of(&error)),
    }
}

// The one command line of all commands. How many words a command takes is told by its row.
fn command_line<'a>(alloc: Global) -> Result<Command<'a>, NoMemory>
    ensures { IfOk result (λ command. app_of command ≡ app) }
{
    let word = Arg::new(alloc, WORD).action(ArgAction::Append);
    let load = Arg::new(alloc, LOAD).long(LOAD).action(ArgAction::Append);
    let command = Command::new(alloc, "justmeadow")
        .no_binary_name(true)
        .disable_help_flag(true);
    Ok(command.arg(word)?.arg(load)?)
}

fn fault_of(error: &Error) -> WordsFault
    ensures { result ≡ WordsFault.Refused → kind_of error.now ≢ ErrorKind.OutOfMemory }
{
    match error.kind() {
        ErrorKind::OutOfMemory => WordsFault::NoMemory,
        _ => WordsFault::Refused,
    }
}

/// The values of an argument.
pub fn values_of<'m, 'a>(matches: &'m ArgMatches<'a>, id: &str) -> &'m [&'a str]
    ensures { map now_of result.now ≡ argument_values matches.now id.now }
{
    matches.get_raw(id).unwrap_or_default()
}
