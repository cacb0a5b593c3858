//! The commands as `clap` has them, and what it finds in words.
ghost use Rattle.std.specs.Prelude.{◌≡◌, IfErr, IfOk, map, string_bytes, true, false};
ghost use Rattle.clap.specs.Words.{app_of, found_of, is_simple, is_simple_and_free, matches_of, rows_of};
ghost use Rattle.ha_words.specs.Grammar.{one_word_app, run_app, takes_words};

use crate::plan::WordsFault;
use clap::error::ErrorKind;
use clap::{Arg, ArgAction, ArgMatches, Command};
use std::alloc::{AllocError, Global};

/// Which fault an error of `clap` is.
fn fault_by(kind: ErrorKind) -> WordsFault
    ensures { result ≡ WordsFault.Usage → ¬ (kind ≡ ErrorKind.OutOfMemory) }
{
    match kind {
        ErrorKind::OutOfMemory => WordsFault::Memory,
        _ => WordsFault::Usage,
    }
}

/// The command `run`.
fn run_command<'a>(alloc: Global) -> Result<Command<'a>, AllocError>
    ensures { IfOk result (λ c. app_of c ≡ run_app) }
{
    let config = Arg::new(alloc, "config")
        .long("config")
        .action(ArgAction::Set)
        .required(true);
    let start = Arg::new(alloc, "start")
        .long("start")
        .action(ArgAction::Set)
        .required(true);
    let zone = Arg::new(alloc, "zone").long("zone").action(ArgAction::Set);
    let trace = Arg::new(alloc, "trace")
        .long("trace")
        .action(ArgAction::Set);
    let source = Arg::new(alloc, "source")
        .action(ArgAction::Append)
        .required(true);
    let run = Command::new(alloc, "run")
        .no_binary_name(true)
        .disable_help_flag(true)
        .disable_version_flag(true);
    run.arg(config)?
        .arg(start)?
        .arg(zone)?
        .arg(trace)?
        .arg(source)
}

/// A command of one word.
fn word_command<'a>(alloc: Global, name: &'a str) -> Result<Command<'a>, AllocError>
    ensures { IfOk result (λ c. app_of c ≡ one_word_app name.entry.now) }
{
    let word = Arg::new(alloc, "word")
        .action(ArgAction::Set)
        .required(true);
    let command = Command::new(alloc, name)
        .no_binary_name(true)
        .disable_help_flag(true)
        .disable_version_flag(true);
    command.arg(word)
}

/// What `clap` finds in the words of a command.
fn matches_in<'a>(command: Command<'a>, words: &'a [String]) -> Result<ArgMatches<'a>, WordsFault>
    requires exact { is_simple (app_of command) ≡ true }
    requires free { is_simple_and_free (app_of command) ≡ true }
    ensures takes { IfOk result (λ m. takes_words (app_of command.entry) (map string_bytes words.entry.now) ≡ true) }
    ensures rows { IfOk result (λ m. rows_of (found_of m) ≡ matches_of (app_of command.entry) (map string_bytes words.entry.now)) }
    ensures usage { IfErr result (λ e. e ≡ WordsFault.Usage → takes_words (app_of command.entry) (map string_bytes words.entry.now) ≡ false) }
{
    match command.try_get_matches_from(words) {
        Ok(matches) => Ok(matches),
        Err(error) => Err(fault_by(error.kind())),
    }
}

/// What `clap` finds in the words after `run`.
pub(crate) fn run_matches<'a>(
    alloc: Global,
    words: &'a [String],
) -> Result<ArgMatches<'a>, WordsFault>
    ensures takes { IfOk result (λ m. takes_words run_app (map string_bytes words.entry.now) ≡ true) }
    ensures rows { IfOk result (λ m. rows_of (found_of m) ≡ matches_of run_app (map string_bytes words.entry.now)) }
    ensures usage { IfErr result (λ e. e ≡ WordsFault.Usage → takes_words run_app (map string_bytes words.entry.now) ≡ false) }
{
    let Ok(command) = run_command(alloc) else {
        return Err(WordsFault::Memory);
    };
    matches_in(command, words)
}

/// What `clap` finds in the words after the name of a command of one word.
pub(crate) fn word_matches<'a>(
    alloc: Global,
    name: &'a str,
    words: &'a [String],
) -> Result<ArgMatches<'a>, WordsFault>
    ensures takes { IfOk result (λ m. takes_words (one_word_app name.entry.now) (map string_bytes words.entry.now) ≡ true) }
    ensures rows { IfOk result (λ m. rows_of (found_of m) ≡ matches_of (one_word_app name.entry.now) (map string_bytes words.entry.now)) }
    ensures usage { IfErr result (λ e. e ≡ WordsFault.Usage → takes_words (one_word_app name.entry.now) (map string_bytes words.entry.now) ≡ false) }
{
    let Ok(command) = word_command(alloc, name) else {
        return Err(WordsFault::Memory);
    };
    matches_in(command, words)
}
