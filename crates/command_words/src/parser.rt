// The words as `clap` parses them: one command without subcommands, whose options and positional words are texts.
ghost use Rattle.std.specs.Prelude.{List, ◌≡◌, map, option_map, Err, IfOk, ◌↔◌, fold, false};
ghost use Rattle.std.specs.String.{string_bytes};
ghost use Rattle.clap.specs.Words.{app_of, rule_of};
ghost use Rattle.command_words.specs.Said.{Said};
ghost use Rattle.clap.specs.Simple.{new_rule};
ghost use Rattle.command_words.specs.Asked.{texts_of};
ghost use Rattle.command_words.specs.Parse.{IsReadable, IsSaid, IsReadAs, bare_app, with_option, with_place, words_app};

use crate::commands::WordsError;
use crate::option_table::{AUDIT, CommandOption, PLACEMENT, RUN, SHARED};
use clap::error::ErrorKind;
use clap::{Arg, ArgMatches, Command};
use std::alloc::{AllocError, Global};

/// Returns the texts that the words give, if each option occurs at most once and with a value, and at most four words
/// are positional.
pub(crate) fn parse<'a>(alloc: Global, words: &'a Vec<String>) -> Result<ArgMatches<'a>, WordsError>
    requires { IsReadable (map (λ word. string_bytes word) words.now.items) }
    ensures read { IfOk result (λ matches. IsReadAs (map (λ word. string_bytes word) words.now.items)
        (texts_of matches)) }
    ensures refused { result ≡ Err WordsError.NotWords → (said : List Said)
        → IsSaid (map (λ word. string_bytes word) words.now.items) said → ⊥ }
{
    let Ok(parser) = parser(alloc) else {
        return Err(WordsError::Memory);
    };
    match parser.try_get_matches_from(words.as_slice()) {
        Ok(matches) => Ok(matches),
        Err(error) => Err(refusal(error.kind())),
    }
}

/// The positional words: the command's name, and up to three more.
const PLACES: [&str; 4] = ["command", "first", "second", "third"];

/// Returns the command with all positional words and options.
fn parser<'a>(alloc: Global) -> Result<Command<'a>, AllocError>
    ensures { IfOk result (λ parser. app_of parser ≡ words_app) }
{
    let places = with_places(alloc, bare(alloc), &PLACES)?;
    let placement = with_options(alloc, places, &PLACEMENT)?;
    let run = with_options(alloc, placement, &RUN)?;
    let shared = with_options(alloc, run, &SHARED)?;
    with_options(alloc, shared, &AUDIT)
}

/// Returns the command without arguments.
fn bare<'a>(alloc: Global) -> Command<'a>
    ensures { app_of result ≡ bare_app }
{
    Command::new(alloc, "capriccio")
        .no_binary_name(true)
        .disable_help_flag(true)
}

/// Adds the positional words, one after another.
fn with_places<'a>(
    alloc: Global,
    command: Command<'a>,
    names: &[&'a str],
) -> Result<Command<'a>, AllocError>
    ensures { IfOk result (λ parser. app_of parser ≡ fold (λ app name. with_place app name.now)
        (app_of command.entry) names.now) }
{
    let mut command = command;
    for name in names {
        command = command.arg(argument(alloc, name, None))?;
    }
    Ok(command)
}

/// Adds the options, one after another.
fn with_options<'a>(
    alloc: Global,
    command: Command<'a>,
    options: &[CommandOption],
) -> Result<Command<'a>, AllocError>
    ensures { IfOk result (λ parser. app_of parser ≡ fold with_option (app_of command.entry) options.now) }
{
    let mut command = command;
    for option in options {
        let row = option.row();
        command = command.arg(argument(alloc, row.name, Some(row.long)))?;
    }
    Ok(command)
}

/// Returns a positional word, or an option with its name after the dashes, which takes one text.
fn argument<'a>(alloc: Global, name: &'a str, long: Option<&'a str>) -> Arg<'a>
    ensures rule { rule_of result ≡ record (new_rule name.now) { long = option_map (λ text. text.now) long.entry } }
    ensures local { result.global ≡ false }
{
    let argument = Arg::new(alloc, name);
    match long {
        Some(long) => argument.long(long),
        None => argument,
    }
}

/// Returns why words are refused that don't parse.
fn refusal(kind: ErrorKind) -> WordsError
    ensures { (result ≡ WordsError.Memory) ↔ (kind ≡ ErrorKind.OutOfMemory) }
{
    match kind {
        ErrorKind::OutOfMemory => WordsError::Memory,
        _ => WordsError::NotWords,
    }
}
