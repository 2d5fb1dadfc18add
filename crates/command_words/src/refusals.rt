// The words that are refused before parsing.
ghost use Rattle.std.specs.Prelude.{◌↔◌, IsTrue, map};
ghost use Rattle.std.specs.List.{AllByRecursion};
ghost use Rattle.std.specs.String.{string_bytes};
ghost use Rattle.command_words.specs.OptionTable.{names_of};
ghost use Rattle.command_words.specs.Said.{IsPlain, IsOneOf};
ghost use Rattle.command_words.specs.Parse.{IsWord, IsReadable, command_names, all_options};

use crate::option_table::{AUDIT, CommandOption, PLACEMENT, RUN, SHARED};

/// Checks whether the first word is a command's name and each other word is a value, a positional word or an option's
/// name.
pub(crate) fn is_readable(words: &[String]) -> bool
    ensures { IsTrue result ↔ IsReadable (map (λ word. string_bytes word) words.now) }
{
    match words {
        [] => false,
        [first, rest @ ..] => is_command(first.as_str()) && are_readable(rest),
    }
}

/// Checks whether each word is a value, a positional word or an option's name.
fn are_readable(words: &[String]) -> bool
    ensures { IsTrue result ↔ AllByRecursion IsWord (map (λ word. string_bytes word) words.now) }
{
    for word in words {
        if !is_word(word.as_str()) {
            return false;
        }
    }
    true
}

/// Checks whether the word is a value, a positional word or an option's name.
fn is_word(word: &str) -> bool
    ensures { IsTrue result ↔ IsWord word.now }
{
    is_plain(word) || is_option(word)
}

/// Checks whether the word is a command's name.
fn is_command(word: &str) -> bool
    ensures { IsTrue result ↔ IsOneOf command_names word.now }
{
    matches!(
        word,
        "serve" | "run" | "build" | "check" | "graph" | "demo" | "audit" | "budget"
    )
}

/// Checks whether the word is an option's name.
fn is_option(word: &str) -> bool
    ensures { IsTrue result ↔ IsOneOf all_options word.now }
{
    is_named(&PLACEMENT, word)
        || is_named(&RUN, word)
        || is_named(&SHARED, word)
        || is_named(&AUDIT, word)
}

/// Checks whether the word is the name of one of these options.
fn is_named(options: &[CommandOption], word: &str) -> bool
    ensures { IsTrue result ↔ IsOneOf (names_of options.now) word.now }
{
    for option in options {
        if option.row().name == word {
            return true;
        }
    }
    false
}

/// Checks whether the word may be a value or a positional word: it isn't empty and doesn't begin with `-`.
fn is_plain(word: &str) -> bool
    ensures { IsTrue result ↔ IsPlain word.now }
{
    match word.as_bytes() {
        [] => false,
        [first, ..] => *first != b'-',
    }
}
