// A list of words as a command.
ghost use Rattle.std.specs.Prelude.{◌≡◌, map, IfOk, Err};
ghost use Rattle.std.specs.String.{string_bytes};
ghost use Rattle.command_words.specs.WordList.{Request, request_of, IsWordList};

use crate::commands::{Command, WordsError};
use crate::parser::parse;
use crate::reading::command_of;
use crate::refusals::is_readable;
use std::alloc::Global;

/// Returns the command that the words after the program's name ask for.
///
/// # Errors
///
/// `NotWords` exactly if they aren't a word list; `Memory` if an allocation fails.
pub fn read_words<'a>(alloc: Global, words: &'a Vec<String>) -> Result<Command<'a>, WordsError>
    ensures read { IfOk result (λ command. IsWordList (map (λ word. string_bytes word) words.now.items)
        (request_of command)) }
    ensures refused { result ≡ Err WordsError.NotWords → (request : Request)
        → IsWordList (map (λ word. string_bytes word) words.now.items) request → ⊥ }
{
    if !is_readable(words.as_slice()) {
        return Err(WordsError::NotWords);
    }
    match parse(alloc, words) {
        Ok(matches) => {
            let command = command_of(&matches);
            drop(matches);
            match command {
                Some(command) => Ok(command),
                None => Err(WordsError::NotWords),
            }
        }
        Err(error) => Err(error),
    }
}
