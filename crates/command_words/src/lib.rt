// The words of the command line, read as a command.
//
// In: the words after the program's name. Out: the command that they ask for, with the names of its files and its
// options, or the refusal of words that aren't a word list. `IsWordList` (specs/WordList.antt) defines, on the words
// alone, which words ask for which command: eight commands, positional words, options with their ranges and defaults.
// The options are one table (option_table.rt and specs/OptionTable.antt). `read_words` returns a command exactly if
// there is one, and by the law `words_ask_for_one_command` there is at most one. `clap` parses the words, as one
// command without subcommands that takes each option as a text; its result for every list is proved from its contract.
// The rules of the words are our own; numbers are canonical decimals (`cap_text`).
#![tactic(auto)]

mod commands;
mod laws;
mod numbers;
mod option_table;
mod option_values;
mod options;
mod parser;
mod reading;
mod refusals;
mod ticket_lists;
mod words;

pub use commands::{Command, WordsError};
pub use laws::words_ask_for_one_command;
pub use option_table::CommandOption;
pub use options::{Audit, Placement, Policy, Rule, Tickets};
pub use words::read_words;
