// Every call of the program has a due outcome, whatever the words, files, programs and traces are; and what each
// command does if nothing fails.
//
// Laws only; no other crate uses them. A law has no effect at run time: its contract is the theorem.
//
// A statement is decided (specs/Decided.antt) if it or its negation is proved, so a definition by decided cases has an
// outcome for every input. proofs/Decisions.antt decides equality of numbers and texts, whether some number below a
// bound or some element of a list meets a decided condition, and conjunctions and disjunctions of decided statements.
// By these, over the definitions of the crates below:
//
// - `word_lists`: every list of words is a word list or isn't (proofs/Spoken.antt, Values, Commands, Requests).
// - `token_trees`: every list of bytes is tokens or has a first place where none begins (Lexing), every list of tokens
//   is a tree or is refused (Parsing, Alternatives), every tree is a program or is refused (Scoping).
// - `nested_calls`: the call for which c_parse refuses a program, which it searches in the order of the tree, is the
//   first call in the text that isn't whole (`first_nested_call`; in the parentheses of a `for`, specs/NestedFors.antt,
//   `first_nested_call_in_fors`), by the places of grammar_laws.
// - `read_sources`: so every source, with or without calls inside expressions, is a program or has a refusal (Sources);
//   the globals of such a program start with words (Starts).
// - `files`: every list of bytes is an image or has a refusal (Images), every text is a certificate or has a first
//   refused line (LinesSaid, Certificates).
// - `checked_pairs`: every pair is valid for a program or has a first failure (Pairs); each rule is decided at each
//   function and index (Decided, Named, Instructions) and has bounds (Search).
// - `placements`: every program whose sites differ has a call graph (Graphs), and every call graph a placement (Bounds,
//   Sorting).
// - `laid_out`: every planned program is laid out as some image and certificate.
// - `budgets`: a program has a least function on a cycle of calls, or a least budget (Reaching, Heights).
//
// Over these, and the clause `answer` of capriccio:
//
// - `due`: whatever the files and the trace are, an outcome is due for words that aren't a word list, and for each of
//   the eight commands, with one law for each and one for all (Every). The only premise is that exposed files consist
//   of bytes (specs/Told.antt).
// - `read_again`: what is laid out for a program meets every rule of the checker, and its files are read back
//   (specs/ReadAgain.antt).
// - `told`: the output and the status of a command if the words are a word list, the files exist and are read, no limit
//   is exceeded, the pair is valid, no line of the trace that is examined is refused, and no count of faults rose. If
//   files and trace are exposed, `serve` and `run` write the whole lawful log and `demo` its summary, and they end with
//   0, 10, 11, 12, 13 or 14; `audit` writes its verdict and ends with 0, 15 or 16; `build`, `graph`, `check` and
//   `budget` end with 0, and `check` writes `accepted`, also for what `build` wrote under three names. The only other
//   answer is out of memory.
#![tactic(auto)]

mod budgets;
mod checked_pairs;
mod due;
mod files;
mod laid_out;
mod nested_calls;
mod placements;
mod read_again;
mod read_sources;
mod texts;
mod token_trees;
mod told;
mod traces;
mod word_lists;

pub use budgets::least_budget_or_cycle;
pub use checked_pairs::pair_is_valid_or_has_a_first_failure;
pub use due::{
    audit_is_due, budget_is_due, build_is_due, check_is_due, demo_is_due, graph_is_due,
    layout_is_valid, outcome_is_due, run_is_due, serve_is_due, usage_is_due,
};
pub use files::{certificate_is_read_or_refused, image_is_read_or_refused};
pub use laid_out::layout_is_there;
pub use nested_calls::{first_nested_call, first_nested_call_in_fors};
pub use placements::placement_is_there;
pub use read_again::laid_out_is_read_again;
pub use read_sources::{globals_start_with_words, source_is_read_or_refused};
pub use texts::texts_are_decided;
pub use token_trees::{
    source_is_tokens_or_refused, tokens_are_a_tree_or_refused, tree_is_a_program_or_refused,
};
pub use told::{
    audit_writes_its_judgement, budget_writes_its_lines, build_stores_its_pair,
    check_accepts_what_build_wrote, check_writes_accepted, demo_writes_its_summary,
    graph_writes_its_lines, run_writes_its_log, serve_writes_its_log,
};
pub use traces::good_traces_are_looked_at;
pub use word_lists::words_are_a_list_or_none;
