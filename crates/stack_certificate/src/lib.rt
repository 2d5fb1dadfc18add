// Certificates of stack use, and the templates of machine code that they describe.
//
// A certificate (`Certificate`) gives the place of each function in the code, the size of its frame, the
// places of its variables in the frame, its bound (the maximum number of bytes of stack that it needs up to
// the next linked call), and the calls that link a new chunk. `operation_word` returns the words of an
// operation of flat code under a certificate: the generator writes them and the checker compares with them,
// so both mean the same; `template_word` returns them without a precomputed setting. specs/Templates.antt has
// the table, with a row for each operation. A certificate's text is read and written by the crate
// certificate_text. The idea of linked chunks and of bounds checked at chosen calls is Capriccio's (von
// Behren, Condit, Zhou, Necula, Brewer, "Capriccio: Scalable Threads for Internet Services", SOSP 2003).
#![tactic(auto)]

mod addresses;
mod begins;
mod calls;
mod certificates;
mod elements;
mod functions;
mod instruction_lists;
mod laws;
mod lookups;
mod parts;
mod places_in_code;
mod rows;
mod run_time_calls;
mod settings;
mod sites;
mod slots;
mod template_words;
mod words;

pub use addresses::{GLOBALS_START, TABLES_START, global_addresses, table_addresses};
pub use begins::operation_begin;
pub use certificates::Certificate;
pub use functions::{FunctionFact, FunctionFacts};
pub use laws::template_laws;
pub use lookups::{fact_of, function_of, members_of_table, placed_fact_of, words_of_global};
pub use places_in_code::operation_size;
pub use run_time_calls::{END_NUMBER, LINK_NUMBER, TRAP_NUMBER, UNLINK_NUMBER};
pub use settings::Setting;
pub use sites::{LinkKind, SiteFact, SiteFacts};
pub use template_words::{operation_setting, template_word};
pub use words::{operation_word, prologue_word, stub_word};
