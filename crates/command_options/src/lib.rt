// From the options of a command to a monitor and a rule.
//
// In: options, as `command_words` reads them. Out: the monitor of a run (`monitor_of`) and its stride rule
// (`stride_rule_of`). specs/Options.antt defines which options are in range; proofs/Options.antt proves that those of
// every word list are. The crates above run a program, or judge a log, with them.
#![tactic(auto)]

mod knee_measures;
mod monitors;
mod strides;

pub use knee_measures::KneeMeasure;
pub use monitors::monitor_of;
pub use strides::stride_rule_of;
