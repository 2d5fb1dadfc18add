use crate::failures::Failure;
use crate::report::Options;
use command_words::{Command, Policy, WordsError, read_words};
use run_history::Marks;
use std::alloc::Global;

/// The run to be shown: the name of its source, and what its options say.
#[derive(Clone, Copy)]
pub struct Subject<'a> {
    /// The file name of the source.
    pub source: &'a str,
    /// The options that the report uses.
    pub options: Options,
}

/// Returns the run that words ask for, or `None` if they ask for something else.
///
/// # Errors
///
/// `Words` if they are those of no command.
pub fn subject_of<'a>(
    alloc: Global,
    words: &'a Vec<String>,
) -> Result<Option<Subject<'a>>, Failure> {
    match read_words(alloc, words) {
        Ok(Command::Serve { source, policy, .. }) => Ok(Some(Subject {
            source,
            options: options_of(policy),
        })),
        Ok(Command::Run { source, policy, .. }) => Ok(Some(Subject {
            source,
            options: options_of(policy),
        })),
        Ok(_) => Ok(None),
        Err(WordsError::NotWords) => Err(Failure::Words),
        Err(WordsError::Memory) => Err(Failure::Memory),
    }
}

/// Returns the options of a run that the report uses.
fn options_of(policy: Policy) -> Options {
    let mut has_caps = false;
    for cap in policy.caps {
        if cap > 0 {
            has_caps = true;
        }
    }
    Options {
        marks: Marks {
            chunks: policy.chunks.saturating_add(policy.extra),
            high: policy.high,
            low: policy.low,
            knee: policy.knee,
        },
        has_caps,
    }
}
