// The commands of the program.
use crate::options::{Audit, Placement, Policy};
use thiserror::Error;

/// A command with the names of its files and its options.
#[derive(Clone, Copy)]
pub enum Command<'a> {
    /// Builds, checks and runs a source on the trace. `chunk` times the number of chunks is at most 67,108,864 bytes.
    Serve {
        source: &'a str,
        placement: Placement,
        policy: Policy,
    },
    /// Checks a source with its image and certificate and runs the image on the trace.
    Run {
        source: &'a str,
        image: &'a str,
        certificate: &'a str,
        policy: Policy,
    },
    /// Builds a source and stores image and certificate.
    Build {
        source: &'a str,
        image: &'a str,
        certificate: &'a str,
        placement: Placement,
    },
    /// Checks a source with its image and certificate.
    Check {
        source: &'a str,
        image: &'a str,
        certificate: &'a str,
    },
    /// Writes the analysis of a source.
    Graph {
        source: &'a str,
        placement: Placement,
    },
    /// Runs the workload of this number, from 1 to 1,000.
    Demo {
        number: u32,
    },
    /// Judges a log of a source on the trace.
    Audit {
        source: &'a str,
        log: &'a str,
        options: Audit,
    },
    /// Checks a source with its image and certificate, and prints how many chunks are enough.
    Budget {
        source: &'a str,
        image: &'a str,
        certificate: &'a str,
    },
}

/// Why no command is returned.
#[derive(Clone, Copy, Debug, Error)]
pub enum WordsError {
    /// The words aren't a word list.
    #[error("the arguments are not those of a command")]
    NotWords,
    /// Out of memory.
    #[error("out of memory")]
    Memory,
}
