// Why a command ends before it has done what its words ask.
ghost use Rattle.std.specs.Prelude.{◌≡◌};
ghost use Rattle.command_outcomes.specs.CauseLines.{cause_status};

use crate::documents::Document;
use crate::faults::Fault;
use c_scope::SourceError;
use stack_image::ImageError;

/// Why a command refuses its words or files.
#[derive(Drop)]
pub enum Cause {
    /// The words aren't a word list.
    Usage,
    /// A file that the command loads doesn't exist.
    Absent(Document),
    /// A file exceeds its maximum size.
    TooLong(Document),
    /// The source isn't a program.
    Source(SourceError),
    /// The bytes aren't an image.
    Image(ImageError),
    /// This line of the certificate is the first that doesn't have the format.
    CertificateLine(u32),
    /// The checker rejects the pair: this rule fails first, at this function and index.
    Rejected {
        /// The number of the rule, from 1 to 12.
        rule: u32,
        /// The number of the function.
        function: u32,
        /// An index, whose meaning depends on the rule.
        index: u32,
    },
    /// A frame is too large: that of the function of this name.
    Frame {
        /// The function's name.
        name: Vec<u8>,
        /// The size of its frame in bytes.
        bytes: u32,
    },
    /// The code is too large.
    Code {
        /// The number of words of the code.
        words: u64,
    },
    /// The pool is too large.
    Pool {
        /// The size of all chunks together in bytes.
        bytes: u64,
    },
    /// The function of this name is on a cycle of calls, so the program has no budget.
    Cycle {
        /// The function's name.
        name: Vec<u8>,
    },
}

impl Cause {
    /// Returns the status of a command that ends with this refusal.
    pub(crate) fn status(&self) -> u8
        ensures { result ≡ cause_status self.now }
    {
        match self {
            Cause::Usage => 1,
            Cause::Absent(_) => 9,
            Cause::TooLong(Document::Source) | Cause::Source(_) => 2,
            Cause::TooLong(Document::Image | Document::Certificate | Document::Log)
            | Cause::Image(_)
            | Cause::CertificateLine(_) => 4,
            Cause::Rejected { .. } => 3,
            Cause::Frame { .. } | Cause::Code { .. } | Cause::Pool { .. } => 5,
            Cause::Cycle { .. } => 17,
        }
    }
}

/// Why a command ends at some step.
#[derive(Drop)]
pub enum Stop {
    /// The command refuses its words or files.
    Refused(Cause),
    /// A fault outside the command.
    Failed(Fault),
}
