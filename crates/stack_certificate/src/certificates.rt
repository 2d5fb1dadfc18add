use crate::functions::FunctionFacts;
use crate::sites::SiteFacts;

/// Claims about a program's machine code, by which its use of stack can be checked.
#[derive(Drop)]
pub struct Certificate {
    /// The size of a chunk in bytes, including its header.
    pub chunk: u32,
    /// The maximum number of bytes that a function may need up to the next linked call.
    pub max_path: u32,
    /// A fact for each function, in order of numbers.
    pub functions: FunctionFacts,
    /// A fact for each site at which a function is called or a thread started.
    pub sites: SiteFacts,
}
