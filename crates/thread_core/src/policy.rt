/// The settings of a run, in addition to its program.
#[derive(Clone, Copy, Debug, PartialEq, Eq)]
pub struct WorldPolicy {
    /// The number of chunks of the certificate's size, from 1 to 65,536.
    pub chunks: u32,
    /// The number of chunks of the second size, at most 65,536.
    pub extra: u32,
    /// The size in bytes of each of these, a multiple of 16 from 32 to 65,536.
    pub extra_bytes: u32,
    /// The maximum length of a queue, from 1 to 4,096.
    pub backlog: u32,
    /// The caps of the resources 1 to 7, each from 1 to 1,000,000, or 0 for a resource without one. Entry 0 isn't read.
    pub caps: [u32; 8],
}
