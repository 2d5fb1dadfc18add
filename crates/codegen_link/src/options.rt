/// The sizes of the stack for which code is generated.
#[derive(Clone, Copy, PartialEq, Eq)]
pub struct Options {
    /// The size of a chunk in bytes, including its header of 16 bytes: a multiple of 16 from 64 to
    /// 65,536.
    pub chunk: u32,
    /// Max path: the maximum number of bytes that a function may need up to the next linked call, from
    /// 16 to the payload of a chunk.
    pub max_path: u32,
}
