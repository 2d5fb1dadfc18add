use cap_word::Words;

/// The checkpoints, and the bound of each function.
#[derive(Drop)]
pub struct Plan {
    /// The numbers of the checkpointed sites, increasing.
    pub checkpointed: Words,
    /// The bound of each function in bytes, by number.
    pub bounds: Words,
}
