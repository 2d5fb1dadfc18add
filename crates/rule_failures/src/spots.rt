/// The place at which a rule fails: the function and the index.
#[derive(Clone, Copy, PartialEq, Eq)]
pub struct Spot {
    pub function: u32,
    pub index: u64,
}
