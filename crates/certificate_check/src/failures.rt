/// The first failure of the rules: the number of the rule, from 1 to 12, the function and the index. The meaning
/// of an index depends on the rule; for a rule that isn't about functions, the function is 0.
#[derive(Clone, Copy, PartialEq, Eq)]
pub struct Failure {
    pub rule: u32,
    pub function: u32,
    pub index: u64,
}
