use crate::operations::Ops;
use cap_word::Words;

/// A function. Its variables are its parameters, then the names that its body declares in the order of
/// the text, then its temporaries.
#[derive(Drop)]
pub struct FlatFunction {
    /// The number of its parameters.
    pub params: u32,
    /// Whether its calls give a result.
    pub gives: bool,
    /// The size of each variable in words: 1 for a scalar.
    pub sizes: Words,
    pub ops: Ops,
}
