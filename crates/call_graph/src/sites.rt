/// The callee of a call site.
#[derive(Clone, Copy)]
pub enum Target {
    /// The function with this number.
    Function(u32),
    /// A member of the table with this number.
    Table(u32),
}

/// A call site.
#[derive(Clone, Copy)]
pub struct GraphSite {
    /// The number of the site.
    pub number: u32,
    /// The number of the function that contains the site.
    pub caller: u32,
    /// The callee.
    pub target: Target,
}
