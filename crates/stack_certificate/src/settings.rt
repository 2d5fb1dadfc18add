use crate::sites::LinkKind;

/// What the template of an operation needs from the rest of the program, so that its words can be
/// computed without a search.
#[derive(Clone, Copy)]
pub struct Setting {
    /// The address of the operation's first word.
    pub here: u64,
    /// The address of the first word of the operation to which it jumps.
    pub to: u64,
    /// The entry of the function that it calls or starts.
    pub entry: u32,
    /// The address of the global or table that it names.
    pub address: u32,
    /// The size in words of the array, or the number of members of the table, that it names.
    pub count: u32,
    /// The link kind of its site.
    pub kind: LinkKind,
}
