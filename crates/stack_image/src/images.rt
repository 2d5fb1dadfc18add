use cap_word::Words;

/// The address of the first word of the code.
pub const CODE_START: u32 = 0x1000;

/// What the machine is started from.
#[derive(Drop, PartialEq, Eq)]
pub struct Image {
    /// The instruction words, from the start of the code.
    pub code: Words,
    /// The initial words of the globals, in order of declaration.
    pub globals: Words,
    /// The words of the tables, in order of declaration.
    pub tables: Words,
    /// The address of the first word of each function, in order of numbers.
    pub entries: Words,
}
