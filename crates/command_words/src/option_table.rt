// The options of the command line, as one table, which the parser, the tests of presence and the readers of values use.
ghost use Rattle.std.specs.Prelude.{◌≡◌};
ghost use Rattle.command_words.specs.OptionTable.{long_name_of, row_of};

/// An option of the command line. Its row of the table has its name, its default and its range.
#[derive(Clone, Copy)]
pub enum CommandOption {
    /// The size of a chunk, in bytes: a multiple of 16.
    Chunk,
    /// The longest path between two checkpoints, in bytes: at most the chunk's size without the header; by default half
    /// of that, rounded down to a multiple of 16. The row has the default for the default chunk and the maximum for the
    /// largest chunk.
    MaxPath,
    /// The size of each chunk of the second size, in bytes: a multiple of 16.
    ExtraSize,
    /// The rule of choice: a word, `graph` or `stride`.
    Rule,
    /// The tickets of threads: a list.
    Tickets,
    /// The number of chunks.
    Chunks,
    /// The number of chunks of the second size.
    Extra,
    /// The number of instructions after which a run stops.
    Fuel,
    /// The maximum length of a queue.
    Backlog,
    /// The caps of resources: a list.
    Caps,
    /// The pressure at which the gate closes.
    High,
    /// The pressure at which the gate opens again, below the other.
    Low,
    /// The knee of the pressure curves, in thousandths of the cap.
    Knee,
    /// The maximum number of steps of the source that an audit takes.
    Steps,
}

/// The options of the commands that lay out a program's frames: `serve`, `build` and `graph`.
pub(crate) const PLACEMENT: [CommandOption; 2] = [CommandOption::Chunk, CommandOption::MaxPath];

/// The options that only runs take: `serve` and `run`.
pub(crate) const RUN: [CommandOption; 3] = [
    CommandOption::ExtraSize,
    CommandOption::Rule,
    CommandOption::Tickets,
];

/// The options that runs and audits take: `serve`, `run` and `audit`.
pub(crate) const SHARED: [CommandOption; 8] = [
    CommandOption::Chunks,
    CommandOption::Extra,
    CommandOption::Fuel,
    CommandOption::Backlog,
    CommandOption::Caps,
    CommandOption::High,
    CommandOption::Low,
    CommandOption::Knee,
];

/// The options that only audits take.
pub(crate) const AUDIT: [CommandOption; 1] = [CommandOption::Steps];

/// A row of the table. The least and greatest number of a list are those of each member; `--rule` takes a word, and its
/// numbers are 0.
#[derive(Clone, Copy)]
pub(crate) struct Row<'a> {
    /// The name, with its dashes.
    pub(crate) name: &'a str,
    /// The name without its dashes.
    pub(crate) long: &'a str,
    /// The number if none is given.
    pub(crate) default: u64,
    /// The least number.
    pub(crate) least: u64,
    /// The greatest number.
    pub(crate) most: u64,
}

/// A row, from the option's name without its dashes and its three numbers.
macro_rules! row {
    ($name:literal, default: $default:literal, least: $least:literal, most: $most:literal) => {
        Row {
            name: concat!("--", $name),
            long: $name,
            default: $default,
            least: $least,
            most: $most,
        }
    };
}

impl CommandOption {
    /// Returns the row of the option.
    pub(crate) fn row<'a>(self) -> Row<'a>
        ensures name { result.name.now ≡ (row_of self).name }
        ensures long { result.long.now ≡ long_name_of self }
        ensures default { result.default ≡ (row_of self).default }
        ensures least { result.least ≡ (row_of self).least }
        ensures most { result.most ≡ (row_of self).most }
    {
        match self {
            CommandOption::Chunk => row!("chunk", default: 4096, least: 64, most: 65_536),
            CommandOption::MaxPath => row!("max-path", default: 2032, least: 16, most: 65_520),
            CommandOption::ExtraSize => row!("extra-size", default: 64, least: 32, most: 65_536),
            CommandOption::Rule => row!("rule", default: 0, least: 0, most: 0),
            CommandOption::Tickets => row!("tickets", default: 1, least: 1, most: 1024),
            CommandOption::Chunks => row!("chunks", default: 1024, least: 1, most: 65_536),
            CommandOption::Extra => row!("extra", default: 0, least: 0, most: 65_536),
            CommandOption::Fuel => row!("fuel", default: 10_000_000, least: 0, most: 1_000_000_000),
            CommandOption::Backlog => row!("backlog", default: 64, least: 1, most: 4096),
            CommandOption::Caps => row!("caps", default: 0, least: 1, most: 1_000_000),
            CommandOption::High => row!("high", default: 900, least: 1, most: 1000),
            CommandOption::Low => row!("low", default: 700, least: 0, most: 999),
            CommandOption::Knee => row!("knee", default: 0, least: 0, most: 999),
            CommandOption::Steps =>
                row!("steps", default: 1_000_000_000, least: 0, most: 1_000_000_000),
        }
    }
}
