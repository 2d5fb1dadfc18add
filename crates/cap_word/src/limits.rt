ghost use Rattle.std.specs.Prelude.{◌≡◌, Some};
ghost use Rattle.cap_word.specs.Limit.{name_of};

use std::fmt;

/// A quantity that exceeds its limit, of a program's text or of an image.
#[derive(Clone, Copy, Debug, PartialEq, Eq)]
pub enum Which {
    /// Functions of a program.
    Functions,
    /// Call sites of a program.
    Sites,
    /// Global words, of a program or an image.
    Globals,
    /// Table members of a program, or table words of an image.
    Tables,
    /// Declared local words of one function.
    Locals,
    /// Parameters of one function.
    Params,
    /// Code words of an image.
    Code,
    /// Entry words of an image.
    Entries,
}

impl Which {
    /// Returns the limit's name, in lower case.
    pub fn name(self) -> &'static str
        ensures { result.now ≡ name_of self }
    {
        match self {
            Which::Functions => "functions",
            Which::Sites => "sites",
            Which::Globals => "globals",
            Which::Tables => "tables",
            Which::Locals => "locals",
            Which::Params => "params",
            Which::Code => "code",
            Which::Entries => "entries",
        }
    }
}

impl fmt::Display for Which {
    ghost output = { λ which. Some (name_of which) };

    fn fmt<W: fmt::Write>(&self, f: &mut fmt::Formatter<W>) -> fmt::Result {
        f.write_str(self.name())
    }
}
