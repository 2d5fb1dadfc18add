// Faults outside a command, with their lines and statuses.
ghost use Rattle.std.specs.Prelude.{◌≡◌};
ghost use Rattle.command_outcomes.specs.FaultLines.{fault_status, fault_line};

/// A fault outside the command.
#[derive(Clone, Copy)]
pub enum Fault {
    /// A file couldn't be loaded, or the trace couldn't be read.
    Read,
    /// A file couldn't be stored, or the output couldn't be written completely.
    Write,
    /// Out of memory.
    Memory,
}

impl Fault {
    /// Returns the status of a command that ends with this fault.
    pub fn status(self) -> u8
        ensures { result ≡ fault_status self }
    {
        match self {
            Fault::Read => 6,
            Fault::Write => 7,
            Fault::Memory => 8,
        }
    }

    /// Returns the fault's line for standard error, with its line feed.
    pub fn line(self) -> &'static [u8]
        ensures { result.now ≡ fault_line self }
    {
        match self {
            Fault::Read => b"fault: read\n",
            Fault::Write => b"fault: write\n",
            Fault::Memory => b"fault: memory\n",
        }
    }
}
