// The files that commands load.
ghost use Rattle.std.specs.Prelude.{◌≡◌};
ghost use Rattle.command_outcomes.specs.CauseLines.{document_name, most_bytes};

/// A file that a command loads.
#[derive(Clone, Copy)]
pub enum Document {
    /// The text of a program.
    Source,
    /// The image of a program.
    Image,
    /// The certificate of an image.
    Certificate,
    /// The log of a run.
    Log,
}

impl Document {
    /// Returns the name of the file in refusals.
    pub(crate) fn name(self) -> &'static [u8]
        ensures { result.now ≡ document_name self }
    {
        match self {
            Document::Source => b"source",
            Document::Image => b"image",
            Document::Certificate => b"certificate",
            Document::Log => b"log",
        }
    }

    /// Returns the maximum size of the file in bytes.
    pub fn most_bytes(self) -> u32
        ensures { result ≡ most_bytes self }
    {
        match self {
            Document::Source => 1_048_576,
            Document::Image => 2_097_152,
            Document::Certificate => 8_388_608,
            Document::Log => 67_108_864,
        }
    }
}
