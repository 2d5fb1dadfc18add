// Reads the files of a pair.
ghost use Rattle.std.specs.Prelude.{◌≡◌, ◌≤◌, length, MatchResult};
ghost use Rattle.command_files.specs.Loads.{AfterCertificate, IsCertificateText};
ghost use Rattle.command_outcomes.specs.Outcome.{NoMore};
ghost use Rattle.command_outcomes.specs.Steps.{IsStop};
ghost use Rattle.pair_commands.specs.Pairs.{AfterPair, IsPairText, Unread};

use c_tree::Program;
use command_files::{read_certificate_bytes, read_image_bytes, read_source};
use command_outcomes::Stop;
use stack_certificate::Certificate;
use stack_image::Image;
use std::alloc::Global;

/// A program with an image and a certificate, as read from files.
#[derive(Drop)]
pub struct ReadPair {
    /// The program.
    pub program: Program,
    /// The image.
    pub image: Image,
    /// The certificate.
    pub certificate: Certificate,
}

/// Reads the bytes of a source, an image and a certificate, in this order.
pub(crate) fn read_pair(
    alloc: Global,
    source: &[u8],
    image: &[u8],
    certificate: &[u8],
) -> Result<ReadPair, Stop>
    requires { length source.now ≤ 1048576 }
    ensures { MatchResult result (IsPairText source.now image.now certificate.now)
        (IsStop (AfterPair source.now image.now certificate.now Unread)) }
{
    let program = read_source(alloc, source)?;
    match read_image_bytes(alloc, image) {
        Ok(image) => with_certificate(alloc, program, image, certificate),
        Err(stop) => {
            drop(program);
            Err(stop)
        }
    }
}

/// Returns a program and an image with the certificate that is read from these bytes.
fn with_certificate(
    alloc: Global,
    program: Program,
    image: Image,
    certificate: &[u8],
) -> Result<ReadPair, Stop>
    ensures { MatchResult result
        (λ pair. (pair.program ≡ program) × (pair.image ≡ image)
        × IsCertificateText certificate.now pair.certificate)
        (IsStop (AfterCertificate certificate.now NoMore)) }
{
    match read_certificate_bytes(alloc, certificate) {
        Ok(certificate) => Ok(ReadPair {
            program,
            image,
            certificate,
        }),
        Err(stop) => {
            drop(program);
            drop(image);
            Err(stop)
        }
    }
}
