// Loads the files of a command and reads them.
ghost use Rattle.std.specs.Prelude.{◌≡◌, ◌≤◌, length, MatchResult};
ghost use Rattle.cap_io.specs.Files.{KeepsFiles};
ghost use Rattle.c_tree.specs.ProgramView.{program_tree};
ghost use Rattle.command_outcomes.specs.Outcome.{NoMore};
ghost use Rattle.command_files.specs.Loads.{AfterSource, AfterImage, AfterCertificate, IsSourceText, IsImageText, IsCertificateText};
ghost use Rattle.command_outcomes.specs.Steps.{IsStop};
ghost use Rattle.command_files.specs.Loaded.{IsLoadAnswer};
ghost use Rattle.command_files.specs.Loaded.{AreLoaded};

use c_hoist::read_nested;
use c_scope::SourceError;
use c_tree::Program;
use cap_io::{Shelf, ShelfError};
use certificate_text::{CertError, read_cert};
use command_outcomes::{Cause, Document, Fault, Stop};
use stack_certificate::Certificate;
use stack_image::{Image, ImageError, read_image};
use std::alloc::Global;

/// Loads the file of this name.
///
/// # Errors
///
/// A refusal if the file doesn't exist or is too large; a fault if the load fails or memory runs out.
pub fn load<F: Shelf>(
    alloc: Global,
    shelf: &mut F,
    document: Document,
    name: &str,
) -> Result<Vec<u8>, Stop>
    ensures answer { IsLoadAnswer document (F.files shelf.old) name.now (F.load_faults shelf.old)
        (F.load_faults shelf.new) result }
    ensures files { KeepsFiles (F.files shelf.old) (F.files shelf.new) }
    ensures stores { F.store_faults shelf.new ≡ F.store_faults shelf.old }
{
    match shelf.load(alloc, name, document.most_bytes()) {
        Ok(bytes) => Ok(bytes),
        Err(ShelfError::Failed) => Err(Stop::Failed(Fault::Read)),
        Err(ShelfError::TooLong) => Err(Stop::Refused(Cause::TooLong(document))),
        Err(ShelfError::Absent) => Err(Stop::Refused(Cause::Absent(document))),
        Err(ShelfError::Memory) => Err(Stop::Failed(Fault::Memory)),
    }
}

/// The bytes of the three files of a pair.
#[derive(Drop)]
pub struct LoadedFiles {
    /// The source.
    pub source: Vec<u8>,
    /// The image.
    pub image: Vec<u8>,
    /// The certificate.
    pub certificate: Vec<u8>,
}

/// Loads the three files of these names, in this order.
pub fn load_three<F: Shelf>(
    alloc: Global,
    shelf: &mut F,
    source_name: &str,
    image_name: &str,
    certificate_name: &str,
) -> Result<LoadedFiles, Stop>
    ensures answer { AreLoaded (F.files shelf.old) source_name.now image_name.now
        certificate_name.now (F.load_faults shelf.old) (F.load_faults shelf.new) result }
    ensures files { KeepsFiles (F.files shelf.old) (F.files shelf.new) }
    ensures stores { F.store_faults shelf.new ≡ F.store_faults shelf.old }
{
    let source = load(alloc, shelf, Document::Source, source_name)?;
    let image = load(alloc, shelf, Document::Image, image_name)?;
    let certificate = load(alloc, shelf, Document::Certificate, certificate_name)?;
    Ok(LoadedFiles {
        source,
        image,
        certificate,
    })
}

/// Reads the bytes of a source as a program.
pub fn read_source(alloc: Global, source: &[u8]) -> Result<Program, Stop>
    requires { length source.now ≤ 1048576 }
    ensures { MatchResult result (λ program. IsSourceText source.now (program_tree program))
        (IsStop (AfterSource source.now NoMore)) }
{
    match read_nested(alloc, source) {
        Ok(program) => Ok(program),
        Err(SourceError::Memory) => Err(Stop::Failed(Fault::Memory)),
        Err(error) => Err(Stop::Refused(Cause::Source(error))),
    }
}

/// Reads bytes as an image.
pub fn read_image_bytes(alloc: Global, bytes: &[u8]) -> Result<Image, Stop>
    ensures { MatchResult result (IsImageText bytes.now) (IsStop (AfterImage bytes.now NoMore)) }
{
    match read_image(alloc, bytes) {
        Ok(image) => Ok(image),
        Err(ImageError::Memory) => Err(Stop::Failed(Fault::Memory)),
        Err(error) => Err(Stop::Refused(Cause::Image(error))),
    }
}

/// Reads bytes as a certificate.
pub fn read_certificate_bytes(alloc: Global, bytes: &[u8]) -> Result<Certificate, Stop>
    ensures { MatchResult result (IsCertificateText bytes.now)
        (IsStop (AfterCertificate bytes.now NoMore)) }
{
    match read_cert(alloc, bytes) {
        Ok(certificate) => Ok(certificate),
        Err(CertError::Memory) => Err(Stop::Failed(Fault::Memory)),
        Err(CertError::Line { number }) => Err(Stop::Refused(Cause::CertificateLine(number))),
    }
}
