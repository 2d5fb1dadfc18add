// The command `check`: checks a source, an image and a certificate.
ghost use Rattle.std.specs.Prelude.{ℕ, List, Option, ◌≡◌, ◌≤◌, length, MatchResult, IfOk};
ghost use Rattle.cap_io.specs.Files.{KeepsFiles};
ghost use Rattle.c_tree.specs.ProgramView.{program_tree};
ghost use Rattle.pair_commands.specs.Checks.{Checks, ChecksBytes, ChecksPair, verdict_status, verdict_line, verdict_outcome};
ghost use Rattle.command_outcomes.specs.Steps.{EndsAs, IsStatus, IsStop, IsShelfStop};
ghost use Rattle.command_outcomes.specs.Done.{Outside, outside_beside};

use crate::pairs::{ReadPair, read_pair};
use c_tree::Program;
use cap_io::{Shelf, Sink};
use certificate_check::{CheckError, check};
use command_files::load_three;
use command_outcomes::{Fault, Stop, print, put_rejected, put_text};
use stack_certificate::Certificate;
use stack_image::Image;
use std::alloc::{AllocError, Global};

/// The verdict of the checker on a pair.
#[derive(Clone, Copy)]
pub enum Verdict {
    /// Every rule holds.
    Accepted,
    /// This rule fails first, at this function and index.
    Rejected {
        /// The number of the rule, from 1 to 12.
        rule: u32,
        /// The number of the function.
        function: u32,
        /// An index, whose meaning depends on the rule.
        index: u32,
    },
}

impl Verdict {
    /// Returns the status of a command with this verdict.
    fn status(self) -> u8
        ensures { result ≡ verdict_status self }
    {
        match self {
            Verdict::Accepted => 0,
            Verdict::Rejected { .. } => 3,
        }
    }

    /// Returns the line of the verdict.
    fn line(self, alloc: Global) -> Result<Vec<u8>, AllocError>
        ensures { IfOk result (λ line. line.items ≡ verdict_line self) }
    {
        let mut line = Vec::new(alloc);
        match self {
            Verdict::Accepted => put_text(&mut line, b"accepted")?,
            Verdict::Rejected {
                rule,
                function,
                index,
            } => put_rejected(&mut line, rule, function, index)?,
        }
        line.push(b'\n')?;
        Ok(line)
    }
}

/// Does the command `check`: writes `accepted` to `out`, or the first rule that the source with its image and
/// certificate breaks. Returns status 0 or 3.
///
/// # Errors
///
/// `Refused` if a file is absent, too long or malformed. `Failed` with `Read` or `Write` only if a load or a write
/// failed, and with `Memory` if an allocation fails.
pub fn do_check<F: Shelf, K: Sink>(
    alloc: Global,
    shelf: &mut F,
    out: &mut K,
    source: &str,
    image: &str,
    certificate: &str,
) -> Result<u8, Stop>
    ensures { (left : Option (List ℕ)) (reads : ℕ) →
        let outside = outside_beside F.files F.load_faults F.store_faults left reads K.taken K.faults in
        let before : Outside = outside shelf.old out.old in
        let after : Outside = outside shelf.new out.new in
        EndsAs IsStatus (Checks before.files source.now image.now certificate.now) before after result }
{
    let verdict = check_files(alloc, shelf, source, image, certificate)?;
    match verdict.line(alloc) {
        Ok(line) => print(out, line.as_slice(), verdict.status()),
        Err(_) => Err(Stop::Failed(Fault::Memory)),
    }
}

/// Checks the files of these names.
fn check_files<F: Shelf>(
    alloc: Global,
    shelf: &mut F,
    source_name: &str,
    image_name: &str,
    certificate_name: &str,
) -> Result<Verdict, Stop>
    ensures answer { MatchResult result
        (λ verdict. Checks (F.files shelf.old) source_name.now image_name.now certificate_name.now
        (verdict_outcome verdict) × (F.load_faults shelf.new ≡ F.load_faults shelf.old))
        (IsShelfStop
        (Checks (F.files shelf.old) source_name.now image_name.now certificate_name.now)
        (F.load_faults shelf.old) (F.load_faults shelf.new)) }
    ensures files { KeepsFiles (F.files shelf.old) (F.files shelf.new) }
    ensures stores { F.store_faults shelf.new ≡ F.store_faults shelf.old }
{
    let files = load_three(alloc, shelf, source_name, image_name, certificate_name)?;
    check_bytes(
        alloc,
        files.source.as_slice(),
        files.image.as_slice(),
        files.certificate.as_slice(),
    )
}

/// Checks files of these bytes.
fn check_bytes(
    alloc: Global,
    source: &[u8],
    image: &[u8],
    certificate: &[u8],
) -> Result<Verdict, Stop>
    requires { length source.now ≤ 1048576 }
    ensures { MatchResult result (λ verdict.
        ChecksBytes source.now image.now certificate.now (verdict_outcome verdict))
        (IsStop (ChecksBytes source.now image.now certificate.now)) }
{
    let ReadPair {
        program,
        image,
        certificate,
    } = read_pair(alloc, source, image, certificate)?;
    check_pair(alloc, program, image, certificate)
}

/// Checks a program, an image and a certificate.
fn check_pair(
    alloc: Global,
    program: Program,
    image: Image,
    certificate: Certificate,
) -> Result<Verdict, Stop>
    ensures { MatchResult result (λ verdict.
        ChecksPair (program_tree program) image certificate (verdict_outcome verdict))
        (IsStop (ChecksPair (program_tree program) image certificate)) }
{
    match check(alloc, program, image, certificate) {
        Ok(accepted) => {
            drop(accepted);
            Ok(Verdict::Accepted)
        }
        Err(
            CheckError::Rejected {
                rule,
                function,
                index,
                program,
                image,
                certificate,
            },
        ) => {
            drop(program);
            drop(image);
            drop(certificate);
            Ok(Verdict::Rejected {
                rule,
                function,
                index,
            })
        }
        Err(
            CheckError::Memory {
                program,
                image,
                certificate,
            },
        ) => {
            drop(program);
            drop(image);
            drop(certificate);
            Err(Stop::Failed(Fault::Memory))
        }
    }
}
