ghost use Rattle.std.specs.Prelude.{◌≡◌, ◌^◌, ◌≤◌, IfOk, IfErr, length};
ghost use Rattle.c_lower.specs.ProgramCode.{lowered};
ghost use Rattle.c_tree.specs.ProgramView.{program_tree};
ghost use Rattle.accepted_pairs.specs.Accepting.{Accepts};
ghost use Rattle.certificate_check.specs.Refusals.{IsRefusalOf};
ghost use Rattle.certificate_rules.specs.Validity.{IsFirstFailure, IsValid};
ghost use Rattle.flat_code.specs.ProgramView.{program_code};

use crate::failures::Failure;
use crate::first::first_failure;
use accepted_pairs::{Accepted, code_lists_of};
use c_lower::lower;
use c_tree::Program;
use flat_code::FlatProgram;
use stack_certificate::Certificate;
use stack_image::Image;
use std::alloc::Global;
use std::fmt;
use thiserror::Error;

/// Why a program isn't accepted with an image and a certificate. Each variant returns the three.
#[derive(Drop, Error)]
pub enum CheckError {
    /// This rule, from 1 to 12, is the first to fail, at this function and index. The meaning of an index
    /// depends on the rule; for a rule that isn't about functions, the function is 0.
    #[error("V{rule} fails first at function {function}, index {index}")]
    Rejected {
        rule: u32,
        function: u32,
        index: u32,
        program: Program,
        image: Image,
        certificate: Certificate,
    },
    /// An allocation failed.
    #[error("out of memory")]
    Memory {
        program: Program,
        image: Image,
        certificate: Certificate,
    },
}

// Names the cause alone: the program, the image and the certificate have no short form.
impl fmt::Debug for CheckError {
    fn fmt<W: fmt::Write>(&self, f: &mut fmt::Formatter<W>) -> fmt::Result {
        match self {
            CheckError::Rejected {
                rule,
                function,
                index,
                ..
            } => {
                write!(
                    f,
                    "Rejected {{ rule: {rule}, function: {function}, index: {index}, .. }}"
                )
            }
            CheckError::Memory { .. } => write!(f, "Memory {{ .. }}"),
        }
    }
}

/// Accepts a program with an image and a certificate exactly if every rule V1 to V12 holds for them, unless an
/// allocation fails.
///
/// # Errors
///
/// `Rejected` with the first failure: the least rule, in it the least function, and in it the least index.
/// `Memory` if an allocation fails; also if the index isn't a word, which is possible only for a program too
/// large for memory.
pub fn check(
    alloc: Global,
    program: Program,
    image: Image,
    certificate: Certificate,
) -> Result<Accepted, CheckError>
    ensures accepted { IfOk result (λ accepted. Accepts accepted program image certificate) }
    ensures valid { IfOk result (λ accepted. IsValid (lowered (program_tree program)) image certificate) }
    ensures refused { IfErr result (λ error. IsRefusalOf program image certificate error) }
{
    let Ok(flat) = lower(alloc, &program) else {
        return Err(CheckError::Memory {
            program,
            image,
            certificate,
        });
    };
    match first_failure(alloc, &flat, &image, &certificate) {
        Ok(None) => accept(alloc, program, image, certificate, flat),
        Ok(Some(failure)) => {
            drop(flat);
            Err(refusal(failure, program, image, certificate))
        }
        Err(_) => {
            drop(flat);
            Err(CheckError::Memory {
                program,
                image,
                certificate,
            })
        }
    }
}

// Accepts a program with an image and a certificate that meet every rule, unless an allocation fails.
fn accept(
    alloc: Global,
    program: Program,
    image: Image,
    certificate: Certificate,
    flat: FlatProgram,
) -> Result<Accepted, CheckError>
    requires lowers { program_code flat ≡ lowered (program_tree program) }
    requires few { length (program_code flat).functions ≤ 2 ^ 32 }
    requires valid { IsValid (program_code flat) image certificate }
    ensures accepted { IfOk result (λ accepted. Accepts accepted program image certificate) }
    ensures refused { IfErr result (λ error. IsRefusalOf program image certificate error) }
{
    match code_lists_of(alloc, &flat, &image, &certificate) {
        Ok(lists) => Ok(Accepted::new(program, image, certificate, flat, lists)),
        Err(_) => {
            drop(flat);
            Err(CheckError::Memory {
                program,
                image,
                certificate,
            })
        }
    }
}

// The refusal of a program for its first failure.
fn refusal(failure: Failure, program: Program, image: Image, certificate: Certificate) -> CheckError
    requires { IsFirstFailure (lowered (program_tree program)) image certificate failure.rule failure.function failure.index }
    ensures { IsRefusalOf program image certificate result }
{
    match u32::try_from(failure.index) {
        Ok(index) => CheckError::Rejected {
            rule: failure.rule,
            function: failure.function,
            index,
            program,
            image,
            certificate,
        },
        Err(_) => CheckError::Memory {
            program,
            image,
            certificate,
        },
    }
}
