ghost use Rattle.std.specs.Prelude.{◌≡◌, ℕ, ◌<◌, length, map};
ghost use Rattle.c_tree.specs.ProgramView.{program_tree};
ghost use Rattle.rv_code.specs.Decoding.{decoding};
ghost use Rattle.decoded_code.specs.Ready.{AreReady};
ghost use Rattle.flat_code.specs.ProgramView.{program_code};
ghost use Rattle.certificate_rules.specs.Validity.{IsValid};
ghost use Rattle.c_lower.specs.ProgramCode.{lowered};
ghost use Rattle.accepted_pairs.specs.Accepting.{accepted_tree, Accepts};
ghost use Rattle.accepted_pairs.specs.CodeLists.{AreCodeLists, StandsIn};
ghost use Rattle.accepted_pairs.specs.Held.{AreWordsBefore};

use crate::code_lists::CodeLists;
use c_tree::Program;
use decoded_code::Ready;
use flat_code::FlatProgram;
use rv_code::Instr;
use stack_certificate::Certificate;
use stack_image::{CODE_START, Image};
use std::marker::Model;

/// A program with an image and a certificate that are valid for it: every rule of the checker holds for them and the
/// program's flat code, which is stored too, with the decoded words of the image's code. Contracts see the program,
/// the image and the certificate.
#[derive(Drop)]
pub struct Accepted {
    program: Program,
    image: Image,
    certificate: Certificate,
    flat: FlatProgram,
    lists: CodeLists,
}

impl Model for Accepted {
    ghost use Rattle.std.specs.Prelude.{◌≡◌};
    ghost use Rattle.c_tree.specs.ProgramView.{program_tree};
    ghost use Rattle.flat_code.specs.ProgramView.{program_code};
    ghost use Rattle.certificate_rules.specs.Validity.{IsValid};
    ghost use Rattle.c_lower.specs.ProgramCode.{lowered};
    ghost use Rattle.accepted_pairs.specs.Acceptance.{Acceptance};
    ghost use Rattle.accepted_pairs.specs.CodeLists.{AreCodeLists};
    ghost use Rattle.std.specs.Coded.{codes};
    ghost use Rattle.c_tree.specs.contracts.programs.Program as whole;

    ghost Value = { Acceptance };

    ghost coded = { Prim.hlevel (codes, whole.the_row.coded) };

    ghost view = { λ a. record { program = a.program; image = a.image; certificate = a.certificate } };

    ghost invariant = { λ a. (program_code a.flat ≡ lowered (program_tree a.program)) × IsValid (lowered (program_tree a.program)) a.image a.certificate × AreCodeLists (lowered (program_tree a.program)) a.image a.certificate a.lists };
}

impl Accepted {
    /// Returns the program with the image and the certificate, which are valid for it, its flat code and the lists of
    /// the image's code. It doesn't allocate.
    pub fn new(
        program: Program,
        image: Image,
        certificate: Certificate,
        flat: FlatProgram,
        lists: CodeLists,
    ) -> Accepted
        requires lowers { program_code flat ≡ lowered (program_tree program) }
        requires valid { IsValid (lowered (program_tree program)) image certificate }
        requires lists { AreCodeLists (lowered (program_tree program)) image certificate lists }
        ensures { Accepts result program image certificate }
    {
        Accepted {
            program,
            image,
            certificate,
            flat,
            lists,
        }
    }

    /// Law: the rules hold for program, image and certificate. It has no effect at run time.
    pub fn is_valid(&self)
        ensures { IsValid (lowered (accepted_tree self.now)) self.now.image self.now.certificate }
    {
        // For the prover alone: the invariant is known once a field is read.
        let _words = self.image.code.len();
    }

    /// Returns the program.
    pub fn program(&self) -> &Program
        ensures { program_tree result.now ≡ accepted_tree self.now }
    {
        &self.program
    }

    /// Returns the image, which is valid for the program with the certificate.
    pub fn image(&self) -> &Image
        ensures value { result.now ≡ self.now.image }
        ensures valid { IsValid (lowered (accepted_tree self.now)) self.now.image self.now.certificate }
    {
        &self.image
    }

    /// Returns the certificate.
    pub fn certificate(&self) -> &Certificate
        ensures { result.now ≡ self.now.certificate }
    {
        &self.certificate
    }

    /// Returns the flat code of the program.
    pub fn flat(&self) -> &FlatProgram
        ensures { program_code result.now ≡ lowered (accepted_tree self.now) }
    {
        &self.flat
    }

    /// Returns the instruction of each word of the image's code, and `None` for a word that isn't an instruction.
    pub fn instrs(&self) -> &[Option<Instr>]
        ensures { result.now ≡ map decoding self.now.image.code }
    {
        self.lists.instrs.as_slice()
    }

    /// Returns the ready operation of each word of the image's code.
    pub fn ready(&self) -> &[Ready]
        ensures { AreReady self.now.image.code (length self.now.image.code) result.now }
    {
        self.lists.ready.as_slice()
    }

    /// Returns the function whose words contain an address, in time that doesn't depend on the program.
    pub fn function_at(&self, address: u32) -> u32
        requires { (f : ℕ) × StandsIn self.now.certificate address f }
        ensures { StandsIn self.now.certificate address result }
    {
        self.lists.functions[((address - CODE_START) / 4) as usize]
    }

    /// Returns the number of words of a function before each of its operations, and last, before its end.
    pub fn words_before(&self, function: u32) -> &[u64]
        requires { function < length (lowered (accepted_tree self.now)).functions }
        ensures { AreWordsBefore (lowered (accepted_tree self.now)) self.now.certificate function result.now }
    {
        self.lists.before[function as usize].as_slice()
    }
}
