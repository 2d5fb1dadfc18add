ghost use Rattle.std.specs.Prelude.{◌≡◌, ◌+◌, ◌<◌, ℕ, Some, length};
ghost use Rattle.c_lower.specs.ProgramCode.{lowered};
ghost use Rattle.c_tree.specs.Trees.{ProgramTree};
ghost use Rattle.c_tree.specs.WellScoped.{IsWellScoped};
ghost use Rattle.certificate_rules.specs.Validity.{IsValid};
ghost use Rattle.flat_code.specs.Codes.{FlatCode, function_at, operation_at};
ghost use Rattle.flat_code.specs.WellFormed.{IsWellFormed};
ghost use Rattle.flat_code.specs.declared.operations.Op.{Op};
ghost use Rattle.machine_world.specs.Rests.{ecall_word};
ghost use Rattle.segment_laws.specs.Zeroes.{ZeroesSome};
ghost use Rattle.stack_certificate.specs.Certificates.{fact_at};
ghost use Rattle.stack_certificate.specs.declared.certificates.Certificate.{Certificate};
ghost use Rattle.stack_image.specs.declared.images.Image.{Image};

/// Laws: in the flat code of a well-scoped program, each array that is set to zeros has a word, and an operation of its
/// function follows each modelled call and each start of a thread. With a valid pair, the code is well formed, and no
/// two functions have the same entry.
pub fn lowered_facts_law()
    ensures zeroes { (program : ProgramTree) → IsWellScoped program → ZeroesSome (lowered program) }
    ensures follows { (program : ProgramTree) → IsWellScoped program → (f i word : ℕ) (op : Op) → f < length (lowered program).functions → operation_at (lowered program) f i ≡ Some op → ecall_word op ≡ Some word →
        i + 1 < length (function_at (lowered program) f).ops }
    ensures formed { (program : ProgramTree) (image : Image) (certificate : Certificate) → IsWellScoped program → IsValid (lowered program) image certificate → IsWellFormed (lowered program) }
    ensures entries { (code : FlatCode) (image : Image) (certificate : Certificate) (f g : ℕ) → IsValid code image certificate → f < length code.functions → g < length code.functions →
        (fact_at certificate f).entry ≡ (fact_at certificate g).entry → f ≡ g }
{}
