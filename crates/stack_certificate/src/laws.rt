ghost use Rattle.std.specs.Prelude.{◌≡◌, ℕ, ◌+◌, ◌*◌, List, length, Some};
ghost use Rattle.rv_code.specs.Decoding.{decoding};
ghost use Rattle.rv_code.specs.declared.instructions.Instr.{Instr};
ghost use Rattle.flat_code.specs.Codes.{FlatCode, function_at, operation_at};
ghost use Rattle.flat_code.specs.declared.operations.Op.{Op};
ghost use Rattle.stack_certificate.specs.Certificates.{fact_at};
ghost use Rattle.stack_certificate.specs.InstructionWords.{IsWordOf};
ghost use Rattle.stack_certificate.specs.Templates.{begin, end_stub, kind_of, prologue, row, size, template};
ghost use Rattle.stack_certificate.specs.declared.certificates.Certificate.{Certificate};
ghost use Rattle.stack_certificate.specs.declared.functions.FunctionFact.{FunctionFact};
ghost use Rattle.stack_certificate.specs.declared.settings.Setting.{Setting};

/// Law: a word of a template decodes to its instruction; the clauses also state the numbers of
/// instructions of the end stub, the prologue and each operation, the address of a function's first
/// operation, and that of the one after another. It has no effect at run time.
pub fn template_laws()
    ensures decodes { (instr : Instr) (word : ℕ) → IsWordOf (Some instr) (Some word) → decoding word ≡ Some instr }
    ensures stub { length end_stub ≡ 2 }
    ensures prologues { (fact : FunctionFact) (params : ℕ) → length (prologue fact params) ≡ 2 + params }
    ensures rows { (fact : FunctionFact) (sizes : List ℕ) (setting : Setting) (op : Op) → length (row fact sizes setting op) ≡ size sizes setting.kind op }
    ensures templates { (code : FlatCode) (certificate : Certificate) (f i : ℕ) (op : Op) → operation_at code f i ≡ Some op →
        length (template code certificate f i) ≡ size (function_at code f).sizes (kind_of certificate op) op }
    ensures first { (code : FlatCode) (certificate : Certificate) (f : ℕ) →
        begin code certificate f 0 ≡ (fact_at certificate f).entry + 4 * (2 + (function_at code f).params) }
    ensures next { (code : FlatCode) (certificate : Certificate) (f i : ℕ) (op : Op) → operation_at code f i ≡ Some op →
        begin code certificate f (i + 1) ≡ begin code certificate f i + 4 * size (function_at code f).sizes (kind_of certificate op) op }
{}
