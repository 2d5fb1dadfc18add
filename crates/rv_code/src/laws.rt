ghost use Rattle.std.specs.Prelude.{◌≡◌, ℕ, ◌<◌, ◌^◌, Some};
ghost use Rattle.rv_code.specs.Decoding.{decoding, FitsRow};
ghost use Rattle.rv_code.specs.Operands.{IsInRange};
ghost use Rattle.rv_code.specs.Table.{encoding};
ghost use Rattle.rv_code.specs.declared.instructions.Instr.{Instr};

/// Law: the word of an instruction decodes to it, an instruction that a word decodes to has that word, a
/// word has 32 bits, and different instructions have different words. It has no effect at run time.
pub fn table_laws()
    ensures decodes { (instr : Instr) → IsInRange instr → decoding (encoding instr) ≡ Some instr }
    ensures encodes { (word : ℕ) → word < 2 ^ 32 → FitsRow word (decoding word) }
    ensures width { (instr : Instr) → IsInRange instr → encoding instr < 2 ^ 32 }
    ensures distinct { (i j : Instr) → IsInRange i → IsInRange j → encoding i ≡ encoding j → i ≡ j }
{}
