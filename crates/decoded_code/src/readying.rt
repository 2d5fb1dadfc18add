ghost use Rattle.std.specs.Prelude.{◌≡◌, ℕ, Option, Some, IfSome};
ghost use Rattle.cap_word.specs.Word as word;
ghost use Rattle.decoded_code.specs.Ready.{IsReadyAt, place_at, ready_effect};
ghost use Rattle.rv_code.specs.declared.instructions.Instr.{Instr};
ghost use Rattle.rv_code.specs.declared.instructions.Instr.TheVariants as instr;
ghost use Rattle.rv_machine.specs.Effect.{effect, upper};
ghost use Rattle.rv_machine.specs.Rows.{Machine, relative};

use crate::ready::{Kind, Ready};
use cap_word::add;
use rv_code::{BranchOffset, Immediate, Instr, JumpOffset, Register, ShiftCount, UpperImmediate};
use stack_image::CODE_START;

// The register in an operation that writes none.
const UNWRITTEN: u8 = 1;

// The operation for the decoded word at a place.
pub(crate) fn ready_at(place: u32, decoded: Option<Instr>) -> Ready
    ensures { IsReadyAt result place decoded }
{
    match decoded {
        Some(instr) => ready_of(place, instr),
        None => other(),
    }
}

// The operation for an instruction at a place.
fn ready_of(place: u32, instr: Instr) -> Ready
    ensures { IsReadyAt result place (Some instr) }
{
    match instr {
        Instr::Lui { rd, imm } => writing(
            Kind::Lui,
            rd,
            Register::ZERO,
            Register::ZERO,
            upper_word(imm),
        ),
        Instr::Addi { rd, rs1, imm } => writing(Kind::Addi, rd, rs1, Register::ZERO, constant(imm)),
        Instr::Sltiu { rd, rs1, imm } => writing(
            Kind::Sltiu,
            rd,
            rs1,
            Register::ZERO,
            constant(imm),
        ),
        Instr::Xori { rd, rs1, imm } => writing(Kind::Xori, rd, rs1, Register::ZERO, constant(imm)),
        Instr::Slli { rd, rs1, imm } => writing(Kind::Slli, rd, rs1, Register::ZERO, count(imm)),
        Instr::Add { rd, rs1, rs2 } => writing(Kind::Add, rd, rs1, rs2, 0),
        Instr::Sub { rd, rs1, rs2 } => writing(Kind::Sub, rd, rs1, rs2, 0),
        Instr::Sll { rd, rs1, rs2 } => writing(Kind::Sll, rd, rs1, rs2, 0),
        Instr::Slt { rd, rs1, rs2 } => writing(Kind::Slt, rd, rs1, rs2, 0),
        Instr::Sltu { rd, rs1, rs2 } => writing(Kind::Sltu, rd, rs1, rs2, 0),
        Instr::Xor { rd, rs1, rs2 } => writing(Kind::Xor, rd, rs1, rs2, 0),
        Instr::Sra { rd, rs1, rs2 } => writing(Kind::Sra, rd, rs1, rs2, 0),
        Instr::Or { rd, rs1, rs2 } => writing(Kind::Or, rd, rs1, rs2, 0),
        Instr::And { rd, rs1, rs2 } => writing(Kind::And, rd, rs1, rs2, 0),
        Instr::Mul { rd, rs1, rs2 } => writing(Kind::Mul, rd, rs1, rs2, 0),
        Instr::Div { rd, rs1, rs2 } => writing(Kind::Div, rd, rs1, rs2, 0),
        Instr::Rem { rd, rs1, rs2 } => writing(Kind::Rem, rd, rs1, rs2, 0),
        Instr::Lw { rd, rs1, imm } => writing(Kind::Lw, rd, rs1, Register::ZERO, constant(imm)),
        Instr::Sw { rs1, rs2, imm } => reading(Kind::Sw, rs1, rs2, constant(imm)),
        Instr::Jal { rd, imm } => jump_of(place, rd, imm),
        Instr::Jalr { rd, rs1, imm } => jump(Kind::JumpTo, Kind::CallTo, rd, rs1, constant(imm)),
        Instr::Bne { rs1, rs2, imm } => branch_of(place, Kind::Bne, rs1, rs2, imm),
        Instr::Bltu { rs1, rs2, imm } => branch_of(place, Kind::Bltu, rs1, rs2, imm),
        _ => other(),
    }
}

// An operation that is left to the machine's step.
fn other() -> Ready
    ensures { (place : ℕ) (found : Option Instr) → IsReadyAt result place found }
{
    Ready {
        kind: Kind::Other,
        rd: UNWRITTEN,
        rs1: 0,
        rs2: 0,
        imm: 0,
    }
}

// An operation that writes a register; one that would write register 0 is left to the machine's step.
fn writing(kind: Kind, rd: Register, rs1: Register, rs2: Register, imm: u32) -> Ready
    ensures { (place : ℕ) (instr : Instr) → ((m : Machine) → m.pc ≡ place → IfSome (ready_effect (record { kind = kind; rd = rd; rs1 = rs1; rs2 = rs2; imm = imm }) m) (λ outcome. effect instr m ≡ outcome)) → IsReadyAt result place (Some instr) }
{
    if rd.number() == 0 {
        return other();
    }
    Ready {
        kind,
        rd: rd.number() as u8,
        rs1: rs1.number() as u8,
        rs2: rs2.number() as u8,
        imm,
    }
}

// An operation that writes no register.
fn reading(kind: Kind, rs1: Register, rs2: Register, imm: u32) -> Ready
    ensures { (place : ℕ) (instr : Instr) → ((m : Machine) → m.pc ≡ place → IfSome (ready_effect (record { kind = kind; rd = 1; rs1 = rs1; rs2 = rs2; imm = imm }) m) (λ outcome. effect instr m ≡ outcome)) → IsReadyAt result place (Some instr) }
{
    Ready {
        kind,
        rd: UNWRITTEN,
        rs1: rs1.number() as u8,
        rs2: rs2.number() as u8,
        imm,
    }
}

// A jump that sets a register to the next address, or none if the register is 0.
fn jump(jumps: Kind, calls: Kind, rd: Register, rs1: Register, imm: u32) -> Ready
    ensures { (place : ℕ) (instr : Instr) →
        (rd ≡ 0 → (m : Machine) → m.pc ≡ place → IfSome (ready_effect (record { kind = jumps; rd = 1; rs1 = rs1; rs2 = 0; imm = imm }) m) (λ outcome. effect instr m ≡ outcome)) →
        ((m : Machine) → m.pc ≡ place → IfSome (ready_effect (record { kind = calls; rd = rd; rs1 = rs1; rs2 = 0; imm = imm }) m) (λ outcome. effect instr m ≡ outcome)) →
        IsReadyAt result place (Some instr) }
{
    if rd.number() == 0 {
        reading(jumps, rs1, Register::ZERO, imm)
    } else {
        writing(calls, rd, rs1, Register::ZERO, imm)
    }
}

// JAL at a place. One whose target is before the code or between two words is left to the machine's step.
fn jump_of(place: u32, rd: Register, imm: JumpOffset) -> Ready
    ensures { IsReadyAt result place (Some (instr.Jal rd imm)) }
{
    match index_of(add(place, jump_offset(imm))) {
        Some(index) => jump(Kind::Jump, Kind::Call, rd, Register::ZERO, index),
        None => other(),
    }
}

// A branch of a kind at a place. One whose target is before the code or between two words is left to the machine's
// step.
fn branch_of(place: u32, kind: Kind, rs1: Register, rs2: Register, imm: BranchOffset) -> Ready
    ensures { (instr : Instr) →
        ((m : Machine) (at : ℕ) → m.pc ≡ place → place_at at ≡ relative m imm →
        IfSome (ready_effect (record { kind = kind; rd = 1; rs1 = rs1; rs2 = rs2; imm = at }) m) (λ outcome. effect instr m ≡ outcome)) →
        IsReadyAt result place (Some instr) }
{
    match index_of(add(place, branch_offset(imm))) {
        Some(index) => reading(kind, rs1, rs2, index),
        None => other(),
    }
}

// The index of the word at a place; `None` before the code and between two words.
fn index_of(place: u32) -> Option<u32>
    ensures { IfSome result (λ index. place_at index ≡ place) }
{
    if place % 4 == 0 && place >= CODE_START {
        Some((place - CODE_START) / 4)
    } else {
        None
    }
}

// The word of an immediate.
#[tactic(auto, unfolding(cap_word::specs::Word::word_of))]
fn constant(imm: Immediate) -> u32
    ensures { result ≡ word.word_of imm }
{
    imm.value().cast_unsigned()
}

// The word of a shift count.
#[tactic(auto, unfolding(cap_word::specs::Word::word_of))]
fn count(imm: ShiftCount) -> u32
    ensures { result ≡ word.word_of imm }
{
    imm.value().cast_unsigned()
}

// The word of the offset of a jump.
#[tactic(auto, unfolding(cap_word::specs::Word::word_of))]
fn jump_offset(imm: JumpOffset) -> u32
    ensures { result ≡ word.word_of imm }
{
    imm.value().cast_unsigned()
}

// The word of the offset of a branch.
#[tactic(auto, unfolding(cap_word::specs::Word::word_of))]
fn branch_offset(imm: BranchOffset) -> u32
    ensures { result ≡ word.word_of imm }
{
    imm.value().cast_unsigned()
}

// The value that LUI places.
#[tactic(auto, unfolding(cap_word::specs::Word::word_of))]
fn upper_word(imm: UpperImmediate) -> u32
    ensures { result ≡ upper imm }
{
    (imm.value() as u32) << 12
}
