// The parts of templates, each appended to a list of instructions.

ghost use Rattle.std.specs.Prelude.{◌≡◌, ◌+◌, ◌<◌, ◌≤◌, ◌^◌, All, [], ◌∷◌, ◌++◌, length, map, option_to_list, pos, slice_index};
ghost use Rattle.rv_code.specs.declared.instructions.Instr.{Instr};
ghost use Rattle.stack_certificate.specs.Fits.{checked};
ghost use Rattle.stack_certificate.specs.Parts as parts;
ghost use Rattle.stack_certificate.specs.Places.{HasPlace, IsNear};
ghost use Rattle.stack_certificate.specs.Registers.{zero_, a0};
ghost use Rattle.stack_certificate.specs.declared.sites.LinkKind.{LinkKind};

use crate::functions::FunctionFact;
use crate::instruction_lists::InstructionList;
use crate::run_time_calls::{LINK_NUMBER, TRAP_NUMBER, UNLINK_NUMBER};
use crate::sites::LinkKind;
use crate::slots;
use flat_code::BinOp;
use rv_code::{
    BranchOffset, Immediate, Instr, JumpOffset, Register, ShiftCount, UpperImmediate, encode,
};

// The number of a0, the register of the first argument.
const A0: u32 = 10;

// An instruction, whose operands keep their own ranges.
pub(crate) fn whole(instr: &Instr) -> Option<Instr>
    ensures { result ≡ checked instr.now }
{
    // For the prover alone: its contract tells the ranges of the operands.
    let _word = encode(*instr);
    Some(*instr)
}

// The place of a variable.
pub(crate) fn place(fact: &FunctionFact, x: u32) -> u32
    requires { x < length fact.now.places }
    ensures { result ≡ slice_index fact.now.places x }
{
    fact.places.as_slice()[x as usize]
}

// lw r, [x]
pub(crate) fn load(fact: &FunctionFact, r: Register, x: u32) -> Option<Instr>
    requires { x < length fact.now.places }
    ensures { result ≡ checked (parts.load fact.now r x) }
{
    slots::load_word(r, Register::SP, place(fact, x))
}

// sw r, [x]
pub(crate) fn store(fact: &FunctionFact, r: Register, x: u32) -> Option<Instr>
    requires { x < length fact.now.places }
    ensures { result ≡ checked (parts.store fact.now r x) }
{
    slots::store_word(Register::SP, r, place(fact, x))
}

// addi rd, x0, value, for a small value
fn small(rd: Register, value: u32) -> Option<Instr>
    requires { value < 2048 }
    ensures { result ≡ checked (Instr.Addi rd zero_ (pos value)) }
{
    let imm = Immediate::new(value as i32);
    whole(&Instr::Addi {
        rd,
        rs1: Register::ZERO,
        imm,
    })
}

// The upper part of a word.
fn upper_part(value: u32) -> UpperImmediate
    ensures { result ≡ pos (parts.upper_part value) }
{
    let field = ((u64::from(value) + 2048) / 4096 % 1048576) as i32;
    UpperImmediate::new(field)
}

// The lower part of a word.
fn lower_part(value: u32) -> Immediate
    ensures { result ≡ parts.lower_part value }
{
    let field = (value % 4096) as i32;
    Immediate::new(if field < 2048 { field } else { field - 4096 })
}

// li r, value
pub(crate) fn li(list: &mut InstructionList, r: Register, value: u32)
    requires { length list.old + 2 ≤ 32 }
    ensures { list.new ≡ list.old ++ map checked (parts.li r value) }
{
    list.push(whole(&Instr::Lui {
        rd: r,
        imm: upper_part(value),
    }));
    list.push(whole(&Instr::Addi {
        rd: r,
        rs1: r,
        imm: lower_part(value),
    }));
}

// addi a7, x0, n; ecall
pub(crate) fn system_call(list: &mut InstructionList, n: u32)
    requires room { length list.old + 2 ≤ 32 }
    requires small { n < 2048 }
    ensures { list.new ≡ list.old ++ map checked (parts.system_call n) }
{
    list.push(small(Register::A7, n));
    list.push(whole(&Instr::Ecall));
}

// lw t0, [i]; li t1, n; bltu t0, t1, +16; addi a0, x0, kind; addi a7, x0, 31; ecall
pub(crate) fn guard(list: &mut InstructionList, fact: &FunctionFact, i: u32, n: u32, kind: u32)
    requires room { length list.old + 7 ≤ 32 }
    requires index { i < length fact.now.places }
    requires small { kind < 2048 }
    ensures { list.new ≡ list.old ++ map checked (parts.guard fact.now i n kind) }
{
    list.push(load(fact, Register::T0, i));
    li(list, Register::T1, n);
    list.push(whole(&Instr::Bltu {
        rs1: Register::T0,
        rs2: Register::T1,
        imm: BranchOffset::new(16),
    }));
    list.push(small(Register::A0, kind));
    system_call(list, TRAP_NUMBER);
}

// The instruction that computes an operator on t0 and t1 in t0, and a second one if one isn't enough.
fn middle_instructions(op: BinOp) -> (Instr, Option<Instr>)
    ensures { parts.middle op ≡ result.0 ∷ option_to_list result.1 }
{
    let (rd, rs1, rs2) = (Register::T0, Register::T0, Register::T1);
    let (zero, one) = (Register::ZERO, Immediate::new(1));
    let turned = Instr::Slt {
        rd,
        rs1: rs2,
        rs2: rs1,
    };
    match op {
        BinOp::Add => (Instr::Add { rd, rs1, rs2 }, None),
        BinOp::Subtract => (Instr::Sub { rd, rs1, rs2 }, None),
        BinOp::Multiply => (Instr::Mul { rd, rs1, rs2 }, None),
        BinOp::Divide => (Instr::Div { rd, rs1, rs2 }, None),
        BinOp::Remainder => (Instr::Rem { rd, rs1, rs2 }, None),
        BinOp::BitAnd => (Instr::And { rd, rs1, rs2 }, None),
        BinOp::BitOr => (Instr::Or { rd, rs1, rs2 }, None),
        BinOp::BitXor => (Instr::Xor { rd, rs1, rs2 }, None),
        BinOp::ShiftLeft => (Instr::Sll { rd, rs1, rs2 }, None),
        BinOp::ShiftRight => (Instr::Sra { rd, rs1, rs2 }, None),
        BinOp::Less => (Instr::Slt { rd, rs1, rs2 }, None),
        BinOp::Greater => (turned, None),
        BinOp::LessOrEqual => (turned, Some(Instr::Xori { rd, rs1, imm: one })),
        BinOp::GreaterOrEqual => {
            let first = Instr::Slt { rd, rs1, rs2 };
            (first, Some(Instr::Xori { rd, rs1, imm: one }))
        }
        BinOp::Equal => {
            let first = Instr::Sub { rd, rs1, rs2 };
            (first, Some(Instr::Sltiu { rd, rs1, imm: one }))
        }
        BinOp::NotEqual => {
            let first = Instr::Sub { rd, rs1, rs2 };
            (
                first,
                Some(Instr::Sltu {
                    rd,
                    rs1: zero,
                    rs2: rd,
                }),
            )
        }
    }
}

// An operator on t0 and t1, in t0.
pub(crate) fn middle(list: &mut InstructionList, op: BinOp)
    requires { length list.old + 2 ≤ 32 }
    ensures { list.new ≡ list.old ++ map checked (parts.middle op) }
{
    let (first, second) = middle_instructions(op);
    list.push(whole(&first));
    if let Some(second) = second {
        list.push(whole(&second));
    }
}

// lw a0, [..]; .. for each argument
pub(crate) fn arguments(list: &mut InstructionList, fact: &FunctionFact, args: &[u32])
    requires few { length args.now ≤ 6 }
    requires room { length list.old + 6 ≤ 32 }
    requires places { All (λ x. x < length fact.now.places) args.now }
    ensures list { list.new ≡ list.old ++ map checked (parts.arguments fact.now a0 args.now) }
    ensures count { length list.new ≡ length list.old + length args.now }
{
    for (k, x) in args.iter().enumerate() {
        let register = Register::new(A0 + k as u32);
        list.push(load(fact, register, *x));
    }
}

// sw a0, [0]; .. for each parameter
pub(crate) fn saves(list: &mut InstructionList, fact: &FunctionFact, params: u32)
    requires few { params ≤ 6 }
    requires room { length list.old + 6 ≤ 32 }
    requires places { params ≤ length fact.now.places }
    ensures { list.new ≡ list.old ++ map checked (parts.saves fact.now a0 0 params) }
{
    for k in 0..params {
        let register = Register::new(A0 + k);
        list.push(store(fact, register, k));
    }
}

// sw a0, [d], if the result is used
pub(crate) fn result(list: &mut InstructionList, fact: &FunctionFact, d: Option<u32>)
    requires room { length list.old + 1 ≤ 32 }
    requires places { HasPlace (length fact.now.places) d }
    ensures { list.new ≡ list.old ++ map checked (parts.result fact.now d) }
{
    if let Some(d) = d {
        list.push(store(fact, Register::A0, d));
    }
}

// lw ra, ra(sp); addi sp, sp, frame; jalr x0, 0(ra)
pub(crate) fn epilogue(list: &mut InstructionList, fact: &FunctionFact)
    requires { length list.old + 3 ≤ 32 }
    ensures { list.new ≡ list.old ++ map checked (parts.epilogue fact.now) }
{
    list.push(slots::load_word(Register::RA, Register::SP, fact.ra));
    list.push(slots::raise_stack(fact.frame));
    list.push(whole(&Instr::Jalr {
        rd: Register::ZERO,
        rs1: Register::RA,
        imm: Immediate::new(0),
    }));
}

// A call instruction: of the function at an entry, or through t2 if there is none.
fn call_instruction(callee: Option<u64>, from: u64) -> Option<Instr>
    requires callee { IsNear callee }
    requires from { from < 2 ^ 60 }
    ensures { result ≡ checked (parts.call_instruction callee from) }
{
    match callee {
        Some(entry) => slots::jump(Register::RA, entry, from),
        None => whole(&Instr::Jalr {
            rd: Register::RA,
            rs1: Register::T2,
            imm: Immediate::new(0),
        }),
    }
}

// The transfer of a call instruction at an address.
pub(crate) fn transfer(list: &mut InstructionList, kind: LinkKind, callee: Option<u64>, here: u64)
    requires room { length list.old + 11 ≤ 32 }
    requires callee { IsNear callee }
    requires here { here < 2 ^ 59 }
    ensures { list.new ≡ list.old ++ map checked (parts.transfer kind callee here) }
{
    match kind {
        LinkKind::Plain => list.push(call_instruction(callee, here)),
        LinkKind::Linked { need } => linked(list, need, callee, here),
        LinkKind::Spawned { .. } => list.push(call_instruction(callee, here)),
    }
}

// The transfer at a linked site.
fn linked(list: &mut InstructionList, need: u32, callee: Option<u64>, here: u64)
    requires room { length list.old + 11 ≤ 32 }
    requires callee { IsNear callee }
    requires here { here < 2 ^ 59 }
    ensures { list.new ≡ list.old ++ map checked (parts.transfer (LinkKind.Linked need) callee here) }
{
    li(list, Register::T1, need);
    list.push(whole(&Instr::Sub {
        rd: Register::T0,
        rs1: Register::SP,
        rs2: Register::T1,
    }));
    list.push(whole(&Instr::Bltu {
        rs1: Register::T0,
        rs2: Register::TP,
        imm: BranchOffset::new(12),
    }));
    list.push(call_instruction(callee, here + 16));
    list.push(whole(&Instr::Jal {
        rd: Register::ZERO,
        imm: JumpOffset::new(24),
    }));
    system_call(list, LINK_NUMBER);
    list.push(call_instruction(callee, here + 32));
    system_call(list, UNLINK_NUMBER);
}
