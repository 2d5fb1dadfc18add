// The instructions of an operation, as a list.

ghost use Rattle.std.specs.Prelude.{◌≡◌, ℕ, ◌+◌, ◌*◌, ◌<◌, ◌≤◌, ◌^◌, All, List, [], ◌∷◌, ◌++◌, length, map, pos, negsuc, slice_index, Option, Some, None};
ghost use Rattle.rv_code.specs.declared.instructions.Instr.{Instr};
ghost use Rattle.flat_code.specs.declared.operations.Op.{Op};
ghost use Rattle.stack_certificate.specs.Fits.{checked};
ghost use Rattle.stack_certificate.specs.Parts as parts;
ghost use Rattle.stack_certificate.specs.Places.{HasPlace, HavePlaces, IsBounded};
ghost use Rattle.stack_certificate.specs.Registers.{zero_, t0, t1};
ghost use Rattle.stack_certificate.specs.Templates.{row};

use crate::functions::FunctionFact;
use crate::instruction_lists::InstructionList;
use crate::settings::Setting;
use crate::{calls, elements, parts, slots};
use flat_code::{BinOp, Op};
use rv_code::{BranchOffset, Immediate, Instr, Register};

// li t0, value; sw t0, [d]
fn constant(fact: &FunctionFact, d: u32, value: u32) -> InstructionList
    requires { d < length fact.now.places }
    ensures { result ≡ map checked (parts.li t0 value ++ (parts.store fact.now t0 d ∷ [])) }
{
    let mut list = InstructionList::new();
    parts::li(&mut list, Register::T0, value);
    list.push(parts::store(fact, Register::T0, d));
    list
}

// lw t0, [s]; sw t0, [d]
fn copy(fact: &FunctionFact, d: u32, s: u32) -> InstructionList
    requires d { d < length fact.now.places }
    requires s { s < length fact.now.places }
    ensures { result ≡ map checked (parts.load fact.now t0 s ∷ parts.store fact.now t0 d ∷ []) }
{
    let mut list = InstructionList::new();
    list.push(parts::load(fact, Register::T0, s));
    list.push(parts::store(fact, Register::T0, d));
    list
}

// lw t0, [s]; an instruction on t0; sw t0, [d]
fn unary(fact: &FunctionFact, d: u32, s: u32, instr: &Instr) -> InstructionList
    requires d { d < length fact.now.places }
    requires s { s < length fact.now.places }
    ensures { result ≡ map checked (parts.load fact.now t0 s ∷ instr.now ∷ parts.store fact.now t0 d ∷ []) }
{
    let mut list = InstructionList::new();
    list.push(parts::load(fact, Register::T0, s));
    list.push(parts::whole(instr));
    list.push(parts::store(fact, Register::T0, d));
    list
}

// lw t0, [a]; lw t1, [b]; middle; sw t0, [d]
fn binary(fact: &FunctionFact, op: BinOp, d: u32, a: u32, b: u32) -> InstructionList
    requires d { d < length fact.now.places }
    requires a { a < length fact.now.places }
    requires b { b < length fact.now.places }
    ensures { result ≡ map checked (parts.load fact.now t0 a ∷ parts.load fact.now t1 b ∷ parts.middle op ++ (parts.store fact.now t0 d ∷ [])) }
{
    let mut list = InstructionList::new();
    list.push(parts::load(fact, Register::T0, a));
    list.push(parts::load(fact, Register::T1, b));
    parts::middle(&mut list, op);
    list.push(parts::store(fact, Register::T0, d));
    list
}

// li t1, address; lw t0, 0(t1); sw t0, [d]
fn load_global(fact: &FunctionFact, address: u32, d: u32) -> InstructionList
    requires { d < length fact.now.places }
    ensures { result ≡ map checked (parts.li t1 address ++ (Instr.Lw t0 t1 (pos 0) ∷ parts.store fact.now t0 d ∷ [])) }
{
    let mut list = InstructionList::new();
    parts::li(&mut list, Register::T1, address);
    list.push(slots::load_word(Register::T0, Register::T1, 0));
    list.push(parts::store(fact, Register::T0, d));
    list
}

// lw t0, [s]; li t1, address; sw t0, 0(t1)
fn store_global(fact: &FunctionFact, address: u32, s: u32) -> InstructionList
    requires { s < length fact.now.places }
    ensures { result ≡ map checked (parts.load fact.now t0 s ∷ parts.li t1 address ++ (Instr.Sw t1 t0 (pos 0) ∷ [])) }
{
    let mut list = InstructionList::new();
    list.push(parts::load(fact, Register::T0, s));
    parts::li(&mut list, Register::T1, address);
    list.push(slots::store_word(Register::T1, Register::T0, 0));
    list
}

// jal x0, to
fn jump(setting: &Setting) -> InstructionList
    requires here { setting.now.here < 2 ^ 59 }
    requires to { setting.now.to < 2 ^ 60 }
    ensures { result ≡ map checked (parts.jump zero_ setting.now.to setting.now.here ∷ []) }
{
    let mut list = InstructionList::new();
    list.push(slots::jump(Register::ZERO, setting.to, setting.here));
    list
}

// lw t0, [s]; bne t0, x0, +8; jal x0, to
fn jump_zero(fact: &FunctionFact, setting: &Setting, s: u32) -> InstructionList
    requires s { s < length fact.now.places }
    requires here { setting.now.here < 2 ^ 59 }
    requires to { setting.now.to < 2 ^ 60 }
    ensures { result ≡ map checked (parts.load fact.now t0 s ∷ Instr.Bne t0 zero_ (pos 8) ∷ parts.jump zero_ setting.now.to (setting.now.here + 8) ∷ []) }
{
    let mut list = InstructionList::new();
    list.push(parts::load(fact, Register::T0, s));
    list.push(parts::whole(&Instr::Bne {
        rs1: Register::T0,
        rs2: Register::ZERO,
        imm: BranchOffset::new(8),
    }));
    list.push(slots::jump(Register::ZERO, setting.to, setting.here + 8));
    list
}

// The instructions of an operation: its row of the table.
pub(crate) fn row(fact: &FunctionFact, sizes: &[u32], setting: &Setting, op: &Op) -> InstructionList
    requires places { HavePlaces (length fact.now.places) op.now }
    requires sizes { length sizes.now ≡ length fact.now.places }
    requires bounded { IsBounded op.now }
    requires here { setting.now.here < 2 ^ 58 }
    requires to { setting.now.to < 2 ^ 60 }
    ensures { result ≡ map checked (row fact.now sizes.now setting.now op.now) }
{
    match op {
        Op::Const { d, value } => constant(fact, *d, *value),
        Op::Copy { d, s } => copy(fact, *d, *s),
        Op::Neg { d, s } => unary(fact, *d, *s, &negate()),
        Op::Not { d, s } => unary(fact, *d, *s, &complement()),
        Op::Flip { d, s } => unary(fact, *d, *s, &is_zero()),
        Op::Bin { op, d, a, b } => binary(fact, *op, *d, *a, *b),
        Op::Zero { .. } => unreachable!(),
        Op::LoadGlobal { d, .. } => load_global(fact, setting.address, *d),
        Op::StoreGlobal { s, .. } => store_global(fact, setting.address, *s),
        Op::LoadLocal { d, a, i } => elements::load_local(fact, setting, sizes, *d, *a, *i),
        Op::LoadArray { d, i, .. } => elements::load_array(fact, setting, *d, *i),
        Op::StoreLocal { a, i, s } => elements::store_local(fact, setting, sizes, *a, *i, *s),
        Op::StoreArray { i, s, .. } => elements::store_array(fact, setting, *i, *s),
        Op::Jump { .. } => jump(setting),
        Op::JumpZero { s, .. } => jump_zero(fact, setting, *s),
        Op::Call { d, args, .. } => calls::call(fact, setting, *d, args.as_slice()),
        Op::CallTable { d, i, s, .. } => calls::call_table(fact, setting, *d, *i, *s),
        Op::Model { d, n, args, .. } => calls::model(fact, *d, *n, args.as_slice()),
        Op::Spawn { d, s, .. } => calls::spawn(fact, setting, *d, *s),
        Op::Return { s } => calls::returns(fact, *s),
    }
}

// sub t0, x0, t0
fn negate() -> Instr
    ensures { result ≡ Instr.Sub t0 zero_ t0 }
{
    Instr::Sub {
        rd: Register::T0,
        rs1: Register::ZERO,
        rs2: Register::T0,
    }
}

// xori t0, t0, -1
fn complement() -> Instr
    ensures { result ≡ Instr.Xori t0 t0 (negsuc 0) }
{
    Instr::Xori {
        rd: Register::T0,
        rs1: Register::T0,
        imm: Immediate::new(-1),
    }
}

// sltiu t0, t0, 1
fn is_zero() -> Instr
    ensures { result ≡ Instr.Sltiu t0 t0 (pos 1) }
{
    Instr::Sltiu {
        rd: Register::T0,
        rs1: Register::T0,
        imm: Immediate::new(1),
    }
}
