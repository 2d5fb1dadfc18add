// The instructions that load and store at an index, as lists.

ghost use Rattle.std.specs.Prelude.{◌≡◌, ℕ, ◌+◌, ◌<◌, ◌≤◌, List, [], ◌∷◌, ◌++◌, length, map, pos};
ghost use Rattle.rv_code.specs.declared.instructions.Instr.{Instr};
ghost use Rattle.flat_code.specs.declared.operations.Op.{Op};
ghost use Rattle.stack_certificate.specs.Fits.{checked};
ghost use Rattle.stack_certificate.specs.Parts as parts;
ghost use Rattle.stack_certificate.specs.Places.{HavePlaces};
ghost use Rattle.stack_certificate.specs.Registers.{t0, t1};
ghost use Rattle.stack_certificate.specs.Templates.{row};

use crate::functions::FunctionFact;
use crate::instruction_lists::InstructionList;
use crate::settings::Setting;
use crate::{parts, slots};
use rv_code::{Instr, Register, ShiftCount};

// slli t0, t0, 2
fn times_four() -> Option<Instr>
    ensures { result ≡ checked (Instr.Slli t0 t0 (pos 2)) }
{
    parts::whole(&Instr::Slli {
        rd: Register::T0,
        rs1: Register::T0,
        imm: ShiftCount::new(2),
    })
}

// add t0, t0, base
fn add_base(base: Register) -> Option<Instr>
    ensures { result ≡ checked (Instr.Add t0 t0 base) }
{
    parts::whole(&Instr::Add {
        rd: Register::T0,
        rs1: Register::T0,
        rs2: base,
    })
}

// Loads the word of a variable at an index, into d.
pub(crate) fn load_local(
    fact: &FunctionFact,
    setting: &Setting,
    sizes: &[u32],
    d: u32,
    a: u32,
    i: u32,
) -> InstructionList
    requires places { HavePlaces (length fact.now.places) (Op.LoadLocal d a i) }
    requires sizes { length sizes.now ≡ length fact.now.places }
    ensures { result ≡ map checked (row fact.now sizes.now setting.now (Op.LoadLocal d a i)) }
{
    let mut list = InstructionList::new();
    parts::guard(&mut list, fact, i, sizes[a as usize], 1);
    list.push(times_four());
    list.push(add_base(Register::SP));
    list.push(slots::load_word(Register::T0, Register::T0, parts::place(fact, a)));
    list.push(parts::store(fact, Register::T0, d));
    list
}

// Stores a word in a variable at an index.
pub(crate) fn store_local(
    fact: &FunctionFact,
    setting: &Setting,
    sizes: &[u32],
    a: u32,
    i: u32,
    s: u32,
) -> InstructionList
    requires places { HavePlaces (length fact.now.places) (Op.StoreLocal a i s) }
    requires sizes { length sizes.now ≡ length fact.now.places }
    ensures { result ≡ map checked (row fact.now sizes.now setting.now (Op.StoreLocal a i s)) }
{
    let mut list = InstructionList::new();
    parts::guard(&mut list, fact, i, sizes[a as usize], 1);
    list.push(times_four());
    list.push(add_base(Register::SP));
    list.push(parts::load(fact, Register::T1, s));
    list.push(slots::store_word(Register::T0, Register::T1, parts::place(fact, a)));
    list
}

// The address of the word of a global or table at an index, in t0.
pub(crate) fn element(
    list: &mut InstructionList,
    fact: &FunctionFact,
    setting: &Setting,
    i: u32,
    kind: u32,
)
    requires room { length list.old + 11 ≤ 32 }
    requires index { i < length fact.now.places }
    requires small { kind < 2048 }
    ensures { list.new ≡ list.old ++ map checked (parts.guard fact.now i setting.now.count kind ++ (Instr.Slli t0 t0 (pos 2) ∷ parts.li t1 setting.now.address ++ (Instr.Add t0 t0 t1 ∷ []))) }
{
    parts::guard(list, fact, i, setting.count, kind);
    list.push(times_four());
    parts::li(list, Register::T1, setting.address);
    list.push(add_base(Register::T1));
}

// Loads the word of a global at an index, into d.
pub(crate) fn load_array(fact: &FunctionFact, setting: &Setting, d: u32, i: u32) -> InstructionList
    requires d { d < length fact.now.places }
    requires i { i < length fact.now.places }
    ensures { (sizes : List ℕ) (a : ℕ) → result ≡ map checked (row fact.now sizes setting.now (Op.LoadArray d a i)) }
{
    let mut list = InstructionList::new();
    element(&mut list, fact, setting, i, 1);
    list.push(slots::load_word(Register::T0, Register::T0, 0));
    list.push(parts::store(fact, Register::T0, d));
    list
}

// Stores a word in a global at an index.
pub(crate) fn store_array(fact: &FunctionFact, setting: &Setting, i: u32, s: u32) -> InstructionList
    requires i { i < length fact.now.places }
    requires s { s < length fact.now.places }
    ensures { (sizes : List ℕ) (a : ℕ) → result ≡ map checked (row fact.now sizes setting.now (Op.StoreArray a i s)) }
{
    let mut list = InstructionList::new();
    element(&mut list, fact, setting, i, 1);
    list.push(parts::load(fact, Register::T1, s));
    list.push(slots::store_word(Register::T0, Register::T1, 0));
    list
}
