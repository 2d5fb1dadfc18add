// The instructions of calls and returns, as lists.

ghost use Rattle.std.specs.Prelude.{◌≡◌, ℕ, ◌+◌, ◌*◌, ◌<◌, ◌≤◌, ◌^◌, All, List, [], ◌∷◌, ◌++◌, length, map, pos, Option, Some, None};
ghost use Rattle.rv_code.specs.declared.instructions.Instr.{Instr};
ghost use Rattle.flat_code.specs.declared.operations.Op.{Op};
ghost use Rattle.stack_certificate.specs.Certificates.{need_of};
ghost use Rattle.stack_certificate.specs.Fits.{checked};
ghost use Rattle.stack_certificate.specs.Parts as parts;
ghost use Rattle.stack_certificate.specs.Places.{HasPlace, HavePlaces};
ghost use Rattle.stack_certificate.specs.Registers.{a0};
ghost use Rattle.stack_certificate.specs.Templates.{row};
ghost use Rattle.stack_certificate.specs.declared.settings.Setting.{Setting};

use crate::functions::FunctionFact;
use crate::instruction_lists::InstructionList;
use crate::settings::Setting;
use crate::sites::LinkKind;
use crate::{elements, parts, slots};
use cap_word::SPAWN_NUMBER;
use rv_code::Register;

// A call of a function.
pub(crate) fn call(
    fact: &FunctionFact,
    setting: &Setting,
    d: Option<u32>,
    args: &[u32],
) -> InstructionList
    requires few { length args.now ≤ 6 }
    requires places { All (λ x. x < length fact.now.places) args.now }
    requires place { HasPlace (length fact.now.places) d }
    requires here { setting.now.here < 2 ^ 58 }
    ensures { (sizes : List ℕ) (site f : ℕ) → result ≡ map checked (row fact.now sizes setting.now (Op.Call site d f args.now)) }
{
    let mut list = InstructionList::new();
    parts::arguments(&mut list, fact, args);
    let here = setting.here + 4 * args.len() as u64;
    parts::transfer(
        &mut list,
        setting.kind,
        Some(u64::from(setting.entry)),
        here,
    );
    parts::result(&mut list, fact, d);
    list
}

// A call of a member of a table.
pub(crate) fn call_table(
    fact: &FunctionFact,
    setting: &Setting,
    d: Option<u32>,
    i: u32,
    s: u32,
) -> InstructionList
    requires i { i < length fact.now.places }
    requires s { s < length fact.now.places }
    requires place { HasPlace (length fact.now.places) d }
    requires here { setting.now.here < 2 ^ 58 }
    ensures { (sizes : List ℕ) (site t : ℕ) → result ≡ map checked (row fact.now sizes setting.now (Op.CallTable site d t i s)) }
{
    let mut list = InstructionList::new();
    elements::element(&mut list, fact, setting, i, 2);
    list.push(slots::load_word(Register::T2, Register::T0, 0));
    list.push(parts::load(fact, Register::A0, s));
    parts::transfer(&mut list, setting.kind, None, setting.here + 52);
    parts::result(&mut list, fact, d);
    list
}

// A modelled call.
pub(crate) fn model(fact: &FunctionFact, d: Option<u32>, n: u32, args: &[u32]) -> InstructionList
    requires few { length args.now ≤ 6 }
    requires places { All (λ x. x < length fact.now.places) args.now }
    requires place { HasPlace (length fact.now.places) d }
    requires small { n < 2048 }
    ensures { result ≡ map checked (parts.arguments fact.now a0 args.now ++ parts.system_call n ++ parts.result fact.now d) }
{
    let mut list = InstructionList::new();
    parts::arguments(&mut list, fact, args);
    parts::system_call(&mut list, n);
    parts::result(&mut list, fact, d);
    list
}

// The number of bytes that a link or a new thread needs.
fn need(kind: LinkKind) -> u32
    ensures { result ≡ need_of kind }
{
    match kind {
        LinkKind::Plain => 0,
        LinkKind::Linked { need } => need,
        LinkKind::Spawned { need } => need,
    }
}

// The start of a thread, at the entry of its function.
pub(crate) fn spawn(
    fact: &FunctionFact,
    setting: &Setting,
    d: Option<u32>,
    s: u32,
) -> InstructionList
    requires s { s < length fact.now.places }
    requires place { HasPlace (length fact.now.places) d }
    ensures { (sizes : List ℕ) (site f : ℕ) → result ≡ map checked (row fact.now sizes setting.now (Op.Spawn site d f s)) }
{
    let mut list = InstructionList::new();
    parts::li(&mut list, Register::A0, setting.entry);
    list.push(parts::load(fact, Register::A1, s));
    parts::li(&mut list, Register::A2, need(setting.kind));
    parts::system_call(&mut list, SPAWN_NUMBER);
    parts::result(&mut list, fact, d);
    list
}

// A return.
pub(crate) fn returns(fact: &FunctionFact, s: Option<u32>) -> InstructionList
    requires { HasPlace (length fact.now.places) s }
    ensures { (sizes : List ℕ) (setting : Setting) → result ≡ map checked (row fact.now sizes setting (Op.Return s)) }
{
    let mut list = InstructionList::new();
    if let Some(s) = s {
        list.push(parts::load(fact, Register::A0, s));
    }
    parts::epilogue(&mut list, fact);
    list
}
