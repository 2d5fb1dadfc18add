ghost use Rattle.std.specs.Prelude.{◌≡◌, ℕ, ◌+◌, ◌-◌, ◌%◌, ◌^◌, ◌<◌, ◌≤◌, List, length, Ok, IfSome, IsNone, true, slice_get, Some, if◌then◌else◌};
ghost use Rattle.cap_word.specs.Word as word;
ghost use Rattle.decoded_code.specs.Ready.{place_at, even, ready_effect, AreReady, DoesAs, passes_on};
ghost use Rattle.flat_code.specs.WellFormed.{IsWellFormed};
ghost use Rattle.rv_code.specs.declared.instructions.Instr.{Instr};
ghost use Rattle.rv_machine.specs.Registers.{read};
ghost use Rattle.rv_machine.specs.Step.{instruction_at};
ghost use Rattle.stack_image.specs.Addresses.{code_start};
ghost use Rattle.segment_laws.specs.Ways.{HasForm};
ghost use Rattle.segment_run.specs.Contexts.{checked_of, code_of};
ghost use Rattle.segment_run.specs.ReadyTurns.{machine_at, HasRegisters, IsReadyIn, IsKindAt, GoesOn, WentOn};
ghost use Rattle.segment_run.specs.ReadyRuns.{Run, IsIn};
ghost use Rattle.segment_run.specs.Safe.{StaysSafe};
ghost use Rattle.segment_run.specs.Turns.{thread_of, IsUnderWay};

use crate::areas::Areas;
use crate::register_file::RegisterFile;
use crate::running::Thread;
use accepted_pairs::Accepted;
use cap_word::add;
use decoded_code::{Action, Kind, Ready};
use rv_machine::Regs;
use stack_image::CODE_START;

// The maximum number of operations in one turn.
const MOST: u64 = 3;

// How far a thread came by ready operations: its registers, and the remaining fuel.
#[derive(Clone, Copy)]
pub(crate) struct Progress {
    pub(crate) regs: Regs,
    pub(crate) left: u64,
}

// The state of a run by ready operations: the index of the next operation, and the remaining fuel.
#[derive(Clone, Copy)]
struct Stand {
    at: usize,
    left: u64,
}

// Runs a thread that never faults up to the next instruction that isn't ready, or until the fuel is used up. It has
// local copies of the registers and the fuel, so that the compiler keeps the index and the fuel out of memory.
pub(crate) fn run_ready(
    accepted: &Accepted,
    areas: &mut Areas,
    thread: Thread,
    fuel: u64,
) -> Progress
    requires formed { IsWellFormed (checked_of accepted.now).flat }
    requires form { HasForm (checked_of accepted.now) (thread_of areas.old thread) }
    requires safe { StaysSafe (checked_of accepted.now) (code_of accepted.now) (thread_of areas.old thread) }
    ensures { IsUnderWay (checked_of accepted.now) (code_of accepted.now) (thread_of areas.old thread) fuel (thread_of areas.new (record thread { regs = result.regs })) result.left }
{
    let ready = accepted.ready();
    let mut file = RegisterFile::new(thread.regs.x);
    let start = Stand {
        at: index_at(thread.regs.pc),
        left: fuel,
    };
    let near = run_groups(ready, start, areas, &mut file);
    let last = run_singly(ready, near, areas, &mut file);
    stopped_at(last, &file)
}

// Runs groups of operations, as long as fuel for the largest group is left.
fn run_groups(ready: &[Ready], start: Stand, areas: &mut Areas, file: &mut RegisterFile) -> Stand
    requires { (run : Run) × IsIn run ready.now areas.old file.old start.at start.left }
    ensures { (run : Run) → IsIn run ready.now areas.old file.old start.at start.left → IsIn run ready.now areas.new file.new result.at result.left }
{
    let mut stand = start;
    while stand.left >= MOST {
        match turns(ready, stand, areas, file) {
            Some(next) => {
                stand = Stand {
                    at: next.at,
                    left: next.left - 1,
                }
            }
            None => return stand,
        }
    }
    stand
}

// Runs one operation at a time.
fn run_singly(ready: &[Ready], start: Stand, areas: &mut Areas, file: &mut RegisterFile) -> Stand
    requires { (run : Run) × IsIn run ready.now areas.old file.old start.at start.left }
    ensures { (run : Run) → IsIn run ready.now areas.old file.old start.at start.left → IsIn run ready.now areas.new file.new result.at result.left }
{
    let mut stand = start;
    while stand.left > 0 {
        let op = operation_at(ready, stand.at);
        match turn_in(op.kind, op, ready, stand.at, areas, file) {
            Some(next) => {
                stand = Stand {
                    at: next,
                    left: stand.left - 1,
                }
            }
            None => return stand,
        }
    }
    stand
}

// Executes the operation at an index and, if a group begins there, the others of the group. Returns the next index,
// with the fuel that was left before the last of them: the loop subtracts one instruction for every kind. Returns
// `None` if only the machine's step can execute the first; then nothing has changed. Each kind has its own arm, so that
// the compiler makes one jump of it.
#[inline(always)]
fn turns(ready: &[Ready], stand: Stand, areas: &mut Areas, file: &mut RegisterFile) -> Option<Stand>
    requires run { (run : Run) × IsIn run ready.now areas.old file.old stand.at stand.left }
    requires fuel { 3 ≤ stand.left }
    ensures went { (run : Run) → IsIn run ready.now areas.old file.old stand.at stand.left → IfSome result (λ next. IsIn run ready.now areas.new file.new next.at (next.left - 1)) }
    ensures fuel { IfSome result (λ next. (0 < next.left) × (next.left ≤ stand.left)) }
    ensures areas { IsNone result → areas.new ≡ areas.old }
    ensures file { IsNone result → file.new ≡ file.old }
{
    let op = operation_at(ready, stand.at);
    match op.kind {
        Kind::Other => None,
        Kind::LwLw => pair(Kind::Lw, Kind::Lw, op, ready, stand, areas, file),
        Kind::LwSw => pair(Kind::Lw, Kind::Sw, op, ready, stand, areas, file),
        Kind::SwLw => pair(Kind::Sw, Kind::Lw, op, ready, stand, areas, file),
        Kind::SwSw => pair(Kind::Sw, Kind::Sw, op, ready, stand, areas, file),
        Kind::AddiSw => pair(Kind::Addi, Kind::Sw, op, ready, stand, areas, file),
        Kind::LuiAddi => pair(Kind::Lui, Kind::Addi, op, ready, stand, areas, file),
        Kind::SwSwSw => triple(Kind::Sw, Kind::Sw, Kind::Sw, op, ready, stand, areas, file),
        Kind::SwLwSw => triple(Kind::Sw, Kind::Lw, Kind::Sw, op, ready, stand, areas, file),
        Kind::SwLwLw => triple(Kind::Sw, Kind::Lw, Kind::Lw, op, ready, stand, areas, file),
        Kind::LuiAddiSw => triple(
            Kind::Lui,
            Kind::Addi,
            Kind::Sw,
            op,
            ready,
            stand,
            areas,
            file,
        ),
        Kind::Lui => one(Kind::Lui, op, ready, stand, areas, file),
        Kind::Addi => one(Kind::Addi, op, ready, stand, areas, file),
        Kind::Sltiu => one(Kind::Sltiu, op, ready, stand, areas, file),
        Kind::Xori => one(Kind::Xori, op, ready, stand, areas, file),
        Kind::Slli => one(Kind::Slli, op, ready, stand, areas, file),
        Kind::Add => one(Kind::Add, op, ready, stand, areas, file),
        Kind::Sub => one(Kind::Sub, op, ready, stand, areas, file),
        Kind::Sll => one(Kind::Sll, op, ready, stand, areas, file),
        Kind::Slt => one(Kind::Slt, op, ready, stand, areas, file),
        Kind::Sltu => one(Kind::Sltu, op, ready, stand, areas, file),
        Kind::Xor => one(Kind::Xor, op, ready, stand, areas, file),
        Kind::Sra => one(Kind::Sra, op, ready, stand, areas, file),
        Kind::Or => one(Kind::Or, op, ready, stand, areas, file),
        Kind::And => one(Kind::And, op, ready, stand, areas, file),
        Kind::Mul => one(Kind::Mul, op, ready, stand, areas, file),
        Kind::Div => one(Kind::Div, op, ready, stand, areas, file),
        Kind::Rem => one(Kind::Rem, op, ready, stand, areas, file),
        Kind::Lw => one(Kind::Lw, op, ready, stand, areas, file),
        Kind::Sw => one(Kind::Sw, op, ready, stand, areas, file),
        Kind::Jump => one(Kind::Jump, op, ready, stand, areas, file),
        Kind::Call => one(Kind::Call, op, ready, stand, areas, file),
        Kind::JumpTo => one(Kind::JumpTo, op, ready, stand, areas, file),
        Kind::CallTo => one(Kind::CallTo, op, ready, stand, areas, file),
        Kind::Bne => one(Kind::Bne, op, ready, stand, areas, file),
        Kind::Bltu => one(Kind::Bltu, op, ready, stand, areas, file),
    }
}

// Executes the operation at an index, of a known kind. Returns as `turns` does.
#[inline(always)]
fn one(
    kind: Kind,
    op: &Ready,
    ready: &[Ready],
    stand: Stand,
    areas: &mut Areas,
    file: &mut RegisterFile,
) -> Option<Stand>
    requires run { (run : Run) × IsIn run ready.now areas.old file.old stand.at stand.left }
    requires fuel { 0 < stand.left }
    requires there { slice_get ready.now stand.at ≡ Some op.now }
    requires kind { DoesAs kind op.now.kind }
    ensures went { (run : Run) → IsIn run ready.now areas.old file.old stand.at stand.left → IfSome result (λ next. IsIn run ready.now areas.new file.new next.at (next.left - 1)) }
    ensures fuel { IfSome result (λ next. (0 < next.left) × (next.left ≤ stand.left)) }
    ensures areas { IsNone result → areas.new ≡ areas.old }
    ensures file { IsNone result → file.new ≡ file.old }
{
    match turn_in(kind, op, ready, stand.at, areas, file) {
        Some(at) => Some(Stand {
            at,
            left: stand.left,
        }),
        None => None,
    }
}

// Executes the operation at an index and the next one, of known kinds. Returns as `turns` does.
#[inline(always)]
fn pair(
    first: Kind,
    behind: Kind,
    op: &Ready,
    ready: &[Ready],
    stand: Stand,
    areas: &mut Areas,
    file: &mut RegisterFile,
) -> Option<Stand>
    requires run { (run : Run) × IsIn run ready.now areas.old file.old stand.at stand.left }
    requires fuel { 1 < stand.left }
    requires there { slice_get ready.now stand.at ≡ Some op.now }
    requires first { DoesAs first op.now.kind }
    requires behind { IsKindAt ready.now (stand.at + 1) behind }
    requires on { passes_on first ≡ true }
    ensures went { (run : Run) → IsIn run ready.now areas.old file.old stand.at stand.left → IfSome result (λ next. IsIn run ready.now areas.new file.new next.at (next.left - 1)) }
    ensures fuel { IfSome result (λ next. (0 < next.left) × (next.left ≤ stand.left)) }
    ensures areas { IsNone result → areas.new ≡ areas.old }
    ensures file { IsNone result → file.new ≡ file.old }
{
    match turn_in(first, op, ready, stand.at, areas, file) {
        Some(next) => match turn_at(behind, ready, next, areas, file) {
            Some(at) => Some(Stand {
                at,
                left: stand.left - 1,
            }),
            None => Some(Stand {
                at: next,
                left: stand.left,
            }),
        },
        None => None,
    }
}

// Executes the operation at an index and the next two, of known kinds. Returns as `turns` does.
#[inline(always)]
fn triple(
    first: Kind,
    behind: Kind,
    last: Kind,
    op: &Ready,
    ready: &[Ready],
    stand: Stand,
    areas: &mut Areas,
    file: &mut RegisterFile,
) -> Option<Stand>
    requires run { (run : Run) × IsIn run ready.now areas.old file.old stand.at stand.left }
    requires fuel { 2 < stand.left }
    requires there { slice_get ready.now stand.at ≡ Some op.now }
    requires first { DoesAs first op.now.kind }
    requires behind { IsKindAt ready.now (stand.at + 1) behind }
    requires last { IsKindAt ready.now (stand.at + 2) last }
    requires first_on { passes_on first ≡ true }
    requires behind_on { passes_on behind ≡ true }
    ensures went { (run : Run) → IsIn run ready.now areas.old file.old stand.at stand.left → IfSome result (λ next. IsIn run ready.now areas.new file.new next.at (next.left - 1)) }
    ensures fuel { IfSome result (λ next. (0 < next.left) × (next.left ≤ stand.left)) }
    ensures areas { IsNone result → areas.new ≡ areas.old }
    ensures file { IsNone result → file.new ≡ file.old }
{
    match turn_in(first, op, ready, stand.at, areas, file) {
        Some(next) => {
            let left = stand.left - 1;
            let one_less = Stand { at: next, left };
            let begun = operation_at(ready, next);
            match pair(behind, last, begun, ready, one_less, areas, file) {
                Some(after) => Some(after),
                None => Some(Stand {
                    at: next,
                    left: stand.left,
                }),
            }
        }
        None => None,
    }
}

// Executes the operation at an index as one of a kind. Returns the index of the next operation, or `None` if only the
// machine's step can execute it; then nothing has changed.
#[inline(always)]
fn turn_at(
    kind: Kind,
    ready: &[Ready],
    at: usize,
    areas: &mut Areas,
    file: &mut RegisterFile,
) -> Option<usize>
    requires run { (run : Run) × (left : ℕ) × (0 < left) × IsIn run ready.now areas.old file.old at left }
    requires kind { IsKindAt ready.now at kind }
    ensures went { (run : Run) (left : ℕ) → 0 < left → IsIn run ready.now areas.old file.old at left → IfSome result (λ next. IsIn run ready.now areas.new file.new next (left - 1)) }
    ensures areas { IsNone result → areas.new ≡ areas.old }
    ensures file { IsNone result → file.new ≡ file.old }
{
    turn_in(kind, operation_at(ready, at), ready, at, areas, file)
}

// Does the same for an operation that is given.
#[inline(always)]
fn turn_in(
    kind: Kind,
    op: &Ready,
    ready: &[Ready],
    at: usize,
    areas: &mut Areas,
    file: &mut RegisterFile,
) -> Option<usize>
    requires run { (run : Run) × (left : ℕ) × (0 < left) × IsIn run ready.now areas.old file.old at left }
    requires there { slice_get ready.now at ≡ Some op.now }
    requires kind { DoesAs kind op.now.kind }
    ensures went { (run : Run) (left : ℕ) → 0 < left → IsIn run ready.now areas.old file.old at left → IfSome result (λ next. IsIn run ready.now areas.new file.new next (left - 1)) }
    ensures on { passes_on kind ≡ true → IfSome result (λ next. next ≡ at + 1) }
    ensures areas { IsNone result → areas.new ≡ areas.old }
    ensures file { IsNone result → file.new ≡ file.old }
{
    let a = file.read(op.rs1);
    let b = file.read(op.rs2);
    turn(kind, op, a, b, at, areas, file)
}

// Returns the progress of a thread that stops at an index of the code.
fn stopped_at(stand: Stand, file: &RegisterFile) -> Progress
    requires { place_at stand.at < 2 ^ 32 }
    ensures { result ≡ record { regs = record { pc = place_at stand.at; x = file.now }; left = stand.left } }
{
    Progress {
        regs: Regs {
            pc: CODE_START + 4 * stand.at as u32,
            x: file.values(),
        },
        left: stand.left,
    }
}

// Returns the index of the instruction at pc.
#[tactic(auto, unfolding(rv_machine::specs::Step::instruction_at))]
fn index_at(pc: u32) -> usize
    requires { (words : List ℕ) × (instr : Instr) × (instruction_at words pc ≡ Ok instr) }
    ensures { place_at result ≡ pc }
{
    ((pc - CODE_START) / 4) as usize
}

// Returns the ready operation at an index.
#[inline(always)]
fn operation_at(ready: &[Ready], at: usize) -> &Ready
    requires there { (words : List ℕ) × (instr : Instr) × AreReady words (length words) ready.now × (instruction_at words (place_at at) ≡ Ok instr) }
    requires place { place_at at < 2 ^ 32 }
    ensures ready { (words : List ℕ) (instr : Instr) → AreReady words (length words) ready.now → instruction_at words (place_at at) ≡ Ok instr → IsReadyIn words at result.now }
    ensures there { slice_get ready.now at ≡ Some result.now }
{
    &ready[at]
}

// Executes the ready operation at an index as one of a kind, and returns the index of the next operation, or `None` if
// only the machine's step can execute it; then nothing has changed.
#[inline(always)]
fn turn(
    kind: Kind,
    op: &Ready,
    a: u32,
    b: u32,
    at: usize,
    areas: &mut Areas,
    file: &mut RegisterFile,
) -> Option<usize>
    requires registers { HasRegisters op.now }
    requires kind { DoesAs kind op.now.kind }
    requires a { a ≡ read file.old op.now.rs1 }
    requires b { b ≡ read file.old op.now.rs2 }
    requires place { place_at at < 2 ^ 32 }
    requires goes { GoesOn (ready_effect op.now (machine_at areas.old at file.old)) }
    ensures went { IfSome result (λ next. WentOn (ready_effect op.now (machine_at areas.old at file.old)) areas.old areas.new next file.new) }
    ensures on { passes_on kind ≡ true → IfSome result (λ next. next ≡ at + 1) }
    ensures areas { IsNone result → areas.new ≡ areas.old }
    ensures file { IsNone result → file.new ≡ file.old }
{
    match op.action_as(kind, a, b) {
        Action::Sets { value } => {
            file.write(op.rd, value);
            Some(at + 1)
        }
        Action::Loads { address } => {
            let word = areas.read_word(address);
            file.write(op.rd, word);
            Some(at + 1)
        }
        Action::Stores { address } => {
            areas.put_word(address, b);
            Some(at + 1)
        }
        Action::Jumps { to } => Some(to as usize),
        Action::Calls { to } => {
            file.write(op.rd, place_behind(at));
            Some(to as usize)
        }
        Action::JumpsNear { place } => Some(index_near(place)),
        Action::CallsNear { place } => {
            file.write(op.rd, place_behind(at));
            Some(index_near(place))
        }
        Action::Branches { taken } => Some(branch_to(taken, op.imm, at)),
        Action::Steps => None,
    }
}

// Returns the address after the word at an index.
#[inline(always)]
fn place_behind(at: usize) -> u32
    requires { place_at at < 2 ^ 32 }
    ensures { result ≡ word.add (place_at at) 4 }
{
    add(CODE_START + 4 * at as u32, 4)
}

// Returns the index of the word at an address, ignoring bit 0.
#[inline(always)]
fn index_near(place: u32) -> usize
    ensures { even place % 4 ≡ 0 → code_start ≤ even place → place_at result ≡ even place }
{
    (place.wrapping_sub(CODE_START) / 4) as usize
}

// Returns the index to which a branch leads.
#[inline(always)]
fn branch_to(taken: bool, to: u32, at: usize) -> usize
    requires { place_at at < 2 ^ 32 }
    ensures { result ≡ (if taken then to else at + 1) }
{
    if taken { to as usize } else { at + 1 }
}
