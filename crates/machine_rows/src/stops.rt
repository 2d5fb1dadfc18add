// A lack of chunks at each LINK of a recursion, and of fuel at each instruction of a small program.

ghost use Rattle.codegen_link.specs.Plans.{AreInRange};
ghost use Rattle.segment_run.specs.Contexts.{checked_of, code_of, local_of, AreOf, IsReady};

use crate::cases::{DEEP, NARROW, ONCE, leads_to};
use crate::{Begun, Outcome, accepted_of, begin};
use accepted_pairs::Accepted;
use cap_word::Ask;
use codegen_link::Options;
use decoded_code::Kind;
use rv_machine::{Regs, StepResult, step};
use segment_run::{Areas, Context, Fuel, Segment, run_segment};
use std::alloc::Global;

// Returns the outcome of a run without outputs.
fn silent(last: Segment, left: u64, free: u32) -> Outcome {
    Outcome {
        first: Some(last),
        last: Some(last),
        sum: 0,
        key: None,
        left,
        free,
    }
}

// Checks whether a recursion over this number of chunks finds none at the LINK of that number: 43 instructions lead to
// the first, and 35 from each to the next. If the fuel ends just before it, that is returned first.
fn lacks_a_chunk(alloc: Global, accepted: &Accepted, chunks: u32) -> bool {
    let before = u64::from(chunks) * 35 + 8;
    let no_fuel = silent(Segment::OutOfFuel, 0, 0);
    let no_chunk = silent(Segment::NoChunk, 1, 0);
    leads_to(alloc, accepted, chunks, before, no_fuel)
        && leads_to(alloc, accepted, chunks, before + 1, no_chunk)
}

// Checks whether the recursion of 100 calls finds no chunk at each of its 100 links with too few chunks, and ends with
// all of them.
fn each_chunk_is_lacked(alloc: Global, accepted: &Accepted) -> bool {
    for chunks in 1..=100 {
        if !lacks_a_chunk(alloc, accepted, chunks) {
            return false;
        }
    }
    let ends = Outcome {
        first: Some(Segment::Asks {
            ask: Ask::Put { value: 100 },
        }),
        last: Some(Segment::Ends),
        sum: 100,
        key: None,
        left: 0,
        free: 101,
    };
    leads_to(alloc, accepted, 101, 5149, ends)
}

// Returns the outcome of the recursion of one call over two chunks of 80 bytes with this fuel. The LINK is its
// instruction 44, the UNLINK 71, the put 91, and the last one 100.
fn with_fuel(left: u64) -> Outcome {
    let put = Segment::Asks {
        ask: Ask::Put { value: 1 },
    };
    Outcome {
        first: Some(if left > 90 { put } else { Segment::OutOfFuel }),
        last: Some(if left > 99 {
            Segment::Ends
        } else {
            Segment::OutOfFuel
        }),
        sum: if left > 90 { 1 } else { 0 },
        key: None,
        left: left.saturating_sub(100),
        free: if left > 99 {
            2
        } else if left > 70 || left < 44 {
            1
        } else {
            0
        },
    }
}

// The bits of all groups.
const ALL_GROUPS: u32 = 1023;

// Returns the bit of the group that an operation of a kind begins; 0 for a kind that begins none.
fn group_bit(kind: Kind) -> u32 {
    match kind {
        Kind::LwLw => 1,
        Kind::LwSw => 2,
        Kind::SwLw => 4,
        Kind::SwSw => 8,
        Kind::AddiSw => 16,
        Kind::LuiAddi => 32,
        Kind::SwLwSw => 64,
        Kind::SwLwLw => 128,
        Kind::LuiAddiSw => 256,
        Kind::SwSwSw => 512,
        _ => 0,
    }
}

// Returns the bits of the groups in the code of a program.
fn groups(accepted: &Accepted) -> u32 {
    let mut found = 0;
    for op in accepted.ready() {
        found |= group_bit(op.kind);
    }
    found
}

fn fuel_runs_out(alloc: Global, accepted: &Accepted) -> bool {
    for left in 0..=101 {
        if !leads_to(alloc, accepted, 2, left, with_fuel(left)) {
            return false;
        }
    }
    true
}

// Returns a thread's registers after its instructions up to the next call, and the number of these.
fn stepped_on(accepted: &Accepted, areas: &mut Areas, context: &Context) -> (Regs, u64) {
    let mut regs = Regs {
        pc: context.pc,
        x: context.x,
    };
    for steps in 0..1000 {
        match step(accepted.image(), areas, &mut regs) {
            StepResult::Went => {}
            StepResult::Call { .. } | StepResult::Fault { .. } => return (regs, steps),
        }
    }
    (regs, 1000)
}

// Returns the answer of a thread's segment with this fuel, its registers after the single steps that follow, and the
// number of these.
fn cut(accepted: &Accepted, begun: Begun, left: u64) -> (Segment, Regs, u64)
    requires areas { AreOf accepted.now begun.areas }
    requires ready { IsReady (checked_of accepted.now) (code_of accepted.now) (local_of begun.areas begun.context) }
{
    let Begun {
        mut areas,
        mut context,
    } = begun;
    let segment = run_segment(accepted, &mut areas, &mut context, &mut Fuel { left });
    let (regs, steps) = stepped_on(accepted, &mut areas, &context);
    drop(areas);
    (segment, regs, steps)
}

// Does the same for a thread that begins on one chunk.
fn cut_after(alloc: Global, accepted: &Accepted, left: u64) -> Option<(Segment, Regs, u64)> {
    match begin(alloc, accepted, 1) {
        Ok(Some(begun)) => Some(cut(accepted, begun, left)),
        Ok(None) | Err(_) => None,
    }
}

// Returns the registers at the put, which one run reaches after `before` instructions.
fn at_put(alloc: Global, accepted: &Accepted, before: u64) -> Option<Regs> {
    let put = Segment::Asks {
        ask: Ask::Put { value: 1 },
    };
    match cut_after(alloc, accepted, before.saturating_add(1)) {
        Some((segment, regs, steps)) if segment == put && steps == 0 => Some(regs),
        _ => None,
    }
}

// Checks whether continuing leads to exactly these registers if the fuel runs out `more` instructions before the put.
fn goes_on_alike(alloc: Global, accepted: &Accepted, left: u64, more: u64, whole: &Regs) -> bool {
    match cut_after(alloc, accepted, left) {
        Some((segment, regs, steps)) => {
            segment == Segment::OutOfFuel && steps == more && regs == *whole
        }
        None => false,
    }
}

// Checks whether continuing leads to the registers at the put, after `before` instructions, wherever the fuel runs out.
fn goes_on(alloc: Global, accepted: &Accepted, before: u64) -> bool {
    let Some(whole) = at_put(alloc, accepted, before) else {
        return false;
    };
    for more in 0..before {
        if !goes_on_alike(alloc, accepted, before - more, more, &whole) {
            return false;
        }
    }
    goes_on_alike(alloc, accepted, 0, before, &whole)
}

// A trial of a program: a lack of each chunk, a lack of fuel at each instruction, and continuing after it at each
// instruction before its put, in code with these groups of ready operations.
#[derive(Clone, Copy)]
enum Trial {
    Chunks,
    Fuel,
    GoingOn { before: u64, groups: u32 },
}

fn holds(alloc: Global, source: &[u8], options: Options, trial: Trial) -> bool
    requires { AreInRange options }
{
    match accepted_of(alloc, source, options) {
        Some(accepted) => {
            let is_so = match trial {
                Trial::Chunks => each_chunk_is_lacked(alloc, &accepted),
                Trial::Fuel => fuel_runs_out(alloc, &accepted),
                Trial::GoingOn {
                    before,
                    groups: wanted,
                } => groups(&accepted) == wanted && goes_on(alloc, &accepted, before),
            };
            drop(accepted);
            is_so
        }
        None => false,
    }
}

// An array, which is zeroed by consecutive stores, and one of its elements, which is put.
const ARRAY: &[u8] = b"int main() { int a[4]; a[1] = 1; put(a[1]); return 0; }";

const SMALL: Options = Options {
    chunk: 80,
    max_path: 48,
};

const LARGE: Options = Options {
    chunk: 96,
    max_path: 48,
};

const WIDE: Options = Options {
    chunk: 4096,
    max_path: 4080,
};

// The recursion of one call links a chunk if chunks have 80 bytes, and none if they have 96. Its code has all groups of
// ready operations except three consecutive stores, the code of the array all except a store followed by a load and a
// store.
#[test]
fn stops(rt: HostRuntime) {
    let alloc = rt.alloc();
    let once = Trial::GoingOn {
        before: 87,
        groups: ALL_GROUPS & !group_bit(Kind::SwSwSw),
    };
    let array = Trial::GoingOn {
        before: 33,
        groups: ALL_GROUPS & !group_bit(Kind::SwLwSw),
    };
    let right = holds(alloc, DEEP, NARROW, Trial::Chunks)
        && holds(alloc, ONCE, SMALL, Trial::Fuel)
        && holds(alloc, ONCE, LARGE, once)
        && holds(alloc, ARRAY, WIDE, array);
    assert!(rt; right);
}
