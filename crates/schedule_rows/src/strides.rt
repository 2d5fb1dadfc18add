// Threads chosen by strides.

ghost use Rattle.std.specs.Prelude.{◌≡◌, ◌==◌, ◌<◌, ◌≤◌, ◌+◌, ◌^◌, ◌∷◌, [], not, true, false, None, OnOk};
ghost use Rattle.stride_rule.specs.State.{new_rule};

use cap_word::{Ready, ThreadId};
use std::alloc::{AllocError, Global};
use stride_rule::StrideRule;

/// A world in which every thread except one is ready.
#[derive(Clone, Copy)]
struct AllButOne {
    kept: u32,
}

impl Ready for AllButOne {
    ghost is_ready = { λ world thread. not (thread.number == world.kept) };

    ghost at_accept = { λ world thread. false };

    ghost any_elsewhere = { λ world. true };

    fn is_ready(&self, thread: ThreadId) -> bool {
        thread.number != self.kept
    }

    fn at_accept(&self, _thread: ThreadId) -> bool {
        false
    }

    fn any_elsewhere(&self) -> bool {
        true
    }
}

fn thread(number: u32) -> ThreadId
    ensures { result ≡ record { slot = number; number = number } }
{
    ThreadId {
        slot: number,
        number,
    }
}

// Chooses the next thread and runs it for one segment. Returns `None` if no thread may run.
fn go_on(rule: &mut StrideRule, world: &AllButOne) -> Option<u32>
    requires between { rule.old.running ≡ None }
    requires room { rule.old.noted < 2 ^ 40 }
    ensures between { rule.new.running ≡ None }
    ensures noted { rule.new.noted ≤ rule.old.noted + 1 }
{
    match rule.choose(true, world) {
        Some(choice) => {
            rule.note_choice(&choice);
            rule.rejoin(choice.thread);
            Some(choice.thread.number)
        }
        None => None,
    }
}

fn start_three(rule: &mut StrideRule) -> Result<(), AllocError>
    requires { rule.old ≡ new_rule ((1, 2) ∷ []) }
    ensures between { OnOk result (rule.new.running ≡ None) }
    ensures noted { OnOk result (rule.new.noted ≡ 0) }
{
    rule.start(thread(0))?;
    rule.start(thread(1))?;
    rule.start(thread(2))
}

/// A step of the row.
#[derive(Clone, Copy)]
enum Step {
    /// While the first thread isn't ready, the second is chosen, for one segment.
    Goes(u32, u32),
    /// The passes differ by this.
    Spread(u64),
    /// A thread was held back, so nothing is said of the passes.
    NoSpread,
}

fn is_spread(rule: &StrideRule, apart: u64) -> bool {
    match rule.spread() {
        Some(found) => found == apart,
        None => false,
    }
}

fn goes(rule: &mut StrideRule, kept: u32, number: u32) -> bool
    requires between { rule.old.running ≡ None }
    requires room { rule.old.noted < 2 ^ 40 }
    ensures between { rule.new.running ≡ None }
    ensures noted { rule.new.noted ≤ rule.old.noted + 1 }
{
    match go_on(rule, &AllButOne { kept }) {
        Some(found) => found == number,
        None => false,
    }
}

fn goes_so(rule: &mut StrideRule, step: Step) -> bool
    requires between { rule.old.running ≡ None }
    requires room { rule.old.noted < 2 ^ 40 }
    ensures between { rule.new.running ≡ None }
    ensures noted { rule.new.noted ≤ rule.old.noted + 1 }
{
    match step {
        Step::Goes(kept, number) => goes(rule, kept, number),
        Step::Spread(apart) => is_spread(rule, apart),
        Step::NoSpread => matches!(rule.spread(), None),
    }
}

// Threads 0, 1 and 2, of which thread 1 has two tickets: the chosen threads, worked out by hand, while each thread is
// ready. After eight turns the pass of each is 2,097,152. Then one more is chosen, and the next time thread 1 is held
// back.
const STEPS: &[Step] = &[
    Step::Goes(9, 0),
    Step::Goes(9, 1),
    Step::Goes(9, 2),
    Step::Goes(9, 1),
    Step::Goes(9, 0),
    Step::Goes(9, 1),
    Step::Goes(9, 2),
    Step::Goes(9, 1),
    Step::Spread(0),
    Step::Goes(9, 0),
    Step::Spread(1_048_576),
    Step::Goes(1, 2),
    Step::NoSpread,
];

// Checks whether each of at most 20 steps has its expected result.
fn go_so(rule: &mut StrideRule, steps: &[Step]) -> bool
    requires between { rule.old.running ≡ None }
    requires noted { rule.old.noted ≡ 0 }
{
    if steps.len() > 20 {
        return false;
    }
    for at in 0..steps.len() {
        if !goes_so(rule, steps[at]) {
            return false;
        }
    }
    true
}

// Checks whether the passes are equal before a thread has started, and the steps have their expected results once three
// have.
fn follows_rows(rule: &mut StrideRule) -> bool
    requires { rule.old ≡ new_rule ((1, 2) ∷ []) }
{
    let none = is_spread(rule, 0);
    match start_three(rule) {
        Ok(()) => none && go_so(rule, STEPS),
        Err(_) => false,
    }
}

fn two_tickets_are_kept(alloc: Global) -> bool {
    let Ok(tickets) = Vec::from_slice(alloc, &[(1, 2)]) else {
        return false;
    };
    let mut rule = StrideRule::new(alloc, tickets);
    let is_so = follows_rows(&mut rule);
    drop(rule);
    is_so
}

#[test]
fn strides(rt: HostRuntime) {
    assert!(rt; two_tickets_are_kept(rt.alloc()));
}
