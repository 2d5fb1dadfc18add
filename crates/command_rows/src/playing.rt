// The steps of a row, and their expected answers.

ghost use Rattle.std.specs.Prelude.{◌≡◌, IfSome, IsTrue};
ghost use Rattle.thread_core.specs.Making.{IsEventInRange};
ghost use Rattle.command_rows.specs.Moments.{IsAt, after_turn, then_at};
ghost use Rattle.command_rows.specs.declared.moments.Moment.TheVariants.{Between};

use crate::moments::Moment;
use crate::turns::{after, begin_over, begin_ready, go_on, go_on_over};
use cap_word::{Ready, SiteKey, Stop, ThreadId};
use event_trace::{Event, EventKind};
use thread_core::{Delivered, Turn, World};

/// The expected turn.
#[derive(Clone, Copy)]
pub(crate) enum Told {
    /// A value.
    Out(u32),
    /// A thread of that number has started.
    Spawned(u32),
    /// It is blocked at that site, which is the key, after this number of instructions.
    Blocked(u32, u64),
    /// It is blocked at that site.
    Waits(u32),
    /// It has ended after this number of instructions.
    Ended(u64),
    /// It has ended.
    Ends,
    /// The run has stopped within a segment, after this number of instructions.
    Cut(Stop, u64),
    /// The run has stopped.
    Stops(Stop),
}

/// A step of a row. Threads are named by their numbers, which are below 8.
#[derive(Clone, Copy)]
pub(crate) enum Step {
    /// A segment of the thread begins.
    Begin(u32, Told),
    /// The segment in progress continues.
    Proceed(Told),
    /// A value arrives; whether it is queued.
    Arrive(u32, bool),
    /// A message comes on a channel; whether it is queued.
    Send(u32, u32, bool),
    /// The clock advances to this long after the thread blocked last.
    Advance(u32, u64),
    /// Whether the thread is ready.
    IsReady(u32, bool),
    /// Whether it is blocked at `accept`.
    AtAccept(u32, bool),
    /// Whether any thread is ready.
    AnyReady(bool),
    /// Whether any thread is ready that isn't at `accept`.
    AnyElsewhere(bool),
    /// The next sleeping thread wakes this long after the thread blocked last.
    Wakes(u32, u64),
    /// No sleeping thread is yet to wake.
    NoneWakes,
    /// The use of resource 1.
    Used(u32),
    /// The number of free chunks.
    Free(u32),
    /// The number of live threads.
    Live(u32),
    /// The clock.
    Clock(u64),
}

/// A run: its state, the thread whose segment began last, and for each thread by number its id and the clock at which
/// it blocked last.
#[derive(Drop)]
pub(crate) struct Run {
    pub moment: Moment,
    pub running: u32,
    pub threads: [ThreadId; 8],
    pub since: [u64; 8],
}

// Checks whether a turn is the expected one.
fn is_told(turn: &Turn, told: Told) -> bool {
    match told {
        Told::Out(value) => *turn == Turn::Out { value },
        Told::Spawned(number) => match turn {
            Turn::Spawned { thread } => thread.number == number,
            _ => false,
        },
        Told::Blocked(site, cost) => {
            *turn
                == Turn::Blocked {
                    key: SiteKey::new(&[site]),
                    cost,
                }
        }
        Told::Waits(site) => match turn {
            Turn::Blocked { key, .. } => *key == SiteKey::new(&[site]),
            _ => false,
        },
        Told::Ended(cost) => *turn == Turn::Ended { cost },
        Told::Ends => match turn {
            Turn::Ended { .. } => true,
            _ => false,
        },
        Told::Cut(stop, cost) => *turn == Turn::Cut { stop, cost },
        Told::Stops(stop) => match turn {
            Turn::Cut { stop: is, .. } => *is == stop,
            _ => false,
        },
    }
}

// Returns the state of a run after a turn; a run that has stopped stays stopped.
fn then(moment: Moment, turn: &Turn) -> Moment
    ensures { result ≡ then_at moment turn.now }
{
    match moment {
        Moment::Between | Moment::Within => after(turn),
        Moment::Over => Moment::Over,
    }
}

// Begins a segment of a thread, if that is possible.
fn begin(world: &mut World, moment: Moment, thread: ThreadId) -> Option<Turn>
    requires { IsAt moment world.old }
    ensures { IfSome result (λ turn. IsAt (then_at moment turn) world.new) }
{
    match moment {
        Moment::Between => {
            if !world.is_ready(thread) {
                return None;
            }
            Some(begin_ready(world, thread))
        }
        Moment::Within => None,
        Moment::Over => Some(begin_over(world, thread)),
    }
}

// Continues the segment in progress, if there is one.
fn proceed(world: &mut World, moment: Moment) -> Option<Turn>
    requires { IsAt moment world.old }
    ensures { IfSome result (λ turn. IsAt (then_at moment turn) world.new) }
{
    match moment {
        Moment::Between => None,
        Moment::Within => Some(go_on(world)),
        Moment::Over => Some(go_on_over(world)),
    }
}

impl Run {
    /// Returns a run at its start: thread 0 is the first.
    pub(crate) fn new(world: &World) -> Run
        ensures { result.moment ≡ Between }
    {
        Run {
            moment: Moment::Between,
            running: 0,
            threads: [world.main_thread(); 8],
            since: [0; 8],
        }
    }

    // Returns the id of a thread.
    fn named(&self, number: u32) -> ThreadId {
        self.threads[(number % 8) as usize]
    }

    // Returns the clock at which a thread blocked last, plus these ticks.
    fn later(&self, number: u32, ticks: u64) -> u64 {
        self.since[(number % 8) as usize].wrapping_add(ticks)
    }

    // Keeps the facts of a turn.
    fn keep(&mut self, turn: &Turn, clock: u64)
        ensures { self.new.moment ≡ then_at self.old.moment turn.now }
    {
        self.moment = then(self.moment, turn);
        match turn {
            Turn::Spawned { thread } => self.threads[(thread.number % 8) as usize] = *thread,
            Turn::Blocked { .. } => self.since[(self.running % 8) as usize] = clock,
            _ => (),
        }
    }

    // Takes up a turn, and checks whether it is the expected one.
    fn takes(&mut self, world: &World, made: Option<Turn>, told: Told) -> bool
        requires { IfSome made (λ turn. IsAt (then_at self.old.moment turn) world.now) }
        ensures { IsTrue result → IsAt self.new.moment world.now }
    {
        match made {
            None => false,
            Some(turn) => {
                let clock = world.clock();
                self.keep(&turn, clock);
                is_told(&turn, told)
            }
        }
    }

    // Begins a segment of a thread, and checks its turn.
    fn begins(&mut self, world: &mut World, number: u32, told: Told) -> bool
        requires { IsAt self.old.moment world.old }
        ensures { IsTrue result → IsAt self.new.moment world.new }
    {
        let thread = self.named(number);
        let made = begin(world, self.moment, thread);
        self.running = number;
        self.takes(world, made, told)
    }

    // Continues the segment in progress, and checks its turn.
    fn proceeds(&mut self, world: &mut World, told: Told) -> bool
        requires { IsAt self.old.moment world.old }
        ensures { IsTrue result → IsAt self.new.moment world.new }
    {
        let made = proceed(world, self.moment);
        self.takes(world, made, told)
    }

    // Delivers an event, and checks whether it is queued.
    fn comes(&self, world: &mut World, kind: EventKind, queued: bool) -> bool
        requires at { IsAt self.now.moment world.old }
        requires range { IsEventInRange kind }
        ensures { IsTrue result → IsAt self.now.moment world.new }
    {
        match self.moment {
            Moment::Between => {
                let delivered = world.deliver(Event { time: 0, kind });
                (delivered == Delivered::Queued) == queued
            }
            _ => false,
        }
    }

    // Advances the clock to a time, which isn't past.
    fn waits(&self, world: &mut World, to: u64) -> bool
        requires { IsAt self.now.moment world.old }
        ensures { IsTrue result → IsAt self.now.moment world.new }
    {
        if to < world.clock() || to > 1_000_000_000 {
            return false;
        }
        match self.moment {
            Moment::Between => {
                world.advance(to);
                true
            }
            _ => false,
        }
    }

    // Checks a fact about a world.
    fn is(&self, world: &World, step: Step) -> bool {
        match step {
            Step::IsReady(number, ready) => world.is_ready(self.named(number)) == ready,
            Step::AtAccept(number, at) => world.at_accept(self.named(number)) == at,
            Step::AnyReady(ready) => world.any_ready() == ready,
            Step::AnyElsewhere(ready) => world.any_elsewhere() == ready,
            Step::Wakes(number, ticks) => world.wake() == Some(self.later(number, ticks)),
            Step::NoneWakes => world.wake() == None,
            Step::Used(used) => world.used(1) == used,
            Step::Free(free) => world.free() == free,
            Step::Live(live) => world.live() == live,
            Step::Clock(clock) => world.clock() == clock,
            _ => false,
        }
    }

    // Does a step, and checks its answers.
    fn does(&mut self, world: &mut World, step: Step) -> bool
        requires { IsAt self.old.moment world.old }
        ensures { IsTrue result → IsAt self.new.moment world.new }
    {
        match step {
            Step::Begin(number, told) => self.begins(world, number, told),
            Step::Proceed(told) => self.proceeds(world, told),
            Step::Arrive(value, queued) => self.comes(world, EventKind::Arrive { value }, queued),
            Step::Send(channel, value, queued) => {
                channel < 64 && self.comes(world, EventKind::Message { channel, value }, queued)
            }
            Step::Advance(number, ticks) => self.waits(world, self.later(number, ticks)),
            _ => self.is(world, step),
        }
    }
}

/// Checks whether a world gives the expected answers at each step.
pub(crate) fn plays(world: &mut World, steps: &[Step]) -> bool
    requires { IsAt Between world.old }
{
    let mut run = Run::new(world);
    for step in steps {
        if !run.does(world, *step) {
            return false;
        }
    }
    true
}
