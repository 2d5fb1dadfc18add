// The run that is repeated, line by line of its log, for what the log doesn't contain.
//
// Events and the thread of each segment are taken from the log; the world runs the segments. If a choice differs from
// the log's, or the world can't do what a line says, there is no answer: the log is of another run.
//
// In addition to the world there is a `Choosing`: the scheduler's queues, the graph and the resources. It makes the
// choices and counts the reason for each (specs/Courses.antt): the gate, the scores, or the turn of the thread
// (`Reason`). The reason follows from two further choices, which are made but not recorded: one in which no thread
// counts as one at `accept`, so that the gate holds none back, and one over a graph without edges, in which every score
// is 0 (specs/Reasons.antt). For each resource there are its `Holders`: what a thread holds is the sum of the changes
// by its segments.
pub mod choosing;
pub mod deciding;
pub mod holders;
pub mod outside;
pub mod reasons;
pub mod segments;
pub mod starting;
pub mod ungated;
pub mod uses;

ghost use Rattle.std.specs.Prelude.{◌≡◌, ◌<◌, IfSome};
ghost use Rattle.resource_monitor.specs.Monitor.{NoneAbove};
ghost use Rattle.report.specs.Between.{GoesOn, IsBetween};

use crate::again::choosing::Choosing;
use crate::again::holders::Holders;
use crate::again::outside::{come, reach};
use crate::again::reasons::Choices;
use crate::again::segments::run_segment;
use crate::again::uses::{changes, uses_of};
use crate::push::push;
use blocking_graph::SegmentRecord;
use cap_text::Lines;
use cap_word::ThreadId;
use resource_monitor::Measure;
use run_history::{Spawned, Spells};
use schedule_log::{Entry, read_entry};
use std::alloc::{AllocError, Global};
use std::collections::BTreeMap;
use thread_core::World;

/// The node at which threads start, and the one at which they end.
const START: u32 = 0;

const END: u32 = 1;

/// A cost that no segment has.
const TOO_DEAR: u64 = 1 << 40;

/// The results of a repeated run.
#[derive(Drop)]
pub struct Told {
    /// The reasons for its choices under the priority rule, or `None` under the stride rule.
    pub decided: Option<Decided>,
    /// The units that each thread holds of the resources 1 to 7, in that order.
    pub holders: Vec<Holders>,
    /// The threads that were started, by number.
    pub threads: BTreeMap<u32, ThreadId>,
    /// The threads that segments started, in order.
    pub spawned: Vec<Spawned>,
}

/// The reasons for the choices of a run under the priority rule.
#[derive(Clone, Copy)]
pub struct Decided {
    /// The counts of reasons.
    pub choices: Choices,
    /// When the gate was closed, from the start to the end.
    pub spells: Spells,
    /// The clock at which the last segment ended.
    pub ended: u64,
}

/// A segment that ran: its thread, the node from which it began, and the uses before and after it.
#[derive(Clone, Copy)]
struct Ran {
    thread: ThreadId,
    from: u32,
    before: [u32; 8],
    after: [u32; 8],
}

/// The data of a repeated run, in addition to its world.
#[derive(Drop)]
struct Again<C: Measure> {
    choosing: Choosing<C>,
    by_graph: bool,
    spells: Spells,
    holders: Vec<Holders>,
    threads: BTreeMap<u32, ThreadId>,
    spawned: Vec<Spawned>,
    /// The number of finished segments.
    segments: u64,
    ran: Option<Ran>,
    /// The clock at which the last segment ended.
    ended: u64,
}

/// Repeats the run of a newly made world along its log. Its additional data is empty, and `by_graph` says whether
/// threads are chosen by the priority rule. Returns `None` if the log is of another run, that is, if a line isn't that
/// of an entry, another thread would be chosen, or the world can't do what a line says; and if memory runs out.
pub fn make_again<C: Measure + Drop>(
    alloc: Global,
    world: &mut World,
    choosing: Choosing<C>,
    by_graph: bool,
    log: &[u8],
) -> Option<Told>
    requires { IsBetween world.old }
{
    let mut again = Again {
        choosing,
        by_graph,
        spells: Spells::new(),
        holders: Vec::new(alloc),
        threads: BTreeMap::new(alloc),
        spawned: Vec::new(alloc),
        segments: 0,
        ran: None,
        ended: 0,
    };
    let made = again.make(alloc, world, log);
    let told = again.told();
    match made {
        Some(()) => Some(told),
        None => {
            drop(told);
            None
        }
    }
}

impl<C: Measure + Drop> Again<C> {
    /// Repeats the run from its start, at which no thread holds anything and the first thread waits at node 0. The gate
    /// is updated from the uses then.
    fn make(&mut self, alloc: Global, world: &mut World, log: &[u8]) -> Option<()>
        requires { IsBetween world.old }
    {
        for _ in 1..8u32 {
            match self.holders.push(Holders::new(alloc)) {
                Ok(()) => (),
                Err(_) => return None,
            }
        }
        self.start(world.main_thread())?;
        self.watch(world)?;
        self.read(alloc, world, log)
    }

    /// Returns the results.
    fn told(self) -> Told {
        let Again {
            choosing,
            by_graph,
            spells,
            holders,
            threads,
            spawned,
            ended,
            ..
        } = self;
        let decided = Decided {
            choices: choosing.choices(),
            spells,
            ended,
        };
        drop(choosing);
        Told {
            decided: if by_graph { Some(decided) } else { None },
            holders,
            threads,
            spawned,
        }
    }

    /// Repeats the run along all lines of its log.
    fn read(&mut self, alloc: Global, world: &mut World, log: &[u8]) -> Option<()>
        requires { IsBetween world.old }
    {
        for line in Lines::new(log) {
            let Ok(entry) = read_entry(line) else {
                return None;
            };
            if !self.take(alloc, world, &entry)? {
                return Some(());
            }
        }
        Some(())
    }

    /// Does what the next line says. Returns `false` if the run has stopped, and `None` if the line is impossible.
    fn take(&mut self, alloc: Global, world: &mut World, entry: &Entry) -> Option<bool>
        requires { IsBetween world.old }
        ensures { IfSome result (λ goes. GoesOn goes world.new) }
    {
        match entry {
            Entry::Event { clock, item } => come(world, *clock, item),
            Entry::Dropped { clock, item } => come(world, *clock, item),
            Entry::Run {
                clock,
                thread,
                node,
            } => self.run(alloc, world, *clock, *thread, *node),
            Entry::Out { .. } => Some(true),
            Entry::Block { node, cost, .. } => {
                self.block(*node, *cost)?;
                Some(true)
            }
            Entry::End { cost, .. } => {
                self.record(END, *cost)?;
                Some(true)
            }
            Entry::Edge { .. } => Some(true),
            Entry::Stop(_) => Some(false),
        }
    }

    /// Runs a thread for one segment.
    fn run(
        &mut self,
        alloc: Global,
        world: &mut World,
        clock: u64,
        thread: u32,
        node: u32,
    ) -> Option<bool>
        requires { IsBetween world.old }
        ensures { IfSome result (λ goes. GoesOn goes world.new) }
    {
        if !reach(world, clock) {
            return None;
        }
        let caps = self.choosing.caps();
        let before = uses_of(world, &caps);
        self.choose(world, before, thread, node)?;
        let id = self.threads.get(&thread).copied()?;
        let mut started = Vec::new(alloc);
        let goes = run_segment(world, id, &mut started);
        let joined = self.start_all(started.as_slice());
        drop(started);
        joined?;
        let goes = goes?;
        self.ended = world.clock();
        let after = uses_of(world, &caps);
        let ran = Ran {
            thread: id,
            from: node,
            before,
            after,
        };
        self.hold(&ran)?;
        self.ran = Some(ran);
        self.watch(world)?;
        Some(goes)
    }

    /// Updates the gate from the current uses, at the clock at which the last segment ended.
    fn watch(&mut self, world: &World) -> Option<()> {
        let caps = self.choosing.caps();
        self.choosing.observe(uses_of(world, &caps));
        self.spells = self.spells.turn(self.choosing.is_open(), self.ended)?;
        Some(())
    }

    /// Makes the choice at these uses, which has to be this thread at this node.
    fn choose(&mut self, world: &World, uses: [u32; 8], thread: u32, node: u32) -> Option<()>
        requires { NoneAbove uses self.old.choosing.monitor.caps }
    {
        if self.by_graph {
            let choice = self.choosing.choose(uses, world)?;
            if choice.thread.number != thread || choice.node != node {
                return None;
            }
        }
        Some(())
    }

    /// Takes up the threads that the segment in progress has started: they wait at node 0.
    fn start_all(&mut self, started: &[ThreadId]) -> Option<()> {
        for thread in started {
            self.start(*thread)?;
            let spawned = Spawned {
                thread: thread.number,
                segment: self.segments,
            };
            push(&mut self.spawned, spawned).ok()?;
        }
        self.segments = self.segments.saturating_add(1);
        Some(())
    }

    /// Takes up a thread that was started.
    fn start(&mut self, thread: ThreadId) -> Option<()> {
        match self.choosing.wait(START, thread) {
            Ok(()) => match self.threads.insert(thread.number, thread) {
                Ok(_) => Some(()),
                Err(_) => None,
            },
            Err(AllocError) => None,
        }
    }

    /// Takes up the block of the last segment's thread at a node.
    fn block(&mut self, node: u32, cost: u64) -> Option<()> {
        self.record(node, cost)?;
        match self.choosing.wait(node, self.ran?.thread) {
            Ok(()) => Some(()),
            Err(AllocError) => None,
        }
    }

    /// Takes up the record of the last segment, to a node at that cost.
    fn record(&mut self, to: u32, cost: u64) -> Option<()> {
        let ran = self.ran?;
        if cost >= TOO_DEAR {
            return None;
        }
        let change = changes(&ran.before, &ran.after);
        let segment = SegmentRecord {
            from: ran.from,
            to,
            cost,
            change,
        };
        if self.choosing.note(segment) {
            Some(())
        } else {
            None
        }
    }

    /// Updates what the thread of a segment holds.
    fn hold(&mut self, ran: &Ran) -> Option<()> {
        let mut resource: usize = 1;
        for holders in self.holders.as_mut_slice() {
            let before = ran.before.get(resource).copied().unwrap_or(0);
            let after = ran.after.get(resource).copied().unwrap_or(0);
            match holders.add(ran.thread.number, before, after) {
                Ok(()) => (),
                Err(_) => return None,
            }
            resource = resource.saturating_add(1);
        }
        Some(())
    }
}
