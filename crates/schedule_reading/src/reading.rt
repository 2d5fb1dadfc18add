// The state of a reading after some lines of a log.
ghost use Rattle.std.specs.Prelude.{◌≡◌, ◌↔◌, [], IfOk, IsTrue, List, None, ℕ};
ghost use Rattle.c_tree.specs.ProgramView.{program_tree};
ghost use Rattle.lawful_reading.specs.State.{start_of};

use crate::held::all;
use crate::parts::{first_of, source_of};
use crate::policy::AuditPolicy;
use crate::threads::Threads;
use blocking_graph::{EdgeLine, Graph};
use c_tree::Program;
use event_trace::{Event, TraceReader};
use resource_monitor::{Measure, Monitor};
use scheduler::{Choice, Scheduler};
use source_runs::{Interpreter, Thread};
use std::alloc::{AllocError, Global};
use std::marker::Model;

/// A segment in progress: the choice that took its thread, the uses at that choice, and the thread.
#[derive(Drop)]
pub struct Under<'a> {
    /// The choice with which it began.
    pub choice: Choice,
    /// The uses of the eight resources at that choice.
    pub before: [u32; 8],
    /// The thread, as far as it has run.
    pub thread: Thread<'a>,
}

/// The next line of the trace, if it has been examined.
#[derive(Clone, Copy)]
pub enum Next {
    /// It hasn't been examined.
    Unread,
    /// It is an event.
    Event(Event),
    /// There is none.
    Over,
    /// It is refused; the number of the line.
    Refused(u64),
}

/// The end of a log: not begun, or the edges with the number of those that have been read, or the stop, after which
/// nothing may follow.
#[derive(Drop)]
pub enum End {
    /// It hasn't begun.
    NotYet,
    /// Lines of edges, or the stop, are next.
    Edges {
        /// The edges of all segments.
        edges: Vec<EdgeLine>,
        /// How many of them have been read.
        read: usize,
    },
    /// The stop has come.
    Stopped,
}

/// The state after the lines so far.
#[derive(Drop)]
pub struct Reading<'a, C: Measure> {
    /// The limits under which the log is read.
    pub policy: AuditPolicy,
    pub(crate) interpreter: Interpreter<'a>,
    pub(crate) globals: Vec<u32>,
    /// The live threads.
    pub threads: Threads<'a>,
    pub(crate) scheduler: Scheduler,
    /// The blocking graph of all segments.
    pub graph: Graph,
    pub(crate) monitor: Monitor<C>,
    pub(crate) reader: TraceReader,
    pub(crate) next: Next,
    /// The number of free chunks that was printed last.
    pub(crate) free: u32,
    /// The sum of the printed costs of all segments.
    pub cost: u64,
    /// The remaining steps of the source.
    pub left: u64,
    /// The segment in progress, if there is one.
    pub under: Option<Under<'a>>,
    /// The end of the log.
    pub end: End,
}

impl<'a, C: Measure> Model for Reading<'a, C> {
    ghost use Rattle.c_tree.specs.contracts.programs.Program as whole;
    ghost use Rattle.c_tree.specs.contracts.statements.Stmt as stmt;
    ghost use Rattle.std.specs.Coded.{codes};
    ghost use Rattle.schedule_reading.specs.Kept.{Kept};

    ghost Value = { Kept };

    ghost coded = { Prim.hlevel (codes, stmt.the_row.coded, whole.the_row.coded) };

    ghost view = { λ r. record {
      core = record {
        policy = r.policy;
        interpreter = r.interpreter;
        words = r.globals.items;
        threads = r.threads;
        scheduler = r.scheduler;
        graph = r.graph;
        monitor = r.monitor;
        free = r.free;
        cost = r.cost;
        left = r.left;
      };
      reader = r.reader;
      next = r.next;
      under = r.under;
      end = r.end;
    } };
}

impl<'a, C: Measure + Drop> Reading<'a, C> {
    ghost use Rattle.schedule_reading.specs.Stands.{Stands};
    ghost use Rattle.schedule_reading.specs.Limits.{MayAudit, given_of};
    ghost use Rattle.schedule_reading.specs.declared.reading.End.TheVariants.{NotYet};
    ghost use Rattle.schedule_reading.specs.declared.reading.Next.TheVariants.{Unread};

    /// Returns the state before the first line: thread 0 waits at node 0, and one chunk is held.
    pub fn new(
        alloc: Global,
        program: &'a Program,
        policy: AuditPolicy,
        monitor: Monitor<C>,
    ) -> Result<Reading<'a, C>, AllocError>
        requires { MayAudit policy monitor }
        ensures stands { (trace : List ℕ) → IfOk result (Stands (given_of (program_tree program.now) policy monitor) (start_of (given_of (program_tree program.now) policy monitor) trace)) }
        ensures reader { IfOk result (λ reading. reading.reader ≡ record { held = []; lines = 0; last = 0; refused = None }) }
        ensures unread { IfOk result (λ reading. reading.next ≡ Unread) }
    {
        let parts = all(
            source_of(alloc, program),
            first_of(alloc, policy.backlog, policy.caps, program.main_number()),
            TraceReader::new(alloc),
        );
        match parts {
            Ok((source, first, reader)) => {
                let (interpreter, globals) = source;
                let (threads, scheduler) = first;
                Ok(Reading {
                    policy,
                    interpreter,
                    globals,
                    threads,
                    scheduler,
                    graph: Graph::new(alloc),
                    monitor,
                    reader,
                    next: Next::Unread,
                    free: policy.chunks - 1,
                    cost: 0,
                    left: policy.steps,
                    under: None,
                    end: End::NotYet,
                })
            }
            Err(error) => {
                drop(monitor);
                Err(error)
            }
        }
    }

    /// Returns the words of the globals, those of one global after another.
    pub fn globals(&self) -> &[u32]
        ensures { result.now ≡ self.now.core.words }
    {
        self.globals.as_slice()
    }

    /// Returns the number of free chunks that was printed last.
    pub fn free(&self) -> u32
        ensures { result ≡ self.now.core.free }
    {
        self.free
    }

    /// Checks whether the end of the log hasn't begun.
    pub fn is_before_end(&self) -> bool
        ensures { IsTrue result ↔ (self.now.end ≡ NotYet) }
    {
        matches!(self.end, End::NotYet)
    }
}
