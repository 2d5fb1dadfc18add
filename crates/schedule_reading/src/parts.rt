// The parts of a reading that need memory before the first line, each made by a separate function.
ghost use Rattle.std.specs.Prelude.{IfOk};
ghost use Rattle.c_tree.specs.ProgramView.{program_tree};
ghost use Rattle.schedule_reading.specs.Starting.{HasFirst, HasFirstThread, HasSource, IsQueued};

use crate::held::{after, both};
use crate::threads::Threads;
use c_tree::Program;
use cap_word::ThreadId;
use scheduler::Scheduler;
use source_runs::Interpreter;
use std::alloc::{AllocError, Global};

/// Returns an interpreter of a program, and the words of its globals at the start.
pub(crate) fn source_of<'a>(
    alloc: Global,
    program: &'a Program,
) -> Result<(Interpreter<'a>, Vec<u32>), AllocError>
    ensures { IfOk result (λ made. HasSource (program_tree program.now) made.0 made.1.items) }
{
    let interpreter = Interpreter::new(alloc, program)?;
    let globals = interpreter.start_globals();
    both(interpreter, globals)
}

/// Returns the first threads and their queues: only thread 0, which will run this function and waits at node 0.
pub(crate) fn first_of<'a>(
    alloc: Global,
    backlog: u32,
    caps: [u32; 8],
    function: u32,
) -> Result<(Threads<'a>, Scheduler), AllocError>
    ensures { IfOk result (λ made. HasFirst backlog caps function made.0 made.1) }
{
    let (threads, thread) = first_thread(alloc, backlog, caps, function)?;
    both(threads, queue_of(alloc, thread))
}

// Returns threads with only thread 0.
fn first_thread<'a>(
    alloc: Global,
    backlog: u32,
    caps: [u32; 8],
    function: u32,
) -> Result<(Threads<'a>, ThreadId), AllocError>
    ensures { IfOk result (λ made. HasFirstThread backlog caps function made.0 made.1) }
{
    let mut threads = Threads::new(alloc, backlog, caps)?;
    let added = threads.add(function, None);
    both(threads, added)
}

// Returns a scheduler with one thread, which waits at node 0.
fn queue_of(alloc: Global, thread: ThreadId) -> Result<Scheduler, AllocError>
    ensures { IfOk result (λ scheduler. IsQueued thread scheduler) }
{
    let mut scheduler = Scheduler::new(alloc);
    let joined = scheduler.enqueue(0, thread);
    after(scheduler, joined)
}
