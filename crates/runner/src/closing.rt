// The end of a log.
ghost use Rattle.std.specs.Prelude.{◌≡◌, ◌++◌, None, OnOk};
ghost use Rattle.cap_io.specs.Writes.{Puts};
ghost use Rattle.run_course.specs.Counts.{CountsPart};
ghost use Rattle.run_course.specs.Lines.{end_lines};
ghost use Rattle.run_course.specs.Output.{IsFitText};
ghost use Rattle.run_course.specs.Steps.{stop_line};
ghost use Rattle.schedule_log.specs.EntryText.{log_text};
ghost use Rattle.chunk_pool.specs.Pool.{free_count};

use blocking_graph::Graph;
use cap_io::Sink;
use run_course::{Failure, Halt, failure_of, write_edges, write_line};
use schedule_log::{Entry, LogWriter};
use thread_core::World;

/// Writes the end of a log: the buffer, the edges of the graph, and the stop.
pub(crate) fn write_end<K: Sink>(
    world: &World,
    graph: &Graph,
    halt: Halt,
    mut writer: LogWriter,
    out: &mut K,
) -> Result<(), Failure>
    requires { writer.refused ≡ None }
    ensures bytes { Puts (K.taken out.old) (K.taken out.new)
        (writer.held ++ log_text (end_lines world.now.setting.caps graph.now.edges
        (stop_line halt (free_count world.now.machine.areas.pool)))) result }
    ensures fits { OnOk result
        (IsFitText (log_text (end_lines world.now.setting.caps graph.now.edges
        (stop_line halt (free_count world.now.machine.areas.pool))))) }
    ensures counts { CountsPart result (K.faults out.old) (K.faults out.new) }
{
    let Ok(edges) = graph.edges() else {
        return Err(Failure::Memory);
    };
    write_edges(world, &edges, &mut writer, out)?;
    let line = halt.line(world.free());
    write_line(&mut writer, out, &Entry::Stop(line))?;
    finish(writer, out)
}

/// Flushes the buffer at the end of a log.
fn finish<K: Sink>(writer: LogWriter, out: &mut K) -> Result<(), Failure>
    requires { writer.refused ≡ None }
    ensures bytes { Puts (K.taken out.old) (K.taken out.new) writer.held result }
    ensures counts { CountsPart result (K.faults out.old) (K.faults out.new) }
{
    match writer.finish(out) {
        Ok(()) => Ok(()),
        Err(refusal) => Err(failure_of(refusal)),
    }
}
