ghost use Rattle.std.specs.Prelude.{◌<◌, ◌≡◌, None, OnOk, pos, slice_index_or};
ghost use Rattle.choice_rules.specs.EdgeLines as rules;
ghost use Rattle.run_course.specs.Counts.{CountsPart};
ghost use Rattle.run_course.specs.Lines.{edge_lines};
ghost use Rattle.run_course.specs.Output.{PutsText, output_of};
ghost use Rattle.schedule_log.specs.EntryText.{log_text};

use crate::ends::Failure;
use crate::lines::write_line;
use blocking_graph::EdgeLine;
use cap_io::Sink;
use schedule_log::{Averages, Entry, LogWriter};
use thread_core::World;

/// Writes the line of each edge, in their order.
pub fn write_edges<K: Sink>(
    world: &World,
    edges: &[EdgeLine],
    writer: &mut LogWriter,
    out: &mut K,
) -> Result<(), Failure>
    requires { writer.old.refused ≡ None }
    ensures bytes { PutsText (output_of writer.old (K.taken out.old))
        (output_of writer.new (K.taken out.new))
        (log_text (edge_lines world.now.setting.caps edges.now)) result }
    ensures counts { CountsPart result (K.faults out.old) (K.faults out.new) }
    ensures unrefused { OnOk result (writer.new.refused ≡ None) }
{
    for edge in edges {
        let entry = edge_entry(world, edge);
        write_line(writer, out, &entry)?;
    }
    Ok(())
}

/// Returns the line of an edge.
fn edge_entry(world: &World, edge: &EdgeLine) -> Entry
    ensures { result ≡ rules.edge_entry world.now.setting.caps edge.now }
{
    Entry::Edge {
        from: edge.from,
        to: edge.to,
        count: edge.count,
        cost: edge.cost,
        changes: shown(world, &edge.change),
    }
}

/// Returns the averages on an edge's line: that of resource 0, and those of the resources with caps.
fn shown(world: &World, change: &[i128; 8]) -> Averages
    ensures { result ≡ rules.shown world.now.setting.caps change.now }
{
    let mut places = [0; 8];
    places[0] = change[0];
    let mut used: usize = 1;
    for resource in 1..8u32 {
        if world.cap(resource) != 0 {
            places[used] = average_at(change, resource);
            used += 1;
        }
    }
    Averages::new(&places[..used])
}

/// Returns the average of a resource.
fn average_at(change: &[i128; 8], resource: u32) -> i128
    requires { resource < 8 }
    ensures { result ≡ slice_index_or change.now resource (pos 0) }
{
    change[resource as usize]
}
