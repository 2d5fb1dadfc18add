// The edges at the end of a log.
ghost use Rattle.std.specs.Prelude.{◌≡◌, ◌↔◌, IfErr, IfOk, IsTrue};
ghost use Rattle.choice_rules.specs.EdgeLines.{shown as averages_of};
ghost use Rattle.lawful_reading.specs.Given.{Given};
ghost use Rattle.lawful_reading.specs.State.{State};
ghost use Rattle.schedule_reading.specs.Shown.{Shows};

use crate::points::Point;
use crate::reading::{End, Reading};
use crate::rulings::{Failure, Ruling};
use blocking_graph::EdgeLine;
use cap_io::Source;
use resource_monitor::Measure;
use schedule_log::Averages;

/// The line of an edge, as printed.
#[derive(Clone, Copy)]
pub struct Shown {
    /// The node from which its segments began.
    pub from: u32,
    /// The node at which they ended.
    pub to: u32,
    /// The number of its segments.
    pub count: u64,
    /// Their average cost, as in the log.
    pub cost: i128,
    /// The average changes of the uses, as in the log.
    pub changes: Averages,
}

impl<C: Measure + Drop> Reading<'_, C> {
    ghost use Rattle.blocking_graph.specs.Edges.{edges_of};
    ghost use Rattle.schedule_reading.specs.Ending.{AreLeft, AreOver, RulesEdge, TellsStop, entry_of};
    ghost use Rattle.schedule_reading.specs.Rulings.{CountsReads, Rules};
    ghost use Rattle.schedule_reading.specs.Stands.{IsEnd, Stands, StandsSomehow};
    ghost use Rattle.schedule_reading.specs.declared.reading.End.TheVariants.{Stopped};
    ghost use Rattle.schedule_reading.specs.declared.rulings.Failure.TheVariants.{Memory};

    /// Checks whether no edge is yet to be read.
    pub fn are_edges_over(&self) -> Result<bool, Failure>
        ensures over { IfOk result (λ over. IsTrue over ↔ AreOver self.now.core self.now.end) }
        ensures failure { IfErr result (λ failure. failure ≡ Memory) }
    {
        match &self.end {
            End::NotYet => Ok(self.graph.edges()?.is_empty()),
            End::Edges { edges, read } => Ok(*read == edges.len()),
            End::Stopped => Ok(false),
        }
    }

    /// Judges a line `edge`, which may only come where a stop may.
    pub fn edge<S: Source>(&mut self, trace: &mut S, shown: &Shown) -> Result<Ruling, Failure>
        requires stands { StandsSomehow self.old }
        requires going { self.old.end ≡ Stopped → ⊥ }
        ensures rules { (g : Given) (state : State) → Stands g state self.old → Rules g state self.old (entry_of shown.now) (S.left trace.old) self.new (S.left trace.new) result }
        ensures counts { CountsReads result (S.faults trace.old) (S.faults trace.new) }
    {
        if !self.may_stop(trace)? {
            return Ok(Ruling::Refused);
        }
        self.next_edge(shown)
    }

    /// Checks whether a stop may come here; within a segment it always may.
    fn may_stop<S: Source>(&mut self, trace: &mut S) -> Result<bool, Failure>
        requires stands { StandsSomehow self.old }
        requires going { self.old.end ≡ Stopped → ⊥ }
        ensures may { (g : Given) (state : State) → Stands g state self.old → IfOk result (TellsStop g state self.old (S.left trace.old) self.new (S.left trace.new)) }
        ensures counts { CountsReads result (S.faults trace.old) (S.faults trace.new) }
        ensures rest { self.new ≡ record self.old { core = record self.old.core { threads = self.new.core.threads }; reader = self.new.reader; next = self.new.next } }
    {
        if self.under.is_some() {
            return Ok(true);
        }
        match self.point(trace)? {
            Point::Done | Point::Idle | Point::BadTrace { .. } => Ok(true),
            Point::Comes { .. } | Point::Choice => Ok(false),
        }
    }

    /// Judges the line of the next edge.
    fn next_edge(&mut self, shown: &Shown) -> Result<Ruling, Failure>
        ensures rules { (g : Given) (state : State) → IsEnd g state self.old.end → self.old.core.graph.edges ≡ edges_of state.past.records → self.old.core.policy.caps ≡ g.policy.caps → RulesEdge g state self.old shown.now self.new result }
        ensures rest { self.new ≡ record self.old { end = self.new.end } }
    {
        self.begin_edges()?;
        let caps = self.policy.caps;
        if let End::Edges { edges, read } = &mut self.end {
            if *read >= edges.len() {
                return Ok(Ruling::Refused);
            }
            if !is_line_of(&edges[*read], &caps, shown) {
                return Ok(Ruling::Refused);
            }
            *read += 1;
            return Ok(Ruling::Allowed);
        }
        Ok(Ruling::Refused)
    }

    /// Keeps the edges, from the first line of an edge on.
    fn begin_edges(&mut self) -> Result<(), Failure>
        ensures begins { (g : Given) (state : State) → IsEnd g state self.old.end → self.old.core.graph.edges ≡ edges_of state.past.records → IfOk result (λ _. AreLeft g state self.new.end) }
        ensures failure { IfErr result (λ failure. failure ≡ Memory) }
        ensures rest { self.new ≡ record self.old { end = self.new.end } }
    {
        if self.is_before_end() {
            let edges = self.graph.edges()?;
            self.end = End::Edges { edges, read: 0 };
        }
        Ok(())
    }
}

/// Checks whether a line is that of an edge, with the averages of resource 0 and of the resources with caps.
fn is_line_of(edge: &EdgeLine, caps: &[u32; 8], shown: &Shown) -> bool
    ensures { IsTrue result ↔ Shows edge.now caps.now shown.now }
{
    edge.from == shown.from
        && edge.to == shown.to
        && edge.count == shown.count
        && edge.cost == shown.cost
        && are_averages(&edge.change, caps, shown.changes.values())
}

fn are_averages(change: &[i128; 8], caps: &[u32; 8], values: &[i128]) -> bool
    ensures { IsTrue result ↔ (averages_of caps.now change.now ≡ values.now) }
{
    let mut read: usize = 0;
    for resource in 0..8usize {
        if resource == 0 || caps[resource] != 0 {
            if read >= values.len() || values[read] != change[resource] {
                return false;
            }
            read += 1;
        }
    }
    read == values.len()
}
