// The end of a segment: its record, and the wait of its thread.
ghost use Rattle.std.specs.Prelude.{◌≡◌, ◌↔◌, IsTrue, None};
ghost use Rattle.c_mean.specs.Frames.{key_of};
ghost use Rattle.c_tree.specs.Trees.{ProgramTree};
ghost use Rattle.source_runs.specs.Threads.{waiting_of};

use crate::reading::{Reading, Under};
use crate::rulings::Failure;
use blocking_graph::{SegmentRecord, changes};
use cap_word::{Block, SiteKey};
use resource_monitor::Measure;
use source_runs::Thread;

impl<'a, C: Measure + Drop> Reading<'a, C> {
    ghost use Rattle.schedule_reading.specs.Closing.{Closes, MayClose, RestsAt};
    ghost use Rattle.schedule_reading.specs.Changes.{IsAway};
    ghost use Rattle.thread_exchange.specs.Exchanges.{row_of};

    /// Ends the segment at a blocking call.
    pub fn rest_at(
        &mut self,
        under: Under<'a>,
        node: u32,
        block: Block,
        cost: u64,
        free: u32,
    ) -> Result<(), Failure>
        requires may { MayClose self.old.core under cost free }
        requires away { IsAway self.old.core.threads under.choice.thread }
        requires untrapped { (row_of self.old.core.threads.exchange block).trap ≡ None }
        ensures { RestsAt self.old under.entry node block cost free self.new result }
    {
        self.close(&under, node, cost, free)?;
        let running = under.choice.thread;
        self.threads.block(running, block, under.thread);
        let need = self.threads.need_of(running);
        self.scheduler.enqueue_for(node, running, need)?;
        Ok(())
    }

    /// Takes up the cost, the free chunks and the record of a segment that has ended at a node.
    pub fn close(
        &mut self,
        under: &Under<'a>,
        node: u32,
        cost: u64,
        free: u32,
    ) -> Result<(), Failure>
        requires { MayClose self.old.core under.now cost free }
        ensures { Closes self.old under.now node cost free self.new result }
    {
        self.cost += cost;
        self.free = free;
        let now = self.threads.clock() + cost;
        self.threads.advance(now);
        let after = self.uses();
        self.graph.note(SegmentRecord {
            from: under.choice.node,
            to: node,
            cost,
            change: changes(&under.before, &after),
        })?;
        Ok(())
    }
}

/// Checks whether a key is that of the call at which a thread is.
pub fn is_key_of(thread: &Thread<'_>, key: &SiteKey) -> bool
    ensures { (tree : ProgramTree) → IsTrue result ↔ (key.now ≡ key_of (waiting_of tree thread.now)) }
{
    thread.key() == *key
}
