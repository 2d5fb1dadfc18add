ghost use Rattle.std.specs.Prelude.{◌≡◌, ◌<◌, ℕ, Bool, length, position, slice_index, Some, IsSome, IfSome};
ghost use Rattle.std.specs.BTreeMap.{get};
ghost use Rattle.std.specs.Ordering.{nat_cmp};
ghost use Rattle.cap_word.specs.declared.threads.ThreadId.{ThreadId as ThreadIdOf};
ghost use Rattle.scheduler.specs.LawfulChoice.{is_eligible, IsLawfulChoice};
ghost use Rattle.scheduler.specs.NodeQueues.{AreCovered};
ghost use Rattle.scheduler.specs.Queues.{AreExact, entries_in, passes_at, places_in, queue_in};
ghost use Rattle.scheduler.specs.Scores.{score};
ghost use Rattle.scheduler.specs.Search.{choice_of, is_rank_below_best};

use crate::choices::Choice;
use crate::finding::first_of;
use crate::node_queues::NodeQueues;
use crate::queues::Queues;
use crate::scores::{Rank, is_below, pressures_of, rank_of};
use blocking_graph::Graph;
use cap_word::{Ready, ThreadId};
use ready_tree::Bounds;
use resource_monitor::{Measure, Monitor};

/// An eligible thread, with its place and its node's rank.
#[derive(Clone, Copy)]
pub struct Candidate {
    /// The node's rank.
    pub rank: Rank,
    /// The thread's place in the node's queue.
    pub place: usize,
    /// The thread.
    pub thread: ThreadId,
}

/// Returns whether a node's rank is below that of the best so far, or there is none so far.
fn is_below_best(rank: &Rank, best: &Option<Candidate>) -> bool
    ensures { result ≡ is_rank_below_best rank.now best.now }
{
    match best {
        Some(best) => is_below(rank, &best.rank),
        None => true,
    }
}

/// Returns the choice of a candidate.
pub(crate) fn as_choice(best: Option<Candidate>) -> Option<Choice>
    ensures { result ≡ choice_of best }
{
    best.map(|candidate| Choice {
        thread: candidate.thread,
        node: candidate.rank.node,
    })
}

/// Returns the lawful choice, by asking the world. A node that ranks after the best so far is skipped.
pub(crate) fn best_of<C: Measure, R: Ready>(
    queues: &Queues,
    lasts: &[u64],
    graph: &Graph,
    monitor: &Monitor<C>,
    ready: &R,
) -> Option<Candidate>
    requires { (node : ℕ) → IsSome (get nat_cmp queues.now node) → node < length lasts.now }
    ensures { IsLawfulChoice (queue_in queues.now) (is_eligible (R.is_ready ready.now) (R.at_accept ready.now) (R.any_elsewhere ready.now) monitor.now.is_open) (score monitor.now graph.now.edges) (slice_index lasts.now) (choice_of result) }
{
    let pressures = pressures_of(monitor);
    let mut best: Option<Candidate> = None;
    for (node, queue) in queues {
        let rank = rank_of(lasts, graph, &pressures, *node);
        if is_below_best(&rank, &best) {
            if let Some(found) = first_of(queue, ready, monitor.gate()) {
                best = Some(Candidate {
                    rank,
                    place: found.place,
                    thread: found.thread,
                });
            }
        }
    }
    best
}

/// Returns the lawful choice, if the needs determine which threads are eligible. A node without an eligible
/// thread is skipped.
pub(crate) fn best_met<C: Measure>(
    queues: &NodeQueues,
    lasts: &[u64],
    graph: &Graph,
    monitor: &Monitor<C>,
    bounds: &Bounds,
) -> Option<Candidate>
    requires covered { AreCovered queues.now.queues queues.now.above }
    requires placed { (node : ℕ) → IsSome (get nat_cmp queues.now.queues node) → node < length lasts.now }
    ensures lawful { (test : ThreadIdOf → Bool) → ((node : ℕ) → AreExact bounds.now test (entries_in queues.now.queues node)) → IsLawfulChoice (queue_in queues.now.queues) test (score monitor.now graph.now.edges) (slice_index lasts.now) (choice_of result) }
    ensures place { (test : ThreadIdOf → Bool) → ((node : ℕ) → AreExact bounds.now test (entries_in queues.now.queues node)) → IfSome result (λ candidate. position (passes_at test) (places_in queues.now.queues candidate.rank.node) ≡ Some candidate.place) }
{
    let pressures = pressures_of(monitor);
    let mut best: Option<Candidate> = None;
    let mut from = 0;
    while let Some(node) = queues.next(from, bounds) {
        from = node as usize + 1;
        if let Some(found) = queues.first_at(node, bounds) {
            let rank = rank_of(lasts, graph, &pressures, node);
            if is_below_best(&rank, &best) {
                best = Some(Candidate {
                    rank,
                    place: found.place,
                    thread: found.thread,
                });
            }
        }
    }
    best
}
