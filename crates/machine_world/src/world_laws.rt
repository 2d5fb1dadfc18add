ghost use Rattle.std.specs.Prelude.{◌≡◌, ◌≢◌, ℕ, ◌+◌, List, ◌++◌, Some};
ghost use Rattle.c_mean.specs.Kept.{LeavesOtherQueues};
ghost use Rattle.c_mean.specs.ModelledCalls.{Delivery};
ghost use Rattle.machine_world.specs.Alone.{IsApart, KeepsChunk, KeepsThread};
ghost use Rattle.machine_world.specs.Counted.{IsCounted, KeepsCounted, IsCountedIf};
ghost use Rattle.machine_world.specs.Local.{Local, local_step};
ghost use Rattle.machine_world.specs.Runs.{Action, delivered, start_world, after_actions, after_steps, and_then};
ghost use Rattle.machine_world.specs.Threads.{World, Setting, step};
ghost use Rattle.chunk_pool.specs.Pool.{start_pool};
ghost use Rattle.machine_world.specs.Areas.{Areas};
ghost use Rattle.machine_world.specs.Chains.{AreAllFree};

/// Laws of held and free chunks: in a new pool every chunk is free. At the start the numbers of the live threads
/// increase, and held and free chunks are exactly the pool. Both hold after each step, be it a LINK, an UNLINK, a
/// SPAWN, an END or any other, and after any actions.
pub fn partition_laws()
    ensures new_pool { (chunks words extra extra_words : ℕ) → AreAllFree (start_pool chunks words extra extra_words) }
    ensures start { (areas : Areas) (entry need : ℕ) → AreAllFree areas.pool → IsCountedIf (start_world areas entry need) }
    ensures step { (s : Setting) (w : World) → IsCounted w → KeepsCounted (step s w) }
    ensures actions { (s : Setting) (actions : List Action) (w : World) → IsCounted w → IsCountedIf (after_actions s actions w) }
{}

/// Laws of runs: m steps followed by n steps are m + n steps, and lists of actions compose.
pub fn run_laws()
    ensures steps_add { (s : Setting) (m n : ℕ) (w : World) → after_steps s (m + n) w ≡ and_then (after_steps s m w) (after_steps s n) }
    ensures actions_join { (s : Setting) (first rest : List Action) (w : World) → after_actions s (first ++ rest) w ≡ and_then (after_actions s first w) (after_actions s rest) }
{}

/// Laws of what stays unchanged: a step of a thread keeps the words of each chunk that is neither held by the thread,
/// nor free, nor accessed; a step of the world keeps every other live thread; a delivery changes one queue.
pub fn alone_laws()
    ensures chunks { (code : List ℕ) (l : Local) (chunk : ℕ) → IsApart code l chunk → KeepsChunk chunk l (local_step code l) }
    ensures threads { (s : Setting) (number : ℕ) (w : World) → w.running ≢ Some number → number ≢ w.next → KeepsThread number w (step s w) }
    ensures delivery { (s : Setting) (w : World) (delivery : Delivery) → delivered s w delivery ≡ record w { exchange = (delivered s w delivery).exchange } }
    ensures queues { (s : Setting) (w : World) (delivery : Delivery) → LeavesOtherQueues w.exchange delivery (delivered s w delivery).exchange }
{}
