ghost use Rattle.std.specs.Prelude.{◌≡◌, ◌≢◌, ◌++◌, ◌∷◌, [], List, Some, ℕ};
ghost use Rattle.std.specs.List.{AllByRecursion};
ghost use Rattle.chunk_pool.specs.Pool.{Pool, Taken, chunk_of, taken_for};
ghost use Rattle.machine_world.specs.Counted.{IsCounted};
ghost use Rattle.machine_world.specs.Held.{copies_in};
ghost use Rattle.machine_world.specs.Local.{with_header};
ghost use Rattle.machine_world.specs.Threads.{Thread, World, replaced, thread_of, without, local_in};

/// Laws of the other threads. If a segment of one thread keeps the chunks that are neither its own nor free, and if a
/// chunk is taken for a new thread, the chunks of each other thread keep their words. Of two threads with one number
/// that are written one after the other, the last is found; one that is written and removed is gone; and one that is
/// written keeps its place when another thread joins at the end.
pub fn others_laws()
    ensures segment { (w : World) (number other : ℕ) (t o : Thread) (after : Pool) → IsCounted w → thread_of w number ≡ Some t → thread_of w other ≡ Some o → other ≢ number →
        ((chunk : ℕ) → copies_in chunk (local_in w t) ≡ 0 → chunk_of after chunk ≡ chunk_of w.areas.pool chunk) → AllByRecursion (λ chunk. chunk_of after chunk ≡ chunk_of w.areas.pool chunk) o.core.chain }
    ensures start { (w : World) (other need tp_now sp_now : ℕ) (o : Thread) (taken : Taken) → IsCounted w → thread_of w other ≡ Some o → taken_for w.areas.pool need ≡ Some taken →
        AllByRecursion (λ chunk. chunk_of (with_header taken.pool taken.chunk tp_now sp_now) chunk ≡ chunk_of w.areas.pool chunk) o.core.chain }
    ensures twice { (a b : Thread) (threads : List Thread) → a.number ≡ b.number → replaced a (replaced b threads) ≡ replaced a threads }
    ensures gone { (b : Thread) (threads : List Thread) → without b.number (replaced b threads) ≡ without b.number threads }
    ensures joined { (a new : Thread) (threads : List Thread) → new.number ≢ a.number → replaced a (threads ++ new ∷ []) ≡ replaced a threads ++ new ∷ [] }
{}
