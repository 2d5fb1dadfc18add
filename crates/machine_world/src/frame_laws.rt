ghost use Rattle.std.specs.Prelude.{ℕ, ◌+◌, ◌≤◌, List, length};
ghost use Rattle.chunk_pool.specs.Pool.{Pool};
ghost use Rattle.machine_world.specs.InPlace.{Frame, HasFrames};
ghost use Rattle.machine_world.specs.Keys.{called_at_links, chunk_ahead};
ghost use Rattle.machine_world.specs.Local.{Core};
ghost use Rattle.machine_world.specs.Places.{Checked, Place, row_of};

/// Law: the chain of a thread in place has at most one chunk, one more for each of its frames that was called at a
/// linked site, and one more while a linked chunk has no frame yet or no longer has one.
pub fn chain_law()
    ensures { (c : Checked) (pool : Pool) (core : Core) (place : Place) (frames : List Frame) → HasFrames c pool core place frames →
        length core.chain ≤ 1 + called_at_links c frames + chunk_ahead (row_of c place) }
{}
