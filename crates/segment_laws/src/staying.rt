ghost use Rattle.std.specs.Prelude.{List, Option, ℕ};
ghost use Rattle.chunk_pool.specs.Pool.{Pool};
ghost use Rattle.machine_world.specs.InPlace.{Frame, HasFrames};
ghost use Rattle.machine_world.specs.Local.{Core};
ghost use Rattle.machine_world.specs.Places.{Checked, Place};
ghost use Rattle.machine_world.specs.Rests.{IsResting};
ghost use Rattle.machine_world.specs.StandsForWorld.{IsPast};
ghost use Rattle.segment_laws.specs.Kept.{KeepsChunks, KeepsStack, RestsOn};

/// Laws of a thread whose chunks keep their words. It stays in place with the same frames, even if registers other than
/// those of its stack change. If it rests, it rests as before, and stands for each thread of source and of flat code
/// for which it stood; just after an ECALL, also if registers other than those of its stack change, as by a result.
pub fn staying_laws()
    ensures frames { (c : Checked) (pool after : Pool) (core core_now : Core) (place : Place) (frames : List Frame) → KeepsChunks pool after core.chain → KeepsStack core core_now →
        HasFrames c pool core place frames → HasFrames c after core_now place frames }
    ensures rests { (c : Checked) (pool after : Pool) (core : Core) (rests : IsResting c pool core) → KeepsChunks pool after core.chain → RestsOn c pool core rests after core }
    ensures answered { (c : Checked) (pool after : Pool) (core core_now : Core) (rests : IsResting c pool core) → KeepsChunks pool after core.chain → KeepsStack core core_now → IsPast c pool core rests →
        RestsOn c pool core rests after core_now }
{}
