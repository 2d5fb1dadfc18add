ghost use Rattle.std.specs.Prelude.{◌≡◌};
ghost use Rattle.c_mean.specs.Frames.{Waiting, key_of};
ghost use Rattle.c_tree.specs.Trees.{ProgramTree};
ghost use Rattle.chunk_pool.specs.Pool.{Pool};
ghost use Rattle.machine_world.specs.Local.{Core};
ghost use Rattle.machine_world.specs.Places.{Checked};
ghost use Rattle.machine_world.specs.Rests.{IsResting};
ghost use Rattle.machine_world.specs.StandsFor.{StandsFor, Waits};
ghost use Rattle.machine_meaning.specs.Between.{resting_key};

/// Law: the site at which a machine thread rests, followed by the sites of its up to seven innermost waiting frames, is
/// the key of each source thread for which it stands.
pub fn key_law()
    ensures { (c : Checked) (program : ProgramTree) (pool : Pool) (core : Core) (rests : IsResting c pool core) (waiting : Waiting) →
        StandsFor c program pool core rests (Waits waiting) → resting_key c pool core rests ≡ key_of waiting }
{}
