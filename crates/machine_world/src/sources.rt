ghost use Rattle.std.specs.Prelude.{◌≡◌, []};
ghost use Rattle.cap_word.specs.Runs.{Goes};
ghost use Rattle.c_mean.specs.Examples.{recursion};
ghost use Rattle.machine_world.specs.Descending.{checked, at_entry};
ghost use Rattle.machine_world.specs.DescendingSource.{main_after, entering, entering_thread, local_at};
ghost use Rattle.machine_world.specs.StandsFor.{StandsForThread};

/// Law: the program that links one chunk, compared with its source. After five source steps `f(0)` is entered, and the
/// machine thread at the callee's first word, in its new chunk, stands for the source thread there.
pub fn source_example()
    ensures entered { main_after 5 ≡ Goes entering }
    ensures stands { StandsForThread checked recursion (local_at at_entry) entering_thread [] }
{}
