ghost use Rattle.std.specs.Prelude.{◌≡◌, ℕ, List, Some, None, slice_get};
ghost use Rattle.cap_word.specs.Runs.{Goes, Stops};
ghost use Rattle.c_tree.specs.Trees.{ProgramTree};
ghost use Rattle.c_mean.specs.World.{World, Segment, Rested, thread_moves};
ghost use Rattle.machine_meaning.specs.Firsts.{IsUnderWayFrom, RestsFrom};

/// Law: after any number of steps of its segment, a thread is still of the function with which it started, and the
/// threads that existed before rest as they did.
pub fn segment_root_law()
    ensures { (program : ProgramTree) (caps : List ℕ) (start : World) (number n : ℕ) (segment : Segment) →
        thread_moves program caps start number n ≡ Some (Goes segment) → IsUnderWayFrom start number segment }
{}

/// Law: a thread that comes to rest from a segment is of the function with which it started, and the threads that
/// existed before rest as they did.
pub fn rest_root_law()
    ensures { (program : ProgramTree) (caps : List ℕ) (start : World) (number n k : ℕ) (segment : Segment) (rested : Rested) →
        thread_moves program caps start number n ≡ Some (Goes segment) → thread_moves program caps start number k ≡ Some (Stops rested) → rested.trap ≡ None →
        RestsFrom segment rested.world }
{}
