ghost use Rattle.std.specs.Prelude.{◌≡◌, List, length, sum, ℕ};
ghost use Rattle.c_lower.specs.ProgramCode.{lowered};
ghost use Rattle.c_tree.specs.Trees.{ProgramTree};
ghost use Rattle.c_tree.specs.WellScoped.{IsWellScoped};
ghost use Rattle.certificate_rules.specs.Validity.{IsValid};
ghost use Rattle.chunk_pool.specs.Pool.{Pool};
ghost use Rattle.flat_code.specs.Codes.{FlatCode};
ghost use Rattle.machine_world.specs.Globals.{AreGlobals, global_widths};
ghost use Rattle.machine_world.specs.Local.{Core};
ghost use Rattle.machine_world.specs.Places.{Checked};
ghost use Rattle.machine_world.specs.Rests.{IsResting};
ghost use Rattle.machine_world.specs.StandsFor.{SourceThread, StandsFor};
ghost use Rattle.stack_image.specs.declared.images.Image.{Image};

/// Law: each machine thread that rests stands for some source thread of the program, and global words of the declared
/// number are the words of some globals. So where a law on a thread that stands for a source thread concerns only the
/// machine, that premise can be dropped.
pub fn somewhere_law()
    ensures thread { (program : ProgramTree) (c : Checked) (image : Image) (pool : Pool) (core : Core) (rests : IsResting c pool core) → IsWellScoped program → c.flat ≡ lowered program → IsValid c.flat image c.certificate →
        (thread : SourceThread) × StandsFor c program pool core rests thread }
    ensures globals { (code : FlatCode) (words : List ℕ) → length words ≡ sum (global_widths code) → (rows : List (List ℕ)) × AreGlobals code rows words }
{}
