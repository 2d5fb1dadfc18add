// The size of what is built from the workload.
ghost use Rattle.std.specs.Prelude.{ℕ, ◌≤◌};
ghost use Rattle.c_tree.specs.Trees.{ProgramTree};
ghost use Rattle.c_scope.specs.SourceText.{ReadsAs};
ghost use Rattle.workload.specs.Programs.{program_text};
ghost use Rattle.workload.specs.Sizes.{HasFittingSizes};

/// Law: any program as which the source of the workload of n, from 1 to 1,000, is read has no frame above 2,032 bytes
/// and at most 200,000 words of code, whatever the placement.
pub fn workload_is_built()
    ensures { (n : ℕ) → 1 ≤ n → n ≤ 1000 → (program : ProgramTree) → ReadsAs (program_text n) program → HasFittingSizes program }
{}
