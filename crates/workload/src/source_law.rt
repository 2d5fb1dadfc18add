// The source of the workload reads as a program.
ghost use Rattle.std.specs.Prelude.{ℕ, ◌≤◌};
ghost use Rattle.c_tree.specs.Trees.{ProgramTree};
ghost use Rattle.c_scope.specs.SourceText.{ReadsAs};
ghost use Rattle.workload.specs.Programs.{program_text};

/// Law: the source of the workload of n, from 1 to 1,000, reads as a program. Its bytes are tokens, and the tokens are
/// a tree in which nothing is nested too deeply and every call is whole. The tree breaks no rule of scope, defines
/// `main` and exceeds no limit.
pub fn program_is_read()
    ensures { (n : ℕ) → 1 ≤ n → n ≤ 1000 → (program : ProgramTree) × ReadsAs (program_text n) program }
{}
