// Every source is a program or is refused.
ghost use Rattle.std.specs.Prelude.{ℕ, ◌<◌, ◌^◌, ◌⊎◌, List};
ghost use Rattle.std.specs.List.{AllByRecursion};
ghost use Rattle.c_tree.specs.Trees.{ProgramTree};
ghost use Rattle.c_tree.specs.WellScoped.{IsWellScoped};
ghost use Rattle.c_scope.specs.declared.source_errors.SourceError.{SourceError};
ghost use Rattle.c_hoist.specs.NestedText.{ReadsNested, IsNestedSourceErrorOf};

/// Law: every source is a program, which is well scoped, or has a refusal.
pub fn source_is_read_or_refused()
    ensures { (source : List ℕ) → ((program : ProgramTree) × ReadsNested source program × IsWellScoped program) ⊎ ((error : SourceError) × IsNestedSourceErrorOf source error) }
{}

/// Law: each global of a program as which a source is read starts with a word.
pub fn globals_start_with_words()
    ensures { (source : List ℕ) (program : ProgramTree) → ReadsNested source program →
        AllByRecursion (λ g. g.start < 2 ^ 32) program.globals }
{}
