ghost use Rattle.std.specs.Prelude.{List, ℕ};
ghost use Rattle.c_tree.specs.Trees.{ProgramTree};
ghost use Rattle.c_scope.specs.SourceText.{ReadsAs};
ghost use Rattle.c_hoist.specs.NestedText.{ReadsNested};

/// Law: a source in which every call is whole is read as the same program as by `c_scope`, with the same numbers of its
/// calls. It has no effect at run time.
pub fn whole_sources_read_alike()
    ensures { (source : List ℕ) (program : ProgramTree) → ReadsAs source program → ReadsNested source program }
{}
