ghost use Rattle.std.specs.Prelude.{List, ℕ};
ghost use Rattle.c_grammar.specs.Grammar.{IsProgram};
ghost use Rattle.c_lex.specs.Tokens.{AreTokensOf};
ghost use Rattle.c_lex.specs.declared.tokens.Token.{Token};
ghost use Rattle.c_tree.specs.WholeForParts.{AreForPartsWhole};
ghost use Rattle.c_tree.specs.RawTrees.{RawItemTree};
ghost use Rattle.c_tree.specs.Trees.{ProgramTree};
ghost use Rattle.c_tree.specs.WellScoped.{IsWellScoped};
ghost use Rattle.deep_mean.specs.Naming.{deep_program};
ghost use Rattle.grammar_laws.specs.Nested.{is_call};
ghost use Rattle.grammar_laws.specs.Places.{items_places};
ghost use Rattle.grammar_laws.specs.Ranks.{site_numbers};
ghost use Rattle.grammar_laws.specs.Rising.{RiseWithin};
ghost use Rattle.hoist_meaning.specs.SameRuns.{RunsTheSame};
ghost use Rattle.hoist_meaning.specs.SourceNames.{AreItemsNamed};
ghost use Rattle.hoist_parts.specs.Statements.{items_hoisted};
ghost use Rattle.scope_rules.specs.Numbered.{IsResolvedBy};

/// Law: if every call in the parentheses of a `for` is whole, no name begins with a digit, and the places of calls
/// increase in the order of the tree, the well-scoped program of the rewritten tree, with its calls numbered by their
/// names' places, does what the text does.
pub fn rewritten_sources_mean_the_same()
    ensures { (items : List RawItemTree) (end : ℕ) (program : ProgramTree) → AreForPartsWhole items → AreItemsNamed items →
        RiseWithin 0 (items_places is_call items) end → IsResolvedBy (site_numbers (items_hoisted items)) (items_hoisted items) program →
        IsWellScoped program → RunsTheSame program (deep_program items) }
{}

/// Law: no name of a source that is read begins with a digit.
pub fn names_begin_with_letters()
    ensures { (source : List ℕ) (tokens : List Token) (items : List RawItemTree) →
        AreTokensOf source tokens → IsProgram source tokens items → AreItemsNamed items }
{}
