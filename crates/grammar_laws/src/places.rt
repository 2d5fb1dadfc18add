ghost use Rattle.std.specs.Prelude.{Bool, List, ℕ};
ghost use Rattle.c_grammar.specs.Grammar.{IsProgram};
ghost use Rattle.c_lex.specs.Places.{StandInOrder};
ghost use Rattle.c_lex.specs.declared.tokens.Token.{Token};
ghost use Rattle.c_tree.specs.RawTrees.{RawItemTree};
ghost use Rattle.c_tree.specs.TextOrder.{counting};
ghost use Rattle.c_tree.specs.WellScoped.{AreSiteNumbers};
ghost use Rattle.grammar_laws.specs.Places.{Standing, items_places};
ghost use Rattle.grammar_laws.specs.Ranks.{ranks};
ghost use Rattle.grammar_laws.specs.Rising.{RiseWithin};

/// Law: if the tokens of a program are in order up to an end, the places of its names, of its calls, and of its
/// `break`, `continue` and `return`, whichever of these are listed, strictly increase in the order of its tree, up to
/// that end.
pub fn places_rise()
    ensures { (source : List ℕ) (tokens : List Token) (end : ℕ) (items : List RawItemTree)
        (meant : Standing → Bool) → StandInOrder 0 tokens end → IsProgram source tokens items →
        RiseWithin 0 (items_places meant items) end }
{}

/// Law: the ranks of places are numbers of calls, all different and below their count; if the places increase, their
/// ranks are their positions.
pub fn ranks_are_numbers()
    ensures numbers { (places : List ℕ) → AreSiteNumbers (ranks places) }
    ensures rising { (places : List ℕ) (end : ℕ) → RiseWithin 0 places end → counting 0 (ranks places) }
{}
