ghost use Rattle.std.specs.Prelude.{◌≡◌, List, None, Some, ℕ};
ghost use Rattle.c_grammar.specs.Grammar.{IsProgram};
ghost use Rattle.c_tree.specs.WholeForParts.{AreForPartsWhole};
ghost use Rattle.c_lex.specs.Places.{StandInOrder};
ghost use Rattle.c_lex.specs.declared.tokens.Token.{Token};
ghost use Rattle.c_parse.specs.ForParts.{nested_in_fors};
ghost use Rattle.c_parse.specs.NestedCalls.{nested_in_items};
ghost use Rattle.c_tree.specs.RawTrees.{RawItemTree};
ghost use Rattle.c_tree.specs.WholeCalls.{AreCallsWhole};
ghost use Rattle.grammar_laws.specs.Nested.{IsFirstPlace, items_nested};
ghost use Rattle.decisions.specs.NestedFors.{items_for_nested};

/// Law: the call for which a program is refused, found in the order of its tree, is the first by place of all calls
/// that aren't whole; and none is found exactly if every call is whole.
pub fn first_nested_call()
    ensures first { (source : List ℕ) (tokens : List Token) (end : ℕ) (items : List RawItemTree)
        (at : ℕ) → StandInOrder 0 tokens end → IsProgram source tokens items →
        nested_in_items items ≡ Some at → IsFirstPlace (items_nested items) at }
    ensures none { (items : List RawItemTree) → AreCallsWhole items → nested_in_items items ≡ None }
    ensures whole { (items : List RawItemTree) → nested_in_items items ≡ None → AreCallsWhole items }
{}

/// Law: the same for the calls in the parentheses of a `for`.
pub fn first_nested_call_in_fors()
    ensures first { (source : List ℕ) (tokens : List Token) (end : ℕ) (items : List RawItemTree)
        (at : ℕ) → StandInOrder 0 tokens end → IsProgram source tokens items →
        nested_in_fors items ≡ Some at → IsFirstPlace (items_for_nested items) at }
    ensures none { (items : List RawItemTree) → AreForPartsWhole items → nested_in_fors items ≡ None }
    ensures whole { (items : List RawItemTree) → nested_in_fors items ≡ None → AreForPartsWhole items }
{}
