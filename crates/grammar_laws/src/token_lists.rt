// Laws of a list of tokens, by the grammar alone.
ghost use Rattle.std.specs.Prelude.{ℕ, ◌≡◌, List, Option};
ghost use Rattle.c_lex.specs.declared.tokens.Token.{Token};
ghost use Rattle.c_tree.specs.RawTrees.{RawItemTree};
ghost use Rattle.c_grammar.specs.declared.errors.ParseError.{ParseError};
ghost use Rattle.c_grammar.specs.Rests.{Any, Nearest};
ghost use Rattle.c_grammar.specs.Refusals.{CanBeTaken, AreWhole, Verdict, IsLeft};
ghost use Rattle.c_grammar.specs.Grammar.{IsProgram};

/// Law: a list of tokens has exactly one verdict: it is a program in which nothing is too deep, or it is Unexpected or
/// TooDeep at one place.
pub fn one_verdict()
    ensures some { (end : ℕ) (tokens : List Token) → (verdict : Option ParseError) × Verdict end tokens verdict }
    ensures only { (end : ℕ) (tokens : List Token) (verdict other : Option ParseError) →
        Verdict end tokens verdict → Verdict end tokens other → verdict ≡ other }
{}

/// Law: an `else` may always belong to the nearest `if` that can take it: tokens that can be taken in any way can be
/// taken in that way, and tokens that can be taken as a whole in any way can be taken as a whole in that way.
pub fn else_to_the_nearest()
    ensures taken { (tokens : List Token) → CanBeTaken tokens → IsLeft Nearest tokens }
    ensures whole { (tokens : List Token) → AreWhole Any tokens → AreWhole Nearest tokens }
{}

/// Law: the tokens of a source have at most one tree in which each `else` belongs to the nearest `if` that can take
/// it, and tokens with such a tree can be taken as a whole.
pub fn one_tree()
    ensures only { (source : List ℕ) (tokens : List Token) (items others : List RawItemTree) →
        IsProgram source tokens items → IsProgram source tokens others → items ≡ others }
    ensures whole { (source : List ℕ) (tokens : List Token) (items : List RawItemTree) →
        IsProgram source tokens items → AreWhole Nearest tokens }
{}
