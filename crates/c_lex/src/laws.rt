// Laws of a source and its tokens.
ghost use Rattle.std.specs.Prelude.{ℕ, ◌≡◌, List, length};
ghost use Rattle.std.specs.List.{AllByRecursion};
ghost use Rattle.c_lex.specs.declared.tokens.LexError.{LexError};
ghost use Rattle.c_lex.specs.declared.tokens.Token.{Token};
ghost use Rattle.c_lex.specs.Lexemes.{IsOfKind};
ghost use Rattle.c_lex.specs.Places.{StandInOrder, lexeme_of};
ghost use Rattle.c_lex.specs.Tokens.{AreTokensOf, IsLexErrorOf};

/// Law: a source has at most one list of tokens, at most one refusal, and never both.
pub fn reading_is_unique()
    ensures one_list { (source : List ℕ) (tokens others : List Token) →
        AreTokensOf source tokens → AreTokensOf source others → tokens ≡ others }
    ensures one_refusal { (source : List ℕ) (error other : LexError) →
        IsLexErrorOf source error → IsLexErrorOf source other → error ≡ other }
    ensures never_both { (source : List ℕ) (tokens : List Token) (error : LexError) →
        AreTokensOf source tokens → ¬ IsLexErrorOf source error }
{}

/// Law: the tokens of a source follow one another within it, and the bytes at a token's place are as its kind
/// says.
pub fn tokens_stand_in_source()
    ensures order { (source : List ℕ) (tokens : List Token) →
        AreTokensOf source tokens → StandInOrder 0 tokens (length source) }
    ensures spelled { (source : List ℕ) (tokens : List Token) →
        AreTokensOf source tokens → AllByRecursion (λ token. IsOfKind (lexeme_of source token) token.kind) tokens }
{}
