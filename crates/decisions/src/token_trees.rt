// All bytes are tokens, all tokens are a tree, and all trees are a program, or they are refused.
ghost use Rattle.std.specs.Prelude.{ℕ, ◌⊎◌, List};
ghost use Rattle.c_lex.specs.declared.tokens.Token.{Token};
ghost use Rattle.c_lex.specs.declared.tokens.LexError.{LexError};
ghost use Rattle.c_lex.specs.Tokens.{AreTokensOf, IsLexErrorOf};
ghost use Rattle.c_tree.specs.RawTrees.{RawItemTree};
ghost use Rattle.c_tree.specs.Trees.{ProgramTree};
ghost use Rattle.c_grammar.specs.declared.errors.ParseError.{ParseError};
ghost use Rattle.c_parse.specs.Parsed.{IsParsed, IsParseErrorOf, IsParsedNested, IsNestedErrorOf};
ghost use Rattle.scope_rules.specs.declared.errors.ScopeError.{ScopeError};
ghost use Rattle.scope_rules.specs.Outcomes.{IsResolved, IsRefused, IsNoMemory};

/// Law: every list of bytes splits into tokens, or leads to a place where none begins.
pub fn source_is_tokens_or_refused()
    ensures { (source : List ℕ) → ((tokens : List Token) × AreTokensOf source tokens) ⊎ ((error : LexError) × IsLexErrorOf source error) }
{}

/// Law: every list of tokens is a tree or is refused: if every call has to be whole, and if those in the parentheses of
/// a `for` have to be.
pub fn tokens_are_a_tree_or_refused()
    ensures whole { (source : List ℕ) (tokens : List Token) → ((tree : List RawItemTree) × IsParsed source tokens tree) ⊎ ((error : ParseError) × IsParseErrorOf source tokens error) }
    ensures nested { (source : List ℕ) (tokens : List Token) → ((tree : List RawItemTree) × IsParsedNested source tokens tree) ⊎ ((error : ParseError) × IsNestedErrorOf source tokens error) }
{}

/// Law: every tree is a program or is refused, and not because memory ran out.
pub fn tree_is_a_program_or_refused()
    ensures { (tree : List RawItemTree) → ((program : ProgramTree) × IsResolved tree program) ⊎ ((error : ScopeError) × IsNoMemory error × IsRefused tree error) }
{}
