// Properties of every list of words. A law has no effect at run time: its contract is the theorem.
ghost use Rattle.std.specs.Prelude.{◌≡◌, ℕ, List};
ghost use Rattle.command_words.specs.WordList.{Request, IsWordList};

/// Law: a list of words asks for at most one command.
pub fn words_ask_for_one_command()
    ensures { (words : List (List ℕ)) (a b : Request) → IsWordList words a → IsWordList words b → a ≡ b }
{}
