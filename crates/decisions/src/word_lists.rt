// Every list of words is a word list or isn't.
ghost use Rattle.std.specs.Prelude.{ℕ, ◌⊎◌, List};
ghost use Rattle.command_words.specs.WordList.{Request, IsWordList};

/// Law: every list of words asks for a command, or for none.
pub fn words_are_a_list_or_none()
    ensures { (words : List (List ℕ)) → ((request : Request) × IsWordList words request) ⊎ ((request : Request) → ¬ IsWordList words request) }
{}
