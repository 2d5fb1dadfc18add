ghost use Rattle.std.specs.Prelude.{◌≡◌, ◌==◌, length, nat_eq};
ghost use Rattle.std.specs.Cmp.Lexicographic.{pointwise, nat_list_eq_equiv};
ghost use Rattle.std.specs.Cmp.{partial_equiv_from_equiv};

use std::marker::Model;

/// A list of words: instruction words, starting values, places, arguments. Contracts see it as the list
/// of its numbers, so that two of them are equal where these lists are, whatever their capacity. It is
/// made from a `Vec` without taking memory.
#[derive(Drop)]
pub struct Words {
    words: Vec<u32>,
}

impl Model for Words {
    ghost use Rattle.std.specs.Prelude.{ℕ, List};

    ghost Value = { List ℕ };

    ghost view = { λ list. list.words.items };
}

impl Words {
    /// Returns the list of these words. It doesn't allocate.
    pub fn new(words: Vec<u32>) -> Words
        ensures { result ≡ words.items }
    {
        Words { words }
    }

    /// Returns the words, in the `Vec` that holds them. It doesn't allocate.
    pub fn into_vec(self) -> Vec<u32>
        ensures { result.items ≡ self }
    {
        self.words
    }

    /// The words, in order.
    pub fn as_slice(&self) -> &[u32]
        ensures { result.now ≡ self.now }
    {
        self.words.as_slice()
    }

    /// Returns the number of words.
    pub fn len(&self) -> usize
        ensures { result ≡ length self.now }
    {
        self.words.len()
    }

    /// Returns whether the list is empty.
    pub fn is_empty(&self) -> bool
        ensures { result ≡ (length self.now == 0) }
    {
        self.words.is_empty()
    }
}

impl PartialEq for Words {
    ghost eq = { pointwise nat_eq };

    ghost laws = { partial_equiv_from_equiv nat_list_eq_equiv };

    fn eq(&self, other: &Words) -> bool {
        self.as_slice() == other.as_slice()
    }
}

impl Eq for Words {
    ghost laws = { nat_list_eq_equiv };
}
