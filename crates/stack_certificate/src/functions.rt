ghost use Rattle.std.specs.Prelude.{◌≡◌, length};

use cap_word::Words;
use std::marker::Model;

/// Claims about a function's machine code.
#[derive(Drop)]
pub struct FunctionFact {
    /// The address of its first word.
    pub entry: u32,
    /// The number of its words.
    pub words: u32,
    /// The size of its frame in bytes.
    pub frame: u32,
    /// The offset of the return address in the frame, in bytes.
    pub ra: u32,
    /// Its bound: the maximum number of bytes that it needs up to the next linked call, including its
    /// own frame.
    pub bound: u32,
    /// The offset of each variable in the frame, in bytes.
    pub places: Words,
}

/// A fact of each function, in order of numbers. Contracts see it as the list of them. It is made from a
/// `Vec` without taking memory.
#[derive(Drop)]
pub struct FunctionFacts {
    facts: Vec<FunctionFact>,
}

impl Model for FunctionFacts {
    ghost use Rattle.std.specs.Prelude.{List};
    ghost use Rattle.stack_certificate.specs.declared.functions.FunctionFact.{FunctionFact};

    ghost Value = { List FunctionFact };

    ghost view = { λ list. list.facts.items };
}

impl FunctionFacts {
    /// Returns the list of these facts. It doesn't allocate.
    pub fn new(facts: Vec<FunctionFact>) -> FunctionFacts
        ensures { result ≡ facts.items }
    {
        FunctionFacts { facts }
    }

    /// Returns the facts, in the `Vec` that holds them. It doesn't allocate.
    pub fn into_vec(self) -> Vec<FunctionFact>
        ensures { result.items ≡ self }
    {
        self.facts
    }

    /// The facts, in order.
    pub fn as_slice(&self) -> &[FunctionFact]
        ensures { result.now ≡ self.now }
    {
        self.facts.as_slice()
    }

    /// Returns the number of facts.
    pub fn len(&self) -> usize
        ensures { result ≡ length self.now }
    {
        self.facts.len()
    }
}
