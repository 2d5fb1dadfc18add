ghost use Rattle.std.specs.Prelude.{◌≡◌, length};

use std::marker::Model;

/// The link kind of a call: how its callee gets stack space.
#[derive(Clone, Copy, PartialEq, Eq)]
pub enum LinkKind {
    /// The callee uses the caller's chunk.
    Plain,
    /// A new chunk is linked if the caller's has fewer free bytes than `need`.
    Linked { need: u32 },
    /// A new thread starts in a new chunk, of which it needs at most `need` bytes.
    Spawned { need: u32 },
}

/// Claims about a call site, by its number.
#[derive(Clone, Copy, PartialEq, Eq)]
pub struct SiteFact {
    pub number: u32,
    pub kind: LinkKind,
}

/// A fact of each site. Contracts see it as the list of them. It is made from a `Vec` without taking
/// memory.
#[derive(Drop)]
pub struct SiteFacts {
    facts: Vec<SiteFact>,
}

impl Model for SiteFacts {
    ghost use Rattle.std.specs.Prelude.{List};
    ghost use Rattle.stack_certificate.specs.declared.sites.SiteFact.{SiteFact};

    ghost Value = { List SiteFact };

    ghost view = { λ list. list.facts.items };
}

impl SiteFacts {
    /// Returns the list of these facts. It doesn't allocate.
    pub fn new(facts: Vec<SiteFact>) -> SiteFacts
        ensures { result ≡ facts.items }
    {
        SiteFacts { facts }
    }

    /// Returns the facts, in the `Vec` that holds them. It doesn't allocate.
    pub fn into_vec(self) -> Vec<SiteFact>
        ensures { result.items ≡ self }
    {
        self.facts
    }

    /// The facts, in order.
    pub fn as_slice(&self) -> &[SiteFact]
        ensures { result.now ≡ self.now }
    {
        self.facts.as_slice()
    }

    /// Returns the number of facts.
    pub fn len(&self) -> usize
        ensures { result ≡ length self.now }
    {
        self.facts.len()
    }
}
