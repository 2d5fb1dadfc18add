// The names in scope, as a map from a name to its meaning and a list of the meanings that declarations hid.

ghost use Rattle.std.specs.Prelude.{◌≡◌, ◌<◌, ◌≤◌, ◌-◌, List, [], ◌∷◌, map, reverse, length, drop, Some, IfSome, IfOk, OnOk};
ghost use Rattle.scope_rules.specs.Names.{Binding, find, binding_of, AreLinked, Finds, IsThere, Changes, bound, is_fixed};

use crate::meanings::{Found, Meaning};
use std::alloc::{AllocError, Global};
use std::collections::BTreeMap;
use std::marker::Model;

// How many of the latest names are compared with a name before it is looked up in the map. Most names that the
// rewriting of calls inside expressions declares are used right behind their declarations.
const RECENT: usize = 4;

// A name that was declared, and its meaning before.
#[derive(Drop)]
pub struct Declared {
    text: Vec<u8>,
    found: Found,
    hidden: Option<Found>,
}

// Restores the earlier meaning of a name in the map, if it had one.
fn restore(found: &mut BTreeMap<Vec<u8>, Found>, text: Vec<u8>, hidden: Option<Found>)
    requires { IsThere text.items found.old }
    ensures { Changes text.items found.old found.new hidden }
{
    match hidden {
        Some(earlier) => match found.insert(text, earlier) {
            Ok(_) => {}
            Err(_) => {}
        },
        None => {
            found.remove(text.as_slice());
        }
    }
}

// Whether a name with this meaning can't be declared.
fn is_fixed(found: Option<Found>) -> bool
    ensures { result ≡ is_fixed found }
{
    match found {
        Some(found) => found.meaning.is_modelled(),
        None => false,
    }
}

/// The names in scope, the latest first. It owns their texts, so the tree that contains them can be freed.
#[derive(Drop)]
pub struct Names {
    alloc: Global,
    declared: Vec<Declared>,
    found: BTreeMap<Vec<u8>, Found>,
}

impl Model for Names {
    ghost Value = { List Binding };

    ghost view = { λ n. map binding_of (reverse n.declared.items) };

    ghost invariant = { λ n. AreLinked (reverse n.declared.items) × Finds n.found (map binding_of (reverse n.declared.items)) };
}

impl Names {
    /// Returns an empty list of names.
    pub fn new(alloc: Global) -> Names
        ensures { result ≡ [] }
    {
        Names {
            alloc,
            declared: Vec::new(alloc),
            found: BTreeMap::new(alloc),
        }
    }

    /// Returns the number of names.
    pub fn len(&self) -> usize
        ensures { result ≡ length self.now }
    {
        self.declared.len()
    }

    // Returns the meaning of a name, if it is among the latest.
    fn find_recent(&self, text: &[u8]) -> Option<Found>
        ensures { IfSome result (λ found. find text.now self.now ≡ Some found) }
    {
        let mut left = self.declared.len();
        let others = left.saturating_sub(RECENT);
        while others < left {
            left -= 1;
            let latest = &self.declared[left];
            if latest.text.as_slice() == text {
                return Some(latest.found);
            }
        }
        None
    }

    /// Returns the meaning of a name, if it is in scope.
    pub fn find(&self, text: &[u8]) -> Option<Found>
        ensures { result ≡ find text.now self.now }
    {
        match self.find_recent(text) {
            Some(found) => Some(found),
            None => self.found.get(text).copied(),
        }
    }

    /// Declares a name, which hides its earlier meaning, and returns that meaning.
    pub fn declare(&mut self, text: &[u8], meaning: Meaning) -> Result<Option<Found>, AllocError>
        ensures names { OnOk result (self.new ≡ record { text = text.now; meaning = meaning } ∷ self.old) }
        ensures earlier { IfOk result (λ earlier. earlier ≡ find text.now self.old) }
    {
        let key = Vec::from_slice(self.alloc, text)?;
        let text = Vec::from_slice(self.alloc, text)?;
        self.declared.reserve(1)?;
        let found = Found {
            position: self.declared.len(),
            meaning,
        };
        let hidden = self.found.insert(key, found)?;
        self.declared.push(Declared {
            text,
            found,
            hidden,
        })?;
        Ok(hidden)
    }

    /// Returns these names and one more, which hides its earlier meaning.
    pub fn with(mut self, text: &[u8], meaning: Meaning) -> Result<Names, AllocError>
        ensures { IfOk result (λ names. names ≡ record { text = text.now; meaning = meaning } ∷ self) }
    {
        self.declare(text, meaning)?;
        Ok(self)
    }

    // Removes the latest name.
    fn forget(&mut self)
        requires { 0 < length self.old }
        ensures { self.new ≡ drop 1 self.old }
    {
        if let Some(last) = self.declared.pop() {
            let Declared { text, hidden, .. } = last;
            restore(&mut self.found, text, hidden);
        }
    }

    /// Declares a name, unless it is that of a modelled call, which keeps its meaning. Returns the earlier meaning.
    pub fn bind(&mut self, text: &[u8], meaning: Meaning) -> Result<Option<Found>, AllocError>
        ensures names { OnOk result (self.new ≡ bound self.old text.now meaning) }
        ensures earlier { IfOk result (λ earlier. earlier ≡ find text.now self.old) }
    {
        let earlier = self.declare(text, meaning)?;
        if is_fixed(earlier) {
            self.forget();
        }
        Ok(earlier)
    }

    /// Removes names until `count` are left.
    pub fn leave(&mut self, count: usize)
        ensures { self.new ≡ drop (length self.old - count) self.old }
    {
        while self.len() > count {
            self.forget();
        }
    }
}
