ghost use Rattle.std.specs.Prelude.{◌≡◌, ◌≤◌, ◌<◌, length, slice_index, nat_eq};
ghost use Rattle.std.specs.Cmp.Lexicographic.{pointwise, nat_list_eq_equiv};
ghost use Rattle.std.specs.Cmp.{partial_equiv_from_equiv};
ghost use Rattle.std.specs.Cmp.Rules.{hashing};
ghost use Rattle.std.proofs.Common.{rules};
ghost use Rattle.std.specs.Hash as fed;

use std::hash::{Hash, Hasher};
use std::marker::Model;

/// Where a thread blocked: the site of the blocking call, followed by the sites of up to seven
/// innermost calls that led to it, innermost first. A key is the list of its one to eight sites.
#[derive(Clone, Copy)]
pub struct SiteKey {
    used: u32,
    places: [u32; 8],
}

impl Model for SiteKey {
    ghost use Rattle.std.specs.Prelude.{◌≡◌, ℕ, ◌-◌, ◌≤◌, List, length, take, drop, replicate, refl};
    ghost use Rattle.cap_word.specs.SiteKey.{places_of, length-take-used, places_of-take};

    ghost Value = { List ℕ };

    ghost view = { λ key. take key.used key.places };

    ghost invariant = { λ key. (1 ≤ key.used) × (key.used ≤ 8) × (length key.places ≡ 8) × (drop key.used key.places ≡ replicate (8 - key.used) 0) };

    ghost inverse = { λ sites. record { used = length sites; places = places_of sites } };

    ghost inverse_ok = { λ key holds. rw (places_of-take key.used key.places holds.1 holds.2 holds.3, length-take-used key.used key.places holds.1 holds.2) };
}

impl SiteKey {
    /// The maximum number of sites of a key.
    pub const MOST: usize = 8;

    /// Returns the key of these sites, innermost first.
    pub fn new(sites: &[u32]) -> SiteKey
        requires some { 1 ≤ length sites.now }
        requires fits { length sites.now ≤ 8 }
        ensures { result ≡ sites.now }
    {
        let mut places = [0; 8];
        places[..sites.len()].copy_from_slice(sites);
        SiteKey {
            used: sites.len() as u32,
            places,
        }
    }

    /// Returns the number of sites, from 1 to 8.
    pub fn length(&self) -> u32
        ensures count { result ≡ length self.now }
        ensures some { 1 ≤ result }
        ensures most { result ≤ 8 }
    {
        self.used
    }

    /// Returns the site at this index, counted from 0; the innermost comes first.
    pub fn site(&self, index: u32) -> u32
        requires { index < length self.now }
        ensures { result ≡ slice_index self.now index }
    {
        self.places[index as usize]
    }

    /// Returns the sites, innermost first.
    pub fn sites(&self) -> &[u32]
        ensures all { result.now ≡ self.now }
        ensures some { 1 ≤ length result.now }
        ensures most { length result.now ≤ 8 }
    {
        &self.places[..self.used as usize]
    }
}

impl PartialEq for SiteKey {
    ghost eq = { pointwise nat_eq };

    ghost laws = { partial_equiv_from_equiv nat_list_eq_equiv };

    fn eq(&self, other: &SiteKey) -> bool {
        self.sites() == other.sites()
    }
}

impl Eq for SiteKey {
    ghost laws = { nat_list_eq_equiv };
}

impl Hash for SiteKey {
    ghost hash_input = { fed.slice fed.u32 };

    ghost respects_eq = { Prim.search (hashing, rules) };

    fn hash<H: Hasher>(&self, state: &mut H) {
        self.sites().hash(state);
    }
}
