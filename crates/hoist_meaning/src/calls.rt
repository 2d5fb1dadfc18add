ghost use Rattle.std.specs.Prelude.{◌≡◌, [], List, length, ℕ};
ghost use Rattle.c_tree.specs.RawTrees.{RawItemTree};
ghost use Rattle.grammar_laws.specs.Nested.{is_call};
ghost use Rattle.grammar_laws.specs.Places.{items_places};
ghost use Rattle.grammar_laws.specs.Ranks.{site_numbers};
ghost use Rattle.grammar_laws.specs.Rising.{RiseWithin};
ghost use Rattle.hoist_meaning.specs.CallPlaces.{StandsAt, times};
ghost use Rattle.hoist_meaning.specs.SpawnArguments.{AreItemsPlain};
ghost use Rattle.hoist_parts.specs.Statements.{items_hoisted};
ghost use Rattle.scope_rules.specs.Items.{faults_of};

/// Law: if no first argument of a `spawn` contains a call, the calls of a rewritten source are those of the text: the
/// same number at each place, and so the same number in all.
pub fn calls_stay()
    ensures each { (items : List RawItemTree) (at : ℕ) → AreItemsPlain items → times at (items_places is_call (items_hoisted items)) ≡ times at (items_places is_call items) }
    ensures many { (items : List RawItemTree) → AreItemsPlain items → length (items_places is_call (items_hoisted items)) ≡ length (items_places is_call items) }
{}

/// Law: if, in addition, the places of the text's calls increase up to an end, as those of a source do, each call of
/// the rewritten source gets its number in the order of the text: if the j-th call of the rewritten source and the k-th
/// of the text are at the same place, the number is k.
pub fn calls_keep_numbers()
    ensures { (items : List RawItemTree) (end at j k : ℕ) → AreItemsPlain items → RiseWithin 0 (items_places is_call items) end →
        StandsAt (items_places is_call (items_hoisted items)) j at → StandsAt (items_places is_call items) k at → StandsAt (site_numbers (items_hoisted items)) j k }
{}

/// Law: a text whose rewritten source breaks no rule of scope, such as each source that is read, has no call in the
/// first argument of a `spawn`: such an argument isn't a name alone in the rewritten source either.
pub fn spawned_functions_are_names()
    ensures { (items : List RawItemTree) → faults_of (items_hoisted items) ≡ [] → AreItemsPlain items }
{}
