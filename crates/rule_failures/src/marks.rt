ghost use Rattle.std.specs.Prelude.{◌≡◌, ℕ, ◌+◌, ◌*◌, ◌%◌, ◌<◌, ◌≤◌, ◌↔◌, IsTrue, length};
ghost use Rattle.certificate_rules.specs.Ranges.{AreApart};
ghost use Rattle.rule_failures.specs.Marks.{AreMarked};

// Marks the words of a range, which exist; returns false if one of them was marked before.
pub(crate) fn mark_run(marks: &mut [bool], start: usize, words: usize) -> bool
    requires { start + words ≤ length marks.old }
    ensures apart { (base n : ℕ) (starts runs : ℕ → ℕ) → base % 4 ≡ 0 → AreMarked base starts runs n marks.old → starts n ≡ base + 4 * start → runs n ≡ words →
        (IsTrue result ↔ ((y : ℕ) → y < n → AreApart (starts n) (runs n) (starts y) (runs y))) }
    ensures marked { (base n : ℕ) (starts runs : ℕ → ℕ) → base % 4 ≡ 0 → AreMarked base starts runs n marks.old → starts n ≡ base + 4 * start → runs n ≡ words →
        IsTrue result → AreMarked base starts runs (n + 1) marks.new }
{
    for word in start..start + words {
        if marks[word] {
            return false;
        }
        marks[word] = true;
    }
    true
}
