// Laws of numbers, lines and fields as bytes.
ghost use Rattle.std.specs.Prelude.{◌≡◌, ◌≢◌, ℕ, ℤ, pos, List, ◌∷◌, ◌++◌, ◌+◌, ◌*◌, ◌^◌, ◌<◌, ◌≤◌, length};
ghost use Rattle.std.specs.List.{AllByRecursion};
ghost use Rattle.cap_text.specs.Decimals.{canonical_decimal, canonical_integer};
ghost use Rattle.cap_text.specs.Pieces.{pieces, Lacks, after_each};
ghost use Rattle.cap_text.specs.TextLines.{lines_of, ended_lines};

/// Law: a number has one canonical decimal and a canonical decimal one number; a number below 10 to the power of
/// `digits` has at most that many digits.
pub fn numbers_have_one_decimal()
    ensures decimal { (m n : ℕ) → canonical_decimal m ≡ canonical_decimal n → m ≡ n }
    ensures integer { (y z : ℤ) → canonical_integer y ≡ canonical_integer z → y ≡ z }
    ensures length { (n digits : ℕ) → 0 < digits → n < 10 ^ digits → length (canonical_decimal n) ≤ digits }
{}

/// Law: a text is its pieces joined by the separator, and no piece contains the separator; fields without the
/// separator are the pieces of their text. So different lists of such fields have different texts.
pub fn fields_are_pieces()
    ensures apart { (separator : ℕ) (text : List ℕ) → AllByRecursion (Lacks separator) (pieces separator text) }
    ensures text { (separator : ℕ) (text first : List ℕ) (fields : List (List ℕ)) →
        pieces separator text ≡ first ∷ fields → text ≡ first ++ after_each separator fields }
    ensures back { (separator : ℕ) (first : List ℕ) (fields : List (List ℕ)) →
        AllByRecursion (Lacks separator) (first ∷ fields) →
        pieces separator (first ++ after_each separator fields) ≡ first ∷ fields }
{}

/// Law: lines without a line feed, each followed by one, are the lines of their text.
pub fn lines_come_back()
    ensures { (lines : List (List ℕ)) → AllByRecursion (Lacks 10) lines → lines_of (ended_lines lines) ≡ lines }
{}
