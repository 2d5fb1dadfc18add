// The words of names, one after another: where those of a name begin, and what they are.
ghost use Rattle.std.specs.Prelude.{◌≡◌, ◌<◌, ◌^◌, length, take, map, sum, slice_index, nat_lt};
ghost use Rattle.cap_word.specs.Rows.{width, word_at};
ghost use Rattle.c_mean.specs.Layout.{rows_of, widths_of};
ghost use Rattle.c_mean.specs.Values.{in_range};

use c_tree::GlobalFact;
use cap_word::TrapKind;

/// Returns the number of words of the names before name x.
fn words_before(sizes: &[u32], x: u32) -> usize
    requires there { x < length sizes.now }
    requires fits { sum sizes.now < 2 ^ 64 }
    ensures { result ≡ sum (take x sizes.now) }
{
    let mut start = 0;
    for size in &sizes[..x as usize] {
        start += *size as usize;
    }
    start
}

/// Returns the number of words of the globals before global g.
fn words_before_global(facts: &[GlobalFact], g: u32) -> usize
    requires there { g < length facts.now }
    requires fits { sum (widths_of facts.now) < 2 ^ 64 }
    ensures { result ≡ sum (take g (widths_of facts.now)) }
{
    let mut start = 0;
    for fact in &facts[..g as usize] {
        start += fact.words as usize;
    }
    start
}

/// Returns the word of scalar x.
pub(crate) fn word_of_name(sizes: &[u32], x: u32, words: &[u32]) -> u32
    requires there { x < length sizes.now }
    requires one_word { slice_index sizes.now x ≡ 1 }
    requires cut { length words.now ≡ sum sizes.now }
    ensures { result ≡ word_at (rows_of sizes.now words.now) x 0 }
{
    words[words_before(sizes, x)]
}

/// Returns the word of array a at an index, read as an unsigned number, or the trap `Index` if it isn't below the
/// array's size.
pub(crate) fn element_of_name(
    sizes: &[u32],
    a: u32,
    words: &[u32],
    index: u32,
) -> Result<u32, TrapKind>
    requires there { a < length sizes.now }
    requires cut { length words.now ≡ sum sizes.now }
    ensures { result ≡ in_range (nat_lt index (width (rows_of sizes.now words.now) a)) (word_at (rows_of sizes.now words.now) a index) }
{
    if index < sizes[a as usize] {
        Ok(words[words_before(sizes, a) + index as usize])
    } else {
        Err(TrapKind::Index)
    }
}

/// Returns the word of global scalar g.
pub(crate) fn word_of_global(facts: &[GlobalFact], g: u32, words: &[u32]) -> u32
    requires there { g < length facts.now }
    requires one_word { slice_index (widths_of facts.now) g ≡ 1 }
    requires cut { length words.now ≡ sum (widths_of facts.now) }
    ensures { result ≡ word_at (rows_of (widths_of facts.now) words.now) g 0 }
{
    words[words_before_global(facts, g)]
}

/// Returns the word of global array a at an index, or the trap `Index` if it isn't below the array's size.
pub(crate) fn element_of_global(
    facts: &[GlobalFact],
    a: u32,
    words: &[u32],
    index: u32,
) -> Result<u32, TrapKind>
    requires there { a < length facts.now }
    requires cut { length words.now ≡ sum (widths_of facts.now) }
    ensures { result ≡ in_range (nat_lt index (width (rows_of (widths_of facts.now) words.now) a)) (word_at (rows_of (widths_of facts.now) words.now) a index) }
{
    if index < facts[a as usize].words {
        Ok(words[words_before_global(facts, a) + index as usize])
    } else {
        Err(TrapKind::Index)
    }
}
