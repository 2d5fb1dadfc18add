// Names by their numbers, with their words in one list.

ghost use Rattle.std.specs.Prelude.{◌≡◌, ◌<◌, length, slice_index, nat_lt};
ghost use Rattle.cap_word.specs.Rows.{width, word_at};
ghost use Rattle.c_mean.specs.Values.{in_range};
ghost use Rattle.source_items.specs.Rows.{IsRows, or_index, rows_in};

/// The words of names: the number of words of each name, the index of its first word, and the words
/// of all.
#[derive(Clone, Copy)]
pub struct Rows<'a> {
    pub widths: &'a [u32],
    pub starts: &'a [u32],
    pub words: &'a [u32],
}

/// Returns the word of a scalar.
pub(crate) fn word_of(rows: &Rows, x: u32) -> u32
    requires rows { IsRows rows.now }
    requires there { x < length rows.now.widths.now }
    requires one_word { slice_index rows.now.widths.now x ≡ 1 }
    ensures { result ≡ word_at (rows_in rows.now) x 0 }
{
    rows.words[rows.starts[x as usize] as usize]
}

/// Returns the word of an array at an unsigned index, or `None` if the index isn't below the array's
/// size.
pub(crate) fn element_of(rows: &Rows, a: u32, index: u32) -> Option<u32>
    requires rows { IsRows rows.now }
    requires there { a < length rows.now.widths.now }
    ensures { or_index result ≡ in_range (nat_lt index (width (rows_in rows.now) a)) (word_at (rows_in rows.now) a index) }
{
    if index < rows.widths[a as usize] {
        Some(rows.words[rows.starts[a as usize] as usize + index as usize])
    } else {
        None
    }
}
