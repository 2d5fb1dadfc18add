ghost use Rattle.std.specs.Prelude.{◌≡◌, ◌%◌, ◌≤◌, length};

use accepted_pairs::Accepted;

/// Laws of the sizes of an accepted program's areas: the numbers of global and table words are in the range of `Areas`,
/// and the chunk size is one that a pool may have. No effect at run time.
pub fn sizes_law(accepted: &Accepted)
    ensures globals { length accepted.now.image.globals ≤ 65536 }
    ensures tables { length accepted.now.image.tables ≤ 65536 }
    ensures aligned { accepted.now.certificate.chunk % 16 ≡ 0 }
    ensures least { 64 ≤ accepted.now.certificate.chunk }
    ensures most { accepted.now.certificate.chunk ≤ 65536 }
{
    accepted.is_valid();
}
