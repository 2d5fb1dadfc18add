ghost use Rattle.std.specs.Prelude.{◌≡◌, ℕ, ◌^◌, ◌<◌, List, true, length};
ghost use Rattle.cap_word.specs.Runs.{Goes};
ghost use Rattle.chunk_pool.specs.Pool.{IsPool, all_free};
ghost use Rattle.rv_machine.specs.Bytes.{put_byte};
ghost use Rattle.rv_machine.specs.Registers.{read};
ghost use Rattle.machine_world.specs.Areas.{Areas, spot_of, byte_at, is_writable, with_byte};
ghost use Rattle.machine_world.specs.Held.{KeepsCopies, KeepsShape};
ghost use Rattle.machine_world.specs.Links.{IsUndone};
ghost use Rattle.stack_certificate.specs.Registers.{tp};
ghost use Rattle.machine_world.specs.Local.{Local, linked, unlinked, local_step};

/// Laws of the areas as memory by bytes: a written byte has its value, every other byte stays, the map stays, and so do
/// the invariant and the free lists of the pool.
pub fn area_laws()
    ensures bytes { (areas : Areas) (a b at : ℕ) → IsPool areas.pool → is_writable areas a ≡ true → b < 2 ^ 8 →
        byte_at (with_byte areas a b) at ≡ put_byte (byte_at areas) a b at }
    ensures spots { (areas : Areas) (a b at : ℕ) → spot_of (with_byte areas a b) at ≡ spot_of areas at }
    ensures pool { (areas : Areas) (a b : ℕ) → IsPool areas.pool → b < 2 ^ 8 → IsPool (with_byte areas a b).pool }
    ensures free { (areas : Areas) (a b : ℕ) → all_free (with_byte areas a b).pool ≡ all_free areas.pool }
    ensures tables { (areas : Areas) (a b : ℕ) → (with_byte areas a b).tables ≡ areas.tables }
{}

/// Laws of chunks under one thread: no step loses a chunk, holds one twice or changes the pool's shape, and an UNLINK
/// just after a LINK undoes it.
pub fn chunk_laws()
    ensures kept { (code : List ℕ) (l : Local) (chunk : ℕ) → KeepsCopies chunk l (local_step code l) }
    ensures shape { (code : List ℕ) (l : Local) → KeepsShape l (local_step code l) }
    ensures undone { (l m : Local) → IsPool l.areas.pool → 4 < length l.core.x → read l.core.x tp < 2 ^ 32 → linked l ≡ Goes m →
        (n : Local) × (unlinked m ≡ Goes n) × IsUndone l n }
{}
