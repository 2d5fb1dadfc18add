ghost use Rattle.std.specs.Prelude.{◌≡◌, ℕ, ◌*◌, ◌%◌, ◌<◌, ◌≤◌, ◌↔◌, ◌∷◌, Some, None, nat_eq, IsTrue};
ghost use Rattle.std.specs.List.{count_by};
ghost use Rattle.chunk_pool.specs.Pool.{Pool, Taken, shape_of, words_of, chunk_of, all_free, with_free_of, bytes_of, first_bytes, place_of, end_of, HasAddress, chunk_at, fits, FitsNone, taken_for, IsFree, IsHeld, IsChunk, IsPool, start_pool};

/// Laws: for any pool, a need takes nothing exactly if no free chunk fits. Otherwise it takes a free chunk that fits,
/// and no smaller one fits. That chunk leaves the free chunks and is then held; all other numbers and all words stay.
pub fn need_laws()
    ensures none { (p : Pool) (need : ℕ) → IsPool p → (taken_for p need ≡ None) ↔ FitsNone p need }
    ensures fits { (p : Pool) (need : ℕ) (taken : Taken) → IsPool p → taken_for p need ≡ Some taken →
        IsFree p taken.chunk × IsTrue (fits p need taken.chunk) }
    ensures smallest { (p : Pool) (need : ℕ) (taken : Taken) (id : ℕ) → IsPool p → taken_for p need ≡ Some taken →
        IsFree p id → IsTrue (fits p need id) → bytes_of p taken.chunk ≤ bytes_of p id }
    ensures leaves { (p : Pool) (need : ℕ) (taken : Taken) → taken_for p need ≡ Some taken → (id : ℕ) →
        count_by (λ other. nat_eq other id) (all_free p) ≡ count_by (λ other. nat_eq other id) (taken.chunk ∷ all_free taken.pool) }
    ensures keeps { (p : Pool) (need : ℕ) (taken : Taken) → taken_for p need ≡ Some taken →
        taken.pool ≡ with_free_of p taken.pool }
    ensures sound { (p : Pool) (need : ℕ) (taken : Taken) → IsPool p → taken_for p need ≡ Some taken →
        IsPool taken.pool × IsHeld taken.pool taken.chunk }
{}

/// Laws: for any pool, a chunk has as many words as its list, and more than its header. Its address and its size are
/// multiples of 16, and it ends at or below 0x84000000. An address lies in at most one chunk, and `chunk_at` finds
/// exactly that one. The numbers below the first count have the first size. Pools of one shape agree on all of this.
pub fn place_laws()
    ensures words { (p : Pool) (id : ℕ) → IsPool p → id < p.count → IsChunk (words_of p id) (chunk_of p id) × (4 < words_of p id) }
    ensures aligned { (p : Pool) (id : ℕ) → IsPool p → (place_of p id % 16 ≡ 0) × (bytes_of p id % 16 ≡ 0) }
    ensures below_end { (p : Pool) (id : ℕ) → IsPool p → id < p.count → end_of p id ≤ 0x8400_0000 }
    ensures one_chunk { (p : Pool) (a b address : ℕ) → HasAddress p a address → HasAddress p b address → a ≡ b }
    ensures found { (p : Pool) (id address : ℕ) → HasAddress p id address → chunk_at p address ≡ Some id }
    ensures finds { (p : Pool) (id address : ℕ) → IsPool p → chunk_at p address ≡ Some id → HasAddress p id address }
    ensures first { (p : Pool) (id : ℕ) → id < p.first_count → bytes_of p id ≡ first_bytes p }
    ensures start { (chunks words extra extra_words : ℕ) → first_bytes (start_pool chunks words extra extra_words) ≡ 4 * words }
    ensures shape { (p q : Pool) (id address : ℕ) → shape_of q ≡ shape_of p →
        (words_of q id ≡ words_of p id) × (place_of q id ≡ place_of p id) × (first_bytes q ≡ first_bytes p) × (chunk_at q address ≡ chunk_at p address) }
{}
