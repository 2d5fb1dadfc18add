// The places of a pool's chunks, by the number of chunks of each size.
ghost use Rattle.std.specs.Prelude.{◌≡◌, ◌+◌, ◌-◌, ◌*◌, ◌<◌, ◌≤◌, ◌&&◌, nat_le};
ghost use Rattle.chunk_pool.specs.Pool.{IsShape, words_in, start_in, size_in, next_in, chunk_in, offers, choice};

/// The address of the first byte of chunk 0.
pub(crate) const FIRST_PLACE: u32 = 0x8000_0000;

/// One of the two sizes of a pool's chunks. The numbers of the first size come before those of the second.
#[derive(Clone, Copy)]
pub(crate) enum Class {
    /// The size in the certificate.
    First,
    /// The size of the chunks that a policy adds.
    Extra,
}

/// The numbers and sizes of a pool's chunks.
#[derive(Clone, Copy)]
pub(crate) struct Shape {
    /// The number of chunks, of both sizes.
    pub(crate) count: u32,
    /// The number of chunks of the first size.
    pub(crate) first_count: u32,
    /// The words of a chunk of the first size.
    pub(crate) words: u32,
    /// The words of a chunk of the second size.
    pub(crate) extra_words: u32,
}

impl Shape {
    /// Returns the number of words of chunk `id`.
    #[tactic(auto, unfolding(crate::specs::Pool::words_in))]
    pub(crate) fn words_of(self, id: u32) -> u32
        ensures { result ≡ words_in self id }
    {
        if id < self.first_count {
            self.words
        } else {
            self.extra_words
        }
    }

    /// Returns the number of words before the first word of chunk `id`.
    #[tactic(auto, unfolding(crate::specs::Pool::words_in, crate::specs::Pool::start_in))]
    pub(crate) fn start_of(self, id: u32) -> usize
        requires sound { IsShape self }
        requires id_in_range { id < self.count }
        ensures start { result ≡ start_in self id }
        ensures within { result + words_in self id ≤ size_in self }
    {
        if id < self.first_count {
            id as usize * self.words as usize
        } else {
            let extra = (id - self.first_count) as usize * self.extra_words as usize;
            self.first_count as usize * self.words as usize + extra
        }
    }

    /// Returns the number of words of all chunks.
    pub(crate) fn size(self) -> usize
        requires { IsShape self }
        ensures { result ≡ size_in self }
    {
        let extra = (self.count - self.first_count) as usize * self.extra_words as usize;
        self.first_count as usize * self.words as usize + extra
    }

    /// Returns the number of the next chunk of the same size after `id`, or the count after the last one.
    pub(crate) fn next(self, id: u32) -> u32
        requires { id < self.count }
        ensures { result ≡ next_in self id }
    {
        if id + 1 == self.first_count {
            self.count
        } else {
            id + 1
        }
    }

    /// Returns the number of the chunk that has a byte at `address`, or `None` if no chunk has. `checked_div` has no
    /// trap, so the compiler can remove a search whose result isn't used.
    pub(crate) fn chunk_at(self, address: u32) -> Option<u32>
        requires { IsShape self }
        ensures { result ≡ chunk_in self address }
    {
        let offset = address.checked_sub(FIRST_PLACE)?;
        let first_bytes = 4 * (self.first_count * self.words);
        if offset < first_bytes {
            return offset.checked_div(4 * self.words);
        }
        let behind = offset - first_bytes;
        if behind < 4 * ((self.count - self.first_count) * self.extra_words) {
            Some(self.first_count + behind.checked_div(4 * self.extra_words)?)
        } else {
            None
        }
    }

    /// Returns the size from which a need of `need` bytes is taken, given the number of free chunks of each size: the
    /// smaller size with a free chunk that fits, or the first if both are equal. Returns `None` if no free chunk fits.
    pub(crate) fn class_for(self, free: u32, extra_free: u32, need: u32) -> Option<Class>
        requires { IsShape self }
        ensures { result ≡ choice (offers self.words free need) (offers self.extra_words extra_free need) (nat_le self.words self.extra_words) }
    {
        let first = free > 0 && need <= 4 * self.words - 16;
        let extra = extra_free > 0 && need <= 4 * self.extra_words - 16;
        if first && (!extra || self.words <= self.extra_words) {
            Some(Class::First)
        } else if extra {
            Some(Class::Extra)
        } else {
            None
        }
    }
}
