ghost use Rattle.std.specs.Prelude.{◌≡◌, ℕ, ◌%◌, ◌<◌, ◌^◌, Bool, Option, if◌then◌else◌};
ghost use Rattle.rv_machine.specs.Bytes.{half_at, word_at, put_byte, with_half, with_word, half_is_writable, word_is_writable};

/// Memory by bytes. Contracts see it as three functions: from an address to its byte, or to none if it
/// isn't readable; from an address to whether it is writable; and from a store to the whole value after it,
/// so a store leaves everything unchanged that isn't memory. Halves and words are little-endian (RISC-V
/// unprivileged manual, chapter "RV32I", section "Load and Store Instructions").
pub trait Memory {
    ghost byte_at: { Self → ℕ → Option ℕ };

    ghost is_writable: { Self → ℕ → Bool };

    ghost with_byte: { Self → ℕ → ℕ → Self };

    /// Returns the byte at the address, or `None` exactly if it isn't readable.
    fn load(&self, address: u32) -> Option<u8>
        ensures { result ≡ byte_at self.now address };

    /// Returns whether the byte at the address is writable.
    fn can_store(&self, address: u32) -> bool
        ensures { result ≡ is_writable self.now address };

    /// Stores a byte at the address, and returns whether the address is writable. If it isn't, nothing
    /// changes. If it is, the address has the byte, provided that it is readable, and every other byte
    /// stays the same. Which bytes are readable and which are writable never changes.
    fn store(&mut self, address: u32, byte: u8) -> bool
        ensures answer { result ≡ is_writable self.old address }
        ensures bytes { (at : ℕ) → byte_at self.new at ≡ (if result then put_byte (byte_at self.old) address byte at else byte_at self.old at) }
        ensures writable { (at : ℕ) → is_writable self.new at ≡ is_writable self.old at }
        ensures whole { self.new ≡ (if result then with_byte self.old address byte else self.old) };

    /// Returns the half of two bytes at the address, a multiple of 2, or `None` if one of them isn't
    /// readable.
    #[inline(always)]
    #[tactic(auto, unfolding(crate::specs::Bytes::half_at))]
    fn load_half(&self, address: u32) -> Option<u16>
        requires { address % 2 ≡ 0 }
        ensures { result ≡ half_at (byte_at self.now) address }
    {
        let low = self.load(address)?;
        let high = self.load(address + 1)?;
        Some(u16::from(low) + (u16::from(high) << 8))
    }

    /// Returns the word of four bytes at the address, a multiple of 4, or `None` if one of them isn't
    /// readable.
    #[tactic(auto, unfolding(crate::specs::Bytes::word_at))]
    fn load_word(&self, address: u32) -> Option<u32>
        requires { address % 4 ≡ 0 }
        ensures { result ≡ word_at (byte_at self.now) address }
    {
        let low = self.load_half(address)?;
        let high = self.load_half(address + 2)?;
        Some(u32::from(low) + (u32::from(high) << 16))
    }

    /// Stores a half at the address, a multiple of 2, and returns whether both bytes are writable. If one
    /// isn't, nothing changes.
    #[tactic(auto, unfolding(crate::specs::Bytes::half_is_writable, crate::specs::Bytes::with_half))]
    fn store_half(&mut self, address: u32, half: u16) -> bool
        requires { address % 2 ≡ 0 }
        ensures answer { result ≡ half_is_writable (is_writable self.old) address }
        ensures bytes { (at : ℕ) → byte_at self.new at ≡ (if result then with_half put_byte (byte_at self.old) address half at else byte_at self.old at) }
        ensures writable { (at : ℕ) → is_writable self.new at ≡ is_writable self.old at }
        ensures whole { self.new ≡ (if result then with_half with_byte self.old address half else self.old) }
    {
        if !(self.can_store(address) && self.can_store(address + 1)) {
            return false;
        }
        self.store(address, (half & 0xff) as u8) && self.store(address + 1, (half >> 8) as u8)
    }

    /// Stores a word at the address, a multiple of 4, and returns whether its four bytes are writable. If
    /// one isn't, nothing changes.
    #[tactic(auto, unfolding(crate::specs::Bytes::word_is_writable, crate::specs::Bytes::half_is_writable, crate::specs::Bytes::with_word))]
    fn store_word(&mut self, address: u32, word: u32) -> bool
        requires { address % 4 ≡ 0 }
        ensures answer { result ≡ word_is_writable (is_writable self.old) address }
        ensures bytes { (at : ℕ) → byte_at self.new at ≡ (if result then with_word put_byte (byte_at self.old) address word at else byte_at self.old at) }
        ensures writable { (at : ℕ) → is_writable self.new at ≡ is_writable self.old at }
        ensures whole { self.new ≡ (if result then with_word with_byte self.old address word else self.old) }
    {
        if !(self.can_store(address)
            && self.can_store(address + 1)
            && self.can_store(address + 2)
            && self.can_store(address + 3))
        {
            return false;
        }
        self.store_half(address, (word & 0xffff) as u16)
            && self.store_half(address + 2, (word >> 16) as u16)
    }
}
