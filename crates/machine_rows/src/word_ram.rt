ghost use Rattle.std.specs.Prelude.{◌≡◌, ◌<◌, nat_lt, if◌then◌else◌, Some, None};
ghost use Rattle.rv_machine.specs.WordBytes.{word_with, byte_in, words_with};

use rv_machine::Memory;

/// The same bytes stored as four words, the lowest byte of each first, with a list that isn't memory. A whole word is
/// read and written by its index.
#[derive(Clone, Copy)]
pub struct WordRam {
    pub words: [u32; 4],
    /// Numbers that no load returns and no store changes.
    pub free: [u32; 2],
}

impl Memory for WordRam {
    ghost byte_at = { λ ram address. if nat_lt address 16 then Some (byte_in ram.words address) else None };

    ghost is_writable = { λ ram address. nat_lt address 8 };

    ghost with_byte = { λ ram address byte. record ram { words = words_with ram.words address byte } };

    fn load(&self, address: u32) -> Option<u8> {
        if address >= 16 {
            return None;
        }
        let word = self.words[(address / 4) as usize];
        Some((word >> (8 * (address % 4)) & 0xff) as u8)
    }

    fn can_store(&self, address: u32) -> bool {
        address < 8
    }

    fn store(&mut self, address: u32, byte: u8) -> bool {
        if address >= 8 {
            return false;
        }
        let index = (address / 4) as usize;
        self.words[index] = put_byte(self.words[index], address % 4, byte);
        true
    }

    fn load_word(&self, address: u32) -> Option<u32> {
        if address >= 16 {
            return None;
        }
        let word = self.words[(address / 4) as usize];
        Some(word)
    }

    fn store_word(&mut self, address: u32, word: u32) -> bool {
        if address >= 8 {
            return false;
        }
        let index = (address / 4) as usize;
        let _old = self.words[index];
        self.words[index] = word;
        true
    }
}

// Returns the word with byte k of its four bytes replaced.
fn put_byte(word: u32, k: u32, byte: u8) -> u32
    requires { k < 4 }
    ensures { result ≡ word_with word k byte }
{
    let scale = 1u32 << (8 * k);
    let old = word / scale % 256;
    word - old * scale + u32::from(byte) * scale
}
