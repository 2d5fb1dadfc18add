ghost use Rattle.std.specs.Prelude.{nat_lt, slice_get, slice_set};

use rv_machine::Memory;

/// Sixteen readable bytes from 0 on, the first eight of which are writable.
#[derive(Clone, Copy)]
pub struct Ram {
    pub bytes: [u8; 16],
}

impl Memory for Ram {
    ghost byte_at = { λ ram address. slice_get ram.bytes address };

    ghost is_writable = { λ ram address. nat_lt address 8 };

    ghost with_byte = { λ ram address byte. record { bytes = slice_set ram.bytes address byte } };

    fn load(&self, address: u32) -> Option<u8> {
        self.bytes.get(address as usize).copied()
    }

    fn can_store(&self, address: u32) -> bool {
        address < 8
    }

    fn store(&mut self, address: u32, byte: u8) -> bool {
        if address < 8 {
            self.bytes[address as usize] = byte;
            true
        } else {
            false
        }
    }
}
