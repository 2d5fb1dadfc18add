ghost use Rattle.std.specs.Prelude.{◌≡◌, ◌<◌};
ghost use Rattle.rv_machine.specs.Registers as file;

use std::marker::Model;

// The registers of a running thread; contracts see them as the list of their values by number. The value at index 0 is
// kept aside and replaced by 0 meanwhile, so that register 0 can be read like all others.
#[derive(Drop)]
pub(crate) struct RegisterFile {
    x: [u32; 32],
    first: u32,
}

impl Model for RegisterFile {
    ghost use Rattle.std.specs.Prelude.{◌≡◌, ℕ, List, slice_index, slice_set};

    ghost Value = { List ℕ };

    ghost view = { λ file. slice_set file.x 0 file.first };

    ghost invariant = { λ file. slice_index file.x 0 ≡ 0 };
}

impl RegisterFile {
    // Returns the registers with these values.
    pub(crate) fn new(values: [u32; 32]) -> RegisterFile
        ensures { result ≡ values }
    {
        let first = values[0];
        let mut x = values;
        x[0] = 0;
        RegisterFile { x, first }
    }

    // Returns the value of a register.
    #[inline(always)]
    pub(crate) fn read(&self, register: u8) -> u32
        requires { register < 32 }
        ensures { result ≡ file.read self.now register }
    {
        self.x[register as usize]
    }

    // Sets the value of a register other than 0.
    #[inline(always)]
    pub(crate) fn write(&mut self, register: u8, value: u32)
        requires some { 0 < register }
        requires there { register < 32 }
        ensures { self.new ≡ file.write self.old register value }
    {
        self.x[register as usize] = value;
    }

    // Returns the values of the registers.
    pub(crate) fn values(&self) -> [u32; 32]
        ensures { result ≡ self.now }
    {
        let mut x = self.x;
        x[0] = self.first;
        x
    }
}
