ghost use Rattle.std.specs.Prelude.{◌≡◌, ◌<◌, ◌%◌, ◌^◌, pos, negsuc, ◌≤ℤ◌};
ghost use Rattle.rv_code.specs.Field.{low_bits, signed};
ghost use Rattle.rv_code.specs.Range.{IsImmediate, IsUpperImmediate, IsShiftCount};

use std::marker::Model;

/// The immediate of formats I and S: a signed number of 12 bits, from -2048 to 2047 (RISC-V unprivileged
/// manual, chapter "RV32I", section "Immediate Encoding Variants").
#[derive(Clone, Copy, PartialEq, Eq)]
pub struct Immediate {
    value: i32,
}

impl Model for Immediate {
    ghost use Rattle.std.specs.Prelude.{ℤ};
    ghost use Rattle.rv_code.specs.Range.{IsImmediate};

    ghost Value = { ℤ };

    ghost view = { λ immediate. immediate.value };

    ghost invariant = { λ immediate. IsImmediate immediate.value };

    ghost inverse = { λ value. record { value = value } };
}

impl Immediate {
    /// Returns the immediate with this value, from -2048 to 2047.
    pub const fn new(value: i32) -> Immediate
        requires { IsImmediate value }
        ensures { result ≡ value }
    {
        Immediate { value }
    }

    /// Returns the value, from -2048 to 2047.
    pub const fn value(self) -> i32
        ensures value { result ≡ self }
        ensures range { IsImmediate result }
    {
        self.value
    }

    /// Returns the value's 12 bits, in two's complement.
    pub(crate) fn bits(self) -> u32
        ensures value { result ≡ low_bits 12 self }
        ensures width { result < 2 ^ 12 }
    {
        self.value.cast_unsigned() & 0xfff
    }

    /// Returns the immediate with these 12 bits, in two's complement.
    pub(crate) fn of_bits(bits: u32) -> Immediate
        requires { bits < 2 ^ 12 }
        ensures { result ≡ signed 12 bits }
    {
        let field = bits as i32;
        Immediate {
            value: if field < 2048 { field } else { field - 4096 },
        }
    }
}

/// The immediate of format U: the 20 bits that LUI and AUIPC place from bit 12 up, as a number from 0 to
/// 1048575 (RISC-V unprivileged manual, chapter "RV32I", section "Immediate Encoding Variants").
#[derive(Clone, Copy, PartialEq, Eq)]
pub struct UpperImmediate {
    value: i32,
}

impl Model for UpperImmediate {
    ghost use Rattle.std.specs.Prelude.{ℤ};
    ghost use Rattle.rv_code.specs.Range.{IsUpperImmediate};

    ghost Value = { ℤ };

    ghost view = { λ immediate. immediate.value };

    ghost invariant = { λ immediate. IsUpperImmediate immediate.value };

    ghost inverse = { λ value. record { value = value } };
}

impl UpperImmediate {
    /// Returns the immediate with this value, from 0 to 1048575.
    pub const fn new(value: i32) -> UpperImmediate
        requires { IsUpperImmediate value }
        ensures { result ≡ value }
    {
        UpperImmediate { value }
    }

    /// Returns the value, from 0 to 1048575.
    pub const fn value(self) -> i32
        ensures value { result ≡ self }
        ensures range { IsUpperImmediate result }
    {
        self.value
    }

    /// Returns the value's 20 bits.
    pub(crate) fn bits(self) -> u32
        ensures value { result ≡ low_bits 20 self }
        ensures width { result < 2 ^ 20 }
    {
        self.value as u32
    }

    /// Returns the immediate with these 20 bits.
    pub(crate) fn of_bits(bits: u32) -> UpperImmediate
        requires { bits < 2 ^ 20 }
        ensures { result ≡ pos bits }
    {
        UpperImmediate { value: bits as i32 }
    }
}

/// The count of SLLI, SRLI and SRAI, from 0 to 31 (RISC-V unprivileged manual, chapter "RV32I", section
/// "Integer Register-Immediate Instructions").
#[derive(Clone, Copy, PartialEq, Eq)]
pub struct ShiftCount {
    value: i32,
}

impl Model for ShiftCount {
    ghost use Rattle.std.specs.Prelude.{ℤ};
    ghost use Rattle.rv_code.specs.Range.{IsShiftCount};

    ghost Value = { ℤ };

    ghost view = { λ count. count.value };

    ghost invariant = { λ count. IsShiftCount count.value };

    ghost inverse = { λ value. record { value = value } };
}

impl ShiftCount {
    /// Returns the count with this value, from 0 to 31.
    pub const fn new(value: i32) -> ShiftCount
        requires { IsShiftCount value }
        ensures { result ≡ value }
    {
        ShiftCount { value }
    }

    /// Returns the value, from 0 to 31.
    pub const fn value(self) -> i32
        ensures value { result ≡ self }
        ensures range { IsShiftCount result }
    {
        self.value
    }

    /// Returns the value's 5 bits.
    pub(crate) fn bits(self) -> u32
        ensures value { result ≡ low_bits 5 self }
        ensures width { result < 2 ^ 5 }
    {
        self.value as u32
    }

    /// Returns the count with these 5 bits.
    pub(crate) fn of_bits(bits: u32) -> ShiftCount
        requires { bits < 2 ^ 5 }
        ensures { result ≡ pos bits }
    {
        ShiftCount { value: bits as i32 }
    }
}
