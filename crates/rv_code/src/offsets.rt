ghost use Rattle.std.specs.Prelude.{◌≡◌, ◌<◌, ◌%◌, ◌^◌, pos, negsuc, ◌≤ℤ◌};
ghost use Rattle.rv_code.specs.Field.{low_bits, signed};
ghost use Rattle.rv_code.specs.Range.{IsBranchOffset, IsJumpOffset};

use std::marker::Model;

/// The offset of a branch in bytes, from the branch: an even number from -4096 to 4094 (RISC-V unprivileged
/// manual, chapter "RV32I", section "Conditional Branches").
#[derive(Clone, Copy, PartialEq, Eq)]
pub struct BranchOffset {
    value: i32,
}

impl Model for BranchOffset {
    ghost use Rattle.std.specs.Prelude.{ℤ};
    ghost use Rattle.rv_code.specs.Range.{IsBranchOffset};

    ghost Value = { ℤ };

    ghost view = { λ offset. offset.value };

    ghost invariant = { λ offset. IsBranchOffset offset.value };

    ghost inverse = { λ value. record { value = value } };
}

impl BranchOffset {
    /// Returns the offset with this value, even, from -4096 to 4094.
    pub const fn new(value: i32) -> BranchOffset
        requires { IsBranchOffset value }
        ensures { result ≡ value }
    {
        BranchOffset { value }
    }

    /// Returns the value, even, from -4096 to 4094.
    pub const fn value(self) -> i32
        ensures value { result ≡ self }
        ensures range { IsBranchOffset result }
    {
        self.value
    }

    /// Returns the value's 13 bits, in two's complement.
    pub(crate) fn bits(self) -> u32
        ensures value { result ≡ low_bits 13 self }
        ensures width { result < 2 ^ 13 }
        ensures even { result % 2 ≡ 0 }
    {
        self.value.cast_unsigned() & 0x1fff
    }

    /// Returns the offset with these 13 bits, in two's complement; the lowest is 0.
    pub(crate) fn of_bits(bits: u32) -> BranchOffset
        requires width { bits < 2 ^ 13 }
        requires even { bits % 2 ≡ 0 }
        ensures { result ≡ signed 13 bits }
    {
        let field = bits as i32;
        BranchOffset {
            value: if field < 4096 { field } else { field - 8192 },
        }
    }
}

/// The offset of JAL in bytes, from the jump: an even number from -1048576 to 1048574 (RISC-V unprivileged
/// manual, chapter "RV32I", section "Unconditional Jumps").
#[derive(Clone, Copy, PartialEq, Eq)]
pub struct JumpOffset {
    value: i32,
}

impl Model for JumpOffset {
    ghost use Rattle.std.specs.Prelude.{ℤ};
    ghost use Rattle.rv_code.specs.Range.{IsJumpOffset};

    ghost Value = { ℤ };

    ghost view = { λ offset. offset.value };

    ghost invariant = { λ offset. IsJumpOffset offset.value };

    ghost inverse = { λ value. record { value = value } };
}

impl JumpOffset {
    /// Returns the offset with this value, even, from -1048576 to 1048574.
    pub const fn new(value: i32) -> JumpOffset
        requires { IsJumpOffset value }
        ensures { result ≡ value }
    {
        JumpOffset { value }
    }

    /// Returns the value, even, from -1048576 to 1048574.
    pub const fn value(self) -> i32
        ensures value { result ≡ self }
        ensures range { IsJumpOffset result }
    {
        self.value
    }

    /// Returns the value's 21 bits, in two's complement.
    pub(crate) fn bits(self) -> u32
        ensures value { result ≡ low_bits 21 self }
        ensures width { result < 2 ^ 21 }
        ensures even { result % 2 ≡ 0 }
    {
        self.value.cast_unsigned() & 0x1f_ffff
    }

    /// Returns the offset with these 21 bits, in two's complement; the lowest is 0.
    pub(crate) fn of_bits(bits: u32) -> JumpOffset
        requires width { bits < 2 ^ 21 }
        requires even { bits % 2 ≡ 0 }
        ensures { result ≡ signed 21 bits }
    {
        let field = bits as i32;
        JumpOffset {
            value: if field < 1048576 {
                field
            } else {
                field - 2097152
            },
        }
    }
}
