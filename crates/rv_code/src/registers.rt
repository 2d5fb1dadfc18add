ghost use Rattle.std.specs.Prelude.{◌≡◌, ◌<◌};

use std::marker::Model;

/// The number of a register, from 0 to 31. Register 0 reads as 0 (RISC-V unprivileged manual, chapter
/// "RV32I", section "Programmers' Model for Base Integer ISA").
#[derive(Clone, Copy, PartialEq, Eq)]
pub struct Register {
    number: u32,
}

impl Model for Register {
    ghost use Rattle.std.specs.Prelude.{ℕ, ◌<◌};

    ghost Value = { ℕ };

    ghost view = { λ register. register.number };

    ghost invariant = { λ register. register.number < 32 };

    ghost inverse = { λ number. record { number = number } };
}

impl Register {
    /// Register 0, which reads as 0.
    pub const ZERO: Register = Register { number: 0 };

    /// Register 1: the return address.
    pub const RA: Register = Register { number: 1 };

    /// Register 2: the stack pointer.
    pub const SP: Register = Register { number: 2 };

    /// Register 4: the thread pointer.
    pub const TP: Register = Register { number: 4 };

    /// Register 5: the first temporary.
    pub const T0: Register = Register { number: 5 };

    /// Register 6: the second temporary.
    pub const T1: Register = Register { number: 6 };

    /// Register 7: the third temporary.
    pub const T2: Register = Register { number: 7 };

    /// Register 10: the first argument, and the result.
    pub const A0: Register = Register { number: 10 };

    /// Register 11: the second argument.
    pub const A1: Register = Register { number: 11 };

    /// Register 12: the third argument.
    pub const A2: Register = Register { number: 12 };

    /// Register 17: the number of a call of the run time.
    pub const A7: Register = Register { number: 17 };

    /// Returns the register with this number, which is below 32.
    pub const fn new(number: u32) -> Register
        requires { number < 32 }
        ensures { result ≡ number }
    {
        Register { number }
    }

    /// Returns the register's number, below 32.
    pub const fn number(self) -> u32
        ensures value { result ≡ self }
        ensures range { result < 32 }
    {
        self.number
    }
}
