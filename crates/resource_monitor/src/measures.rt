ghost use Rattle.std.specs.Prelude.{ℕ};

/// A way to measure the pressure of a resource, from its use and its cap. Every closure from two
/// `u32` to a `u32` is one; by this trait a gauge keeps what is known of the closure's calls.
pub trait Measure {
    // When the call is permitted.
    ghost can_measure: { Self → ℕ → ℕ → Type 0 };

    // The possible results of the call.
    ghost measure_gives: { Self → ℕ → ℕ → ℕ → Type 0 };

    /// Returns the pressure at a use of `used` with the cap `cap`.
    fn measure(&self, used: u32, cap: u32) -> u32
        requires { can_measure self.now used cap }
        ensures { measure_gives self.now used cap result };
}

impl<C: Fn(u32, u32) -> u32> Measure for C {
    ghost can_measure = { λ call used cap. C.pre call used cap };

    ghost measure_gives = { λ call used cap answer. C.post call used cap answer };

    fn measure(&self, used: u32, cap: u32) -> u32 {
        self(used, cap)
    }
}
