use cap_word::FaultKind;

/// The outcome of a step of the machine.
#[derive(Clone, Copy, Debug, PartialEq, Eq)]
pub enum StepResult {
    /// The instruction was executed.
    Went,
    /// An ECALL asks for the call with this number, which is in register 17. Nothing has changed.
    Call { number: u32 },
    /// The instruction at `pc` can't be executed, for this reason. Nothing has changed.
    Fault { pc: u32, kind: FaultKind },
}
