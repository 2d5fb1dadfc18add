// The calls that the thread package answers: their table in code.
//
// Every crate above takes a call's name, its number, its arity, and whether it gives a result or blocks
// from here, and its request to the world from `specs/Calls.antt`.
ghost use Rattle.std.specs.Prelude.{◌≡◌, ℕ, Some, None};
ghost use Rattle.cap_word.specs.Calls.{call_with, is_blocking};
ghost use Rattle.cap_word.specs.ModelledCalls.{blocks, call_numbered, gives_result, name_of, number_of, parameters_of, spawn_number};
ghost use Rattle.cap_word.specs.declared.modelled_calls.ModelledCall.{ModelledCall};

/// The number by which the run time knows `spawn`.
pub const SPAWN_NUMBER: u32 = 4;

/// A call that the thread package answers, other than `spawn`, which names a function.
#[derive(Clone, Copy, PartialEq, Eq)]
pub enum ModelledCall {
    /// `accept()`
    Accept,
    /// `wait(channel)`
    Wait,
    /// `sleep(ticks)`
    Sleep,
    /// `yield()`
    Yield,
    /// `take(resource, amount)`
    Take,
    /// `waitfor(channel, ticks)`
    WaitFor,
    /// `put(value)`
    Put,
    /// `give(resource, amount)`
    Give,
    /// `self()`
    SelfNumber,
}

impl ModelledCall {
    /// All modelled calls.
    pub const ALL: [ModelledCall; 9] = [
        ModelledCall::Accept,
        ModelledCall::Wait,
        ModelledCall::Sleep,
        ModelledCall::Yield,
        ModelledCall::Take,
        ModelledCall::WaitFor,
        ModelledCall::Put,
        ModelledCall::Give,
        ModelledCall::SelfNumber,
    ];

    /// Returns the call's name in a source.
    pub fn name(self) -> &'static str
        ensures { result.now ≡ name_of self }
    {
        match self {
            ModelledCall::Accept => "accept",
            ModelledCall::Wait => "wait",
            ModelledCall::Sleep => "sleep",
            ModelledCall::Yield => "yield",
            ModelledCall::Take => "take",
            ModelledCall::WaitFor => "waitfor",
            ModelledCall::Put => "put",
            ModelledCall::Give => "give",
            ModelledCall::SelfNumber => "self",
        }
    }

    /// Returns the number by which the run time knows the call.
    pub fn number(self) -> u32
        ensures { result ≡ number_of self }
    {
        match self {
            ModelledCall::Accept => 16,
            ModelledCall::Wait => 17,
            ModelledCall::Sleep => 18,
            ModelledCall::Yield => 19,
            ModelledCall::Take => 20,
            ModelledCall::WaitFor => 21,
            ModelledCall::Put => 3,
            ModelledCall::Give => 5,
            ModelledCall::SelfNumber => 6,
        }
    }

    /// Returns the call that has this number in the run time, or `None` if no modelled call has it.
    pub fn of_number(number: u32) -> Option<ModelledCall>
        ensures { result ≡ call_numbered number }
    {
        match number {
            3 => Some(ModelledCall::Put),
            5 => Some(ModelledCall::Give),
            6 => Some(ModelledCall::SelfNumber),
            16 => Some(ModelledCall::Accept),
            17 => Some(ModelledCall::Wait),
            18 => Some(ModelledCall::Sleep),
            19 => Some(ModelledCall::Yield),
            20 => Some(ModelledCall::Take),
            21 => Some(ModelledCall::WaitFor),
            _ => None,
        }
    }

    /// Returns the number of its arguments.
    pub fn parameters(self) -> usize
        ensures { result ≡ parameters_of self }
    {
        match self {
            ModelledCall::Accept | ModelledCall::Yield | ModelledCall::SelfNumber => 0,
            ModelledCall::Wait | ModelledCall::Sleep | ModelledCall::Put => 1,
            ModelledCall::Take | ModelledCall::WaitFor | ModelledCall::Give => 2,
        }
    }

    /// Returns whether it gives a result.
    pub fn gives_result(self) -> bool
        ensures { result ≡ gives_result self }
    {
        match self {
            ModelledCall::Accept
            | ModelledCall::Wait
            | ModelledCall::WaitFor
            | ModelledCall::SelfNumber => true,
            ModelledCall::Sleep
            | ModelledCall::Yield
            | ModelledCall::Take
            | ModelledCall::Put
            | ModelledCall::Give => false,
        }
    }

    /// Returns whether it blocks the thread.
    pub fn blocks(self) -> bool
        ensures { result ≡ blocks self }
    {
        match self {
            ModelledCall::Accept
            | ModelledCall::Wait
            | ModelledCall::Sleep
            | ModelledCall::Yield
            | ModelledCall::Take
            | ModelledCall::WaitFor => true,
            ModelledCall::Put | ModelledCall::Give | ModelledCall::SelfNumber => false,
        }
    }
}

/// Law: modelled calls have different numbers, none of which is that of `spawn`, and a call asks to block
/// exactly if the table says so.
pub fn modelled_calls_have_numbers()
    ensures numbered { (call : ModelledCall) → call_numbered (number_of call) ≡ Some call }
    ensures only { (number : ℕ) (call : ModelledCall) → call_numbered number ≡ Some call → number ≡ number_of call }
    ensures apart { call_numbered spawn_number ≡ None }
    ensures blocking { (call : ModelledCall) (a b : ℕ) → is_blocking (call_with call a b) ≡ blocks call }
{}
