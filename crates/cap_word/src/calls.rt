/// A modelled call that blocks the thread until it is ready. The fields are the call's arguments, as
/// words.
#[derive(Clone, Copy, Debug, PartialEq, Eq)]
pub enum Block {
    /// `accept()`: until an arrival is queued.
    Accept,
    /// `wait(channel)`: until that channel has a message.
    Wait { channel: u32 },
    /// `sleep(ticks)`: until that much time has passed; a word of at least 2^31 is a negative number.
    Sleep { ticks: u32 },
    /// `yield()`: ready at once.
    Yield,
    /// `take(resource, amount)`: until that much of the resource is unused.
    Take { resource: u32, amount: u32 },
    /// `waitfor(channel, ticks)`: until that channel has a message, or that much time has passed; a
    /// word of at least 2^31 is a negative number.
    WaitFor { channel: u32, ticks: u32 },
}

/// A modelled call that is answered at once. The fields are the call's arguments, as words.
#[derive(Clone, Copy, Debug, PartialEq, Eq)]
pub enum Ask {
    /// `put(value)`: outputs the value.
    Put { value: u32 },
    /// `spawn(function, argument)`: starts a thread. `function` is the function's number, the same in
    /// source and machine.
    Spawn { function: u32, argument: u32 },
    /// `give(resource, amount)`: returns that much of the resource.
    Give { resource: u32, amount: u32 },
    /// `self()`: the thread's number.
    SelfNumber,
}
