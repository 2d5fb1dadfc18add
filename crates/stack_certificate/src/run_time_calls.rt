// The numbers of the run time's own calls, in a7 at an ECALL; the other calls have the numbers of cap_word.

/// LINK: links a chunk for a call that needs more stack than its chunk has.
pub const LINK_NUMBER: u32 = 1;

/// UNLINK: gives that chunk back after the call.
pub const UNLINK_NUMBER: u32 = 2;

/// END: the thread ends, behind its last frame.
pub const END_NUMBER: u32 = 30;

/// TRAP: the thread traps, for the reason in a0.
pub const TRAP_NUMBER: u32 = 31;
