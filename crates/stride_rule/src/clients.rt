ghost use Rattle.std.specs.Prelude.{◌≡◌};
ghost use Rattle.stride_rule.specs.Clients.{goes_before, is_before, is_running};

use cap_word::ThreadId;

/// A thread that is scheduled by its stride.
#[derive(Clone, Copy)]
pub struct Client {
    /// The thread.
    pub thread: ThreadId,
    /// Its stride, by which its pass grows at each choice of it: from 1,024 to 1,048,576.
    pub stride: u32,
    /// Its pass.
    pub pass: u64,
}

/// Returns whether a thread with this pass comes before another: by pass, and by number if the passes are
/// equal.
pub(crate) fn is_earlier(pass: u64, number: u32, other_pass: u64, other: u32) -> bool
    ensures { result ≡ goes_before pass number other_pass other }
{
    pass < other_pass || pass == other_pass && number < other
}

/// Returns whether a client comes before another: by pass, and by the thread's number if the passes are
/// equal.
pub(crate) fn is_client_before(client: &Client, other: &Client) -> bool
    ensures { result ≡ is_before client.now other.now }
{
    is_earlier(
        client.pass,
        client.thread.number,
        other.pass,
        other.thread.number,
    )
}

/// Returns whether the segment of this client's thread is in progress.
pub(crate) fn is_client_running(running: Option<u32>, client: &Client) -> bool
    ensures { result ≡ is_running running client.now }
{
    match running {
        Some(number) => client.thread.number == number,
        None => false,
    }
}
