// Which counts and trees a wait belongs to.
ghost use Rattle.std.specs.Prelude.{◌≡◌, ℕ, ◌<◌, ◌≤◌, cond, if◌then◌else◌, IfSome, None, Option, Some};
ghost use Rattle.thread_waits.specs.Waiting.{is_at_accept, IsWaitInRangeIf};
ghost use Rattle.thread_waits.specs.Counted.{amount_of, if_later, is_at, is_at_channel, is_ready_always, number_or, wake_of};
ghost use Rattle.thread_waits.specs.Telling.{is_at_message, silent_wake};

use crate::min_tree::MinTree;
use crate::waits::Wait;
use cap_word::Block;
use thread_exchange::{Exchange, ticks_of};

/// Returns 1 if a thread with this wait is ready whatever the queues, the uses and the clock are, and otherwise 0.
pub(crate) fn ready_always(wait: Option<Wait>) -> usize
    ensures { result ≡ cond (is_ready_always wait) 1 0 }
{
    match wait {
        None => 0,
        Some(Wait::Fresh) => 1,
        Some(Wait::At { block, .. }) => match block {
            Block::Yield => 1,
            Block::Accept
            | Block::Wait { .. }
            | Block::Sleep { .. }
            | Block::Take { .. }
            | Block::WaitFor { .. } => 0,
        },
    }
}

/// Returns 1 if a thread with this wait is at `accept`, and otherwise 0.
pub(crate) fn at_accept(wait: Option<Wait>) -> usize
    ensures { result ≡ cond (is_at_accept wait) 1 0 }
{
    match wait {
        None | Some(Wait::Fresh) => 0,
        Some(Wait::At { block, .. }) => match block {
            Block::Accept => 1,
            Block::Wait { .. }
            | Block::Sleep { .. }
            | Block::Yield
            | Block::Take { .. }
            | Block::WaitFor { .. } => 0,
        },
    }
}

/// Returns the channel of this wait.
pub(crate) fn channel_of(wait: Option<Wait>) -> Option<usize>
    requires { IsWaitInRangeIf wait }
    ensures is { (channel : ℕ) → is_at_channel channel wait ≡ is_at result channel }
    ensures below { IfSome result (λ channel. channel < 64) }
{
    match wait {
        None | Some(Wait::Fresh) => None,
        Some(Wait::At { block, .. }) => match block {
            Block::Wait { channel } | Block::WaitFor { channel, .. } => Some(channel as usize),
            Block::Accept | Block::Sleep { .. } | Block::Yield | Block::Take { .. } => None,
        },
    }
}

/// Returns the amount of a resource that is waited for, or `NONE`.
pub(crate) fn amount_number(resource: usize, wait: Option<Wait>) -> u64
    ensures { result ≡ number_or (amount_of resource wait) }
{
    match wait {
        None | Some(Wait::Fresh) => MinTree::NONE,
        Some(Wait::At { block, .. }) => match block {
            Block::Take {
                resource: other,
                amount,
            } => amount_if(other as usize == resource, amount),
            Block::Accept
            | Block::Wait { .. }
            | Block::Sleep { .. }
            | Block::Yield
            | Block::WaitFor { .. } => MinTree::NONE,
        },
    }
}

// Returns the amount if it is of the resource, and otherwise `NONE`.
fn amount_if(is_of: bool, amount: u32) -> u64
    ensures { result ≡ number_or (if is_of then Some amount else None) }
{
    if is_of {
        u64::from(amount)
    } else {
        MinTree::NONE
    }
}

/// Returns the time from which on a thread with this wait is ready whatever happens, or `NONE`.
pub(crate) fn wake_number(wait: Option<Wait>) -> u64
    requires { IsWaitInRangeIf wait }
    ensures { result ≡ number_or (wake_of wait) }
{
    match wait {
        None | Some(Wait::Fresh) => MinTree::NONE,
        Some(Wait::At { block, since }) => match block {
            Block::Accept | Block::Wait { .. } | Block::Yield | Block::Take { .. } => MinTree::NONE,
            Block::Sleep { ticks } | Block::WaitFor { ticks, .. } => since + ticks_of(ticks),
        },
    }
}

/// Returns the time at which a sleeping thread with this wait wakes, or `NONE`. A thread whose channel has a message
/// doesn't sleep.
pub(crate) fn sleep_number(exchange: &Exchange, clock: u64, wait: Option<Wait>) -> u64
    requires { IsWaitInRangeIf wait }
    ensures { result ≡ number_or (silent_wake exchange.now.exchange clock wait) }
{
    if is_at_message(exchange, wait) {
        MinTree::NONE
    } else {
        later(clock, wake_number(wait))
    }
}

// Checks whether the channel of this wait has a message.
fn is_at_message(exchange: &Exchange, wait: Option<Wait>) -> bool
    requires { IsWaitInRangeIf wait }
    ensures { result ≡ is_at_message exchange.now.exchange wait }
{
    match wait {
        None | Some(Wait::Fresh) => false,
        Some(Wait::At { block, .. }) => match block {
            Block::Wait { channel } | Block::WaitFor { channel, .. } => {
                exchange.holds_message(channel)
            }
            Block::Accept | Block::Sleep { .. } | Block::Yield | Block::Take { .. } => false,
        },
    }
}

// Returns a time after the clock, or `NONE`.
fn later(clock: u64, time: u64) -> u64
    ensures { (o : Option ℕ) → time ≡ number_or o → result ≡ number_or (if_later clock o) }
{
    if clock < time { time } else { MinTree::NONE }
}
