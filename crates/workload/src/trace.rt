// The trace of the workload.
ghost use Rattle.std.specs.Prelude.{◌≡◌, ◌<◌, ◌≤◌, ◌++◌, OnOk, IfOk};
ghost use Rattle.workload.specs.Traces.{arrival_line, message_line, lines_below, trace_text};

use crate::numbers::put_number;
use std::alloc::{AllocError, Global};

// The number of channels.
const CHANNELS: u32 = 64;
// The number of ticks from one arrival to the next, and from one message to the next.
const APART: u32 = 10;
// The tick of the first message.
const FIRST_MESSAGE: u32 = 1_000_000;

/// Returns the trace of the workload of `n`, from 1 to 1,000: `n` arrivals, every 10 ticks from tick 0 on, whose values
/// are the 64 channels in turn; then a message for each, every 10 ticks from tick 1,000,000 on, on that channel.
#[tactic(auto, unfolding(crate::specs::Traces::trace_text))]
pub fn make_trace(alloc: Global, n: u32) -> Result<Vec<u8>, AllocError>
    requires some { 1 ≤ n }
    requires few { n ≤ 1000 }
    ensures text { IfOk result (λ bytes. bytes.items ≡ trace_text n) }
{
    let mut text = Vec::new(alloc);
    put_arrivals(&mut text, n)?;
    put_messages(&mut text, n)?;
    Ok(text)
}

// Appends the arrivals below n.
fn put_arrivals(text: &mut Vec<u8>, n: u32) -> Result<(), AllocError>
    requires { n ≤ 1000 }
    ensures { OnOk result (text.new.items ≡ text.old.items ++ lines_below arrival_line n) }
{
    for j in 0..n {
        put_arrival(text, j)?;
    }
    Ok(())
}

// Appends arrival j.
fn put_arrival(text: &mut Vec<u8>, j: u32) -> Result<(), AllocError>
    requires { j < 1000 }
    ensures { OnOk result (text.new.items ≡ text.old.items ++ arrival_line j) }
{
    text.extend_from_slice(b"arrive ")?;
    put_number(text, APART * j)?;
    text.extend_from_slice(b" ")?;
    put_number(text, j % CHANNELS)?;
    text.extend_from_slice(b"\n")?;
    Ok(())
}

// Appends the messages below n.
fn put_messages(text: &mut Vec<u8>, n: u32) -> Result<(), AllocError>
    requires { n ≤ 1000 }
    ensures { OnOk result (text.new.items ≡ text.old.items ++ lines_below message_line n) }
{
    for j in 0..n {
        put_message(text, j)?;
    }
    Ok(())
}

// Appends message j.
fn put_message(text: &mut Vec<u8>, j: u32) -> Result<(), AllocError>
    requires { j < 1000 }
    ensures { OnOk result (text.new.items ≡ text.old.items ++ message_line j) }
{
    text.extend_from_slice(b"data ")?;
    put_number(text, FIRST_MESSAGE + APART * j)?;
    text.extend_from_slice(b" ")?;
    put_number(text, j % CHANNELS)?;
    text.extend_from_slice(b" ")?;
    put_number(text, j)?;
    text.extend_from_slice(b"\n")?;
    Ok(())
}
