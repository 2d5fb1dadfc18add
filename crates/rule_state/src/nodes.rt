ghost use Rattle.std.specs.Prelude.{◌≡◌, ◌<◌, ◌≤◌, ℕ, length, take, vec_len, slice_index, OnOk, OnErr};
ghost use Rattle.rule_state.specs.Nodes.{IsPut};

use std::alloc::AllocError;

/// The node of threads that haven't run.
pub(crate) const START: u32 = 0;

/// Makes a place for the node of a thread, which is initially 0.
pub(crate) fn make_place(nodes: &mut Vec<u32>, slot: u32) -> Result<(), AllocError>
    ensures same { (other : ℕ) → slice_index nodes.new.items other ≡ slice_index nodes.old.items other }
    ensures longer { vec_len nodes.old ≤ vec_len nodes.new }
    ensures kept { take (vec_len nodes.old) nodes.new.items ≡ nodes.old.items }
    ensures place { OnOk result (slot < vec_len nodes.new) }
    ensures err { OnErr result (nodes.new.items ≡ nodes.old.items) }
{
    let places = slot as usize + 1;
    if nodes.len() < places {
        nodes.resize(places, 0)?;
    }
    Ok(())
}

/// Stores a node at its place.
pub(crate) fn put(nodes: &mut Vec<u32>, slot: u32, node: u32)
    requires { slot < length nodes.old.items }
    ensures { IsPut nodes.old.items nodes.new.items slot node }
{
    nodes[slot as usize] = node;
}
