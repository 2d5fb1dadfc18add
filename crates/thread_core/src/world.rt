use crate::state::State;
use accepted_pairs::Accepted;
use std::marker::Model;

/// The threads of an accepted program over one pool of chunks, with globals, queues, uses and the clock. Contracts see
/// it as the machine world. Only `make` returns one, and only its own calls change it.
#[derive(Drop)]
pub struct World {
    pub(crate) accepted: Accepted,
    pub(crate) chunks: u32,
    pub(crate) most: u64,
    pub(crate) state: State,
}

impl Model for World {
    ghost use Rattle.thread_core.specs.Worlds.{Held};
    ghost use Rattle.std.specs.Coded.{codes};
    ghost use Rattle.c_tree.specs.contracts.programs.Program as whole;

    ghost Value = { Held };

    ghost coded = { Prim.hlevel (codes, whole.the_row.coded) };

    ghost use Rattle.thread_core.specs.Inside.{held_of};

    ghost view = { held_of };

    ghost use Rattle.thread_core.specs.Kept.{IsKeptIn};

    ghost invariant = { IsKeptIn };
}
