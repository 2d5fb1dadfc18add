// The pool of chunks from which stacks are linked.
//
// In: the numbers of chunks of two sizes. Out: chunks by number, taken for a need and given back to the free list of
// their size; their words, read, written and borrowed; and their addresses in the machine's memory. As in Capriccio
// (von Behren et al., SOSP 2003, "Linked Stack Management"), the chunk given back last is taken first.
//
// All chunks lie side by side in one region of memory (region.rt), those of the first size first (shape.rt). Each free
// list is threaded through the first words of its chunks. The raw pointers of the region are in block.rt alone, in five
// functions that are proved by hand.
//
// Contracts see a pool as the record `Pool` of specs/Pool.antt: counts, words per chunk of each size, contents, and the
// two free lists. The crates above use the definitions in that file, among them which chunk a need takes (`taken_for`),
// the clauses of `ChunkPool`'s calls, `need_laws` and `place_laws`. There five definitions stay closed, and only the
// laws describe them: the number of words of a chunk, that of the words before it, the size of a chunk of the first
// size, the chunk of an address, and what a need takes. A law has no effect at run time: its contract is the theorem.
#![tactic(auto)]

mod block;
mod laws;
mod pool;
mod region;
mod shape;

pub use laws::{need_laws, place_laws};
pub use pool::ChunkPool;
