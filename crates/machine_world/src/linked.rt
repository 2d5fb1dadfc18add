ghost use Rattle.std.specs.Prelude.{◌≡◌, [], ◌∷◌, Some};
ghost use Rattle.cap_word.specs.declared.stops.Stop.TheVariants.{NoChunk};
ghost use Rattle.machine_world.specs.Descending.{checked, words_of, code, world_at, move_of, shown, put_in, stop_in, seen, at_link, at_entry, in_callee, main_frame, caller_frame, entry_frame, callee_frame};
ghost use Rattle.machine_world.specs.InPlace.{HasFrames};
ghost use Rattle.machine_world.specs.Places.{InPrologue, InOperation};

/// Law: a program that links one chunk. Its code consists of the words of its templates. It puts 1 in its 91st
/// instruction, and has ended after 100, with both chunks free; with only one chunk it stops before its 44th. Its
/// frames are in place just after the link, at the callee's first word, and in the callee.
pub fn linked_example()
    ensures code { code ≡ words_of checked }
    ensures puts { put_in (move_of (world_at 2 90)) ≡ Some 1 }
    ensures ends { shown (world_at 2 100) ≡ Some (record { cost = 100; free = 0 ∷ 1 ∷ []; live = 0 }) }
    ensures no_chunk { stop_in (move_of (world_at 1 43)) ≡ Some NoChunk }
    ensures linked { seen (world_at 2 44) ≡ Some at_link }
    ensures entered { seen (world_at 2 45) ≡ Some at_entry }
    ensures inside { seen (world_at 2 47) ≡ Some in_callee }
    ensures linked_frames { HasFrames checked at_link.pool at_link.core (InOperation 0 10 9) (caller_frame ∷ main_frame ∷ []) }
    ensures entered_frames { HasFrames checked at_entry.pool at_entry.core (InPrologue 0 0) (entry_frame ∷ caller_frame ∷ main_frame ∷ []) }
    ensures inside_frames { HasFrames checked in_callee.pool in_callee.core (InPrologue 0 2) (callee_frame ∷ caller_frame ∷ main_frame ∷ []) }
{}
