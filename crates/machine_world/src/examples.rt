ghost use Rattle.std.specs.Prelude.{◌≡◌, [], ◌∷◌, Some};
ghost use Rattle.cap_word.specs.Calls.{Immediate};
ghost use Rattle.cap_word.specs.Runs.{Goes, Stops, moves};
ghost use Rattle.cap_word.specs.declared.calls.Ask.TheVariants.{Put};
ghost use Rattle.machine_world.specs.Examples.{one_put, main_thread, after_answer, question_of, free_at_end, ecall, at_ecall, linked_thread};
ghost use Rattle.machine_world.specs.Local.{Calls, NoRoom, Wrong, local_machine, local_step};

/// Law: small threads, run by the definitions. `main` of a program that puts 7 asks for that in its eighth instruction,
/// and has ended nine later, with its chunk free. A LINK runs with a free chunk and without one. Wrong steps are a
/// fault, an UNLINK of a chunk that isn't in front, an END with two chunks, and an undefined call.
pub fn local_examples()
    ensures puts { question_of (moves (local_machine one_put) 8 main_thread) ≡ Some (Calls (Immediate (Put 7))) }
    ensures ends { free_at_end (after_answer one_put 9 (moves (local_machine one_put) 8 main_thread)) ≡ Some (0 ∷ []) }
    ensures links { local_step ecall (at_ecall 0x8000_0010 1 (0 ∷ []) (1 ∷ [])) ≡ Goes linked_thread }
    ensures no_room { local_step ecall (at_ecall 0x8000_0010 1 (0 ∷ []) []) ≡ Stops NoRoom }
    ensures fault { local_step [] (at_ecall 0x8000_0010 1 (0 ∷ []) (1 ∷ [])) ≡ Stops Wrong }
    ensures wrong_unlink { local_step ecall (at_ecall 0x8000_0010 2 (1 ∷ 0 ∷ []) []) ≡ Stops Wrong }
    ensures wrong_end { local_step ecall (at_ecall 0x8000_0010 30 (1 ∷ 0 ∷ []) []) ≡ Stops Wrong }
    ensures no_call { local_step ecall (at_ecall 0x8000_0010 7 (0 ∷ []) (1 ∷ [])) ≡ Stops Wrong }
{}
