ghost use Rattle.std.specs.Prelude.{◌≡◌, ℕ, ◌+◌, List, [], ◌∷◌, ◌++◌, length, Option, Some, None};
ghost use Rattle.std.specs.List.{AllByRecursion};
ghost use Rattle.machine_world.specs.Threads.{Thread, first_with, replaced, without};
ghost use Rattle.segment_laws.specs.Found.{at_place, threads_in, IsNumbered, IsOfRecord, KeepsRecords};

/// Laws of threads that are read from records of a type `R`, each of which has a distinct number and is, at its place,
/// a thread of that number. The thread of a number is found; writing a record changes only its thread; a record that is
/// put at an empty place, with the next number, adds its thread at the end; and removing a record removes its thread.
pub fn numbered_laws<R>()
    ensures found { (number_of : R → ℕ) (thread_in : ℕ → R → Thread) (slots : List (Option R)) (next place : ℕ) (r : R) → ((k : ℕ) (s : R) → (thread_in k s).number ≡ number_of s) → IsNumbered number_of slots next →
        at_place slots place ≡ Some r → first_with (number_of r) (threads_in number_of thread_in slots next) ≡ Some (thread_in place r) }
    ensures back { (number_of : R → ℕ) (thread_in : ℕ → R → Thread) (slots : List (Option R)) (next number : ℕ) (thread : Thread) → ((k : ℕ) (s : R) → (thread_in k s).number ≡ number_of s) →
        first_with number (threads_in number_of thread_in slots next) ≡ Some thread → IsOfRecord number_of thread_in slots thread × (thread.number ≡ number) }
    ensures members { (number_of : R → ℕ) (thread_in : ℕ → R → Thread) (slots : List (Option R)) (next : ℕ) → AllByRecursion (IsOfRecord number_of thread_in slots) (threads_in number_of thread_in slots next) }
    ensures same { (number_of : R → ℕ) (thread_in thread_in' : ℕ → R → Thread) (slots slots' : List (Option R)) (next : ℕ) → IsNumbered number_of slots next →
        ((k : ℕ) → at_place slots' k ≡ at_place slots k) → ((k : ℕ) (s : R) → at_place slots k ≡ Some s → thread_in' k s ≡ thread_in k s) →
        IsNumbered number_of slots' next × (threads_in number_of thread_in' slots' next ≡ threads_in number_of thread_in slots next) }
    ensures written { (number_of : R → ℕ) (thread_in thread_in' : ℕ → R → Thread) (slots slots' : List (Option R)) (next place : ℕ) (r r' : R) → ((k : ℕ) (s : R) → (thread_in k s).number ≡ number_of s) → ((k : ℕ) (s : R) → (thread_in' k s).number ≡ number_of s) →
        IsNumbered number_of slots next → at_place slots place ≡ Some r → at_place slots' place ≡ Some r' → number_of r' ≡ number_of r → KeepsRecords thread_in thread_in' slots slots' place →
        IsNumbered number_of slots' next × (threads_in number_of thread_in' slots' next ≡ replaced (thread_in' place r') (threads_in number_of thread_in slots next)) }
    ensures added { (number_of : R → ℕ) (thread_in thread_in' : ℕ → R → Thread) (slots slots' : List (Option R)) (next place : ℕ) (r : R) → IsNumbered number_of slots next →
        at_place slots place ≡ None → at_place slots' place ≡ Some r → number_of r ≡ next → KeepsRecords thread_in thread_in' slots slots' place →
        IsNumbered number_of slots' (next + 1) × (threads_in number_of thread_in' slots' (next + 1) ≡ threads_in number_of thread_in slots next ++ thread_in' place r ∷ []) }
    ensures removed { (number_of : R → ℕ) (thread_in thread_in' : ℕ → R → Thread) (slots slots' : List (Option R)) (next place : ℕ) (r : R) → ((k : ℕ) (s : R) → (thread_in k s).number ≡ number_of s) → IsNumbered number_of slots next →
        at_place slots place ≡ Some r → at_place slots' place ≡ None → KeepsRecords thread_in thread_in' slots slots' place →
        IsNumbered number_of slots' next × (threads_in number_of thread_in' slots' next ≡ without (number_of r) (threads_in number_of thread_in slots next))
        × (length (without (number_of r) (threads_in number_of thread_in slots next)) + 1 ≡ length (threads_in number_of thread_in slots next)) }
{}
