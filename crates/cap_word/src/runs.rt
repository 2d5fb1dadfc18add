// Laws of every machine that asks a world, and of its runs.
ghost use Rattle.std.specs.Prelude.{ℕ, ◌≡◌, ◌+◌, List};
ghost use Rattle.cap_word.specs.Runs.{Machine, Stops, Asks, Over, moves, and_then, run, on_from};

/// Law: the steps of a machine add up: m + n steps are m steps and then n, alone or against a world, and a machine
/// that has asked, has stopped or is over stays so. `S` are its states, `W` what it keeps while it waits, `Q` its
/// questions, `A` the answers, `E` its ends.
pub fn steps_add_up<S, W, Q, A, E>()
    ensures moves_add { (machine : Machine S W Q A E) (m n : ℕ) (state : S) → moves machine (m + n) state ≡ and_then (moves machine m state) (moves machine n) }
    ensures asks_stay { (machine : Machine S W Q A E) (m n : ℕ) (state : S) (question : Q) (waiting : W) → moves machine m state ≡ Asks question waiting → moves machine (m + n) state ≡ Asks question waiting }
    ensures stops_stay { (machine : Machine S W Q A E) (m n : ℕ) (state : S) (end : E) → moves machine m state ≡ Stops end → moves machine (m + n) state ≡ Stops end }
    ensures run_adds { (machine : Machine S W Q A E) (world : List Q → A) (m n : ℕ) (asked : List Q) (state : S) → run machine world (m + n) asked state ≡ on_from (run machine world m asked state) (run machine world n) }
    ensures over_stays { (machine : Machine S W Q A E) (world : List Q → A) (m n : ℕ) (asked before : List Q) (state : S) (end : E) → run machine world m before state ≡ Over asked end → run machine world (m + n) before state ≡ Over asked end }
{}
