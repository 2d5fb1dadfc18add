// Changes of valid pairs, and the checker's answers. Next to each refusal is a similar change that is accepted, or that
// fails only by a later rule.

use crate::changes::Answer::{Accepted, Rejected};
use crate::changes::Change::{Cut, Line, More, NoLine, Padded, Word};
use crate::changes::List::{Code, Entries, Globals, Tables as TableWords};
use crate::changes::{Answer, Change, check_changed};
use crate::pairs::Of;
use crate::pairs::Of::{Linked, Plain, Putting, Spawning, Tables};
use std::alloc::Global;

/// A pair, its changes, and the checker's answer: the rule, the function and the index that fail first.
type Row = (Of, &'static [Change], Answer);

// Rows of the valid pairs.
const THE_VALID_PAIRS: [Row; 5] = [
    (Putting, &[], Accepted),
    (Plain, &[], Accepted),
    (Linked, &[], Accepted),
    (Tables, &[], Accepted),
    (Spawning, &[], Accepted),
];

// Rows of the sizes.
const THE_SIZES: [Row; 7] = [
    (Plain, &[Line(2, b"chunk 72")], Rejected(1, 0, 1)),
    (Plain, &[Line(2, b"chunk 48")], Rejected(1, 0, 1)),
    (Plain, &[Line(2, b"chunk 65552")], Rejected(1, 0, 1)),
    (Plain, &[Line(2, b"chunk 65536")], Accepted),
    (Plain, &[Cut(Code, 1)], Rejected(1, 0, 2)),
    (Plain, &[Padded(Code, 200001)], Rejected(1, 0, 2)),
    (Plain, &[Padded(Code, 200000)], Accepted),
];

// Rows of the counts.
const THE_COUNTS: [Row; 6] = [
    (
        Plain,
        &[Line(4, b"functions 1"), NoLine(6)],
        Rejected(1, 0, 3),
    ),
    (Plain, &[More(Entries, 4168)], Rejected(1, 0, 3)),
    (Plain, &[Cut(Entries, 1)], Rejected(1, 0, 3)),
    (
        Plain,
        &[Line(5, b"function 4104 16 16 12 16 0")],
        Rejected(1, 0, 4),
    ),
    (
        Plain,
        &[Line(5, b"function 4104 16 16 12 16 0 4 8")],
        Rejected(1, 0, 4),
    ),
    (
        Plain,
        &[Line(6, b"function 4168 27 16 12 32 0 4")],
        Rejected(1, 1, 4),
    ),
];

// Rows of the sites; index 5 comes before index 4 of a later function.
const THE_SITES: [Row; 9] = [
    (Plain, &[Line(7, b"sites 0"), NoLine(8)], Rejected(1, 0, 5)),
    (Plain, &[Line(8, b"site 1 plain")], Rejected(1, 0, 5)),
    (Plain, &[Line(8, b"site 0 spawn 16")], Rejected(1, 0, 5)),
    (
        Plain,
        &[Line(7, b"sites 2"), Line(8, b"site 0 plain\nsite 1 plain")],
        Rejected(1, 0, 5),
    ),
    (
        Plain,
        &[
            Line(6, b"function 4168 27 16 12 32 0 4"),
            Line(7, b"sites 0"),
            NoLine(8),
        ],
        Rejected(1, 0, 5),
    ),
    (Spawning, &[Line(8, b"site 0 plain")], Rejected(1, 0, 5)),
    (Spawning, &[Line(8, b"site 0 linked 16")], Rejected(1, 0, 5)),
    (
        Tables,
        &[Line(8, b"sites 1"), NoLine(10)],
        Rejected(1, 0, 5),
    ),
    (
        Tables,
        &[Line(8, b"sites 3"), Line(10, b"site 1 plain\nsite 2 plain")],
        Rejected(1, 0, 5),
    ),
];

// Rows of the places of a function's words.
const WHERE_THE_WORDS_OF_A_FUNCTION_STAND: [Row; 11] = [
    (
        Plain,
        &[Line(6, b"function 4172 27 16 12 32 0 4 8")],
        Rejected(2, 1, 1),
    ),
    (
        Plain,
        &[Line(6, b"function 4280 0 16 12 32 0 4 8")],
        Rejected(2, 1, 1),
    ),
    (
        Plain,
        &[Line(5, b"function 4100 16 16 12 16 0 4")],
        Rejected(2, 0, 1),
    ),
    (
        Plain,
        &[Line(5, b"function 4106 16 16 12 16 0 4")],
        Rejected(2, 0, 1),
    ),
    (
        Plain,
        &[Line(5, b"function 4104 4294967295 16 12 16 0 4")],
        Rejected(2, 0, 1),
    ),
    (
        Plain,
        &[Line(6, b"function 4164 27 16 12 32 0 4 8")],
        Rejected(2, 1, 2),
    ),
    (Plain, &[Word(Entries, 1, 4172)], Rejected(2, 1, 2)),
    (
        Plain,
        &[Line(5, b"function 4104 17 16 12 16 0 4")],
        Rejected(2, 1, 3),
    ),
    (
        Plain,
        &[
            Line(6, b"function 4104 27 16 12 32 0 4 8"),
            Word(Entries, 1, 4104),
        ],
        Rejected(2, 1, 3),
    ),
    (
        Plain,
        &[
            Line(6, b"function 4104 0 16 12 32 0 4 8"),
            Word(Entries, 1, 4104),
        ],
        Rejected(5, 1, 0),
    ),
    (
        Plain,
        &[
            Line(6, b"function 4276 0 16 12 32 0 4 8"),
            Word(Entries, 1, 4276),
        ],
        Rejected(5, 1, 0),
    ),
];

// Rows of frames.
const FRAMES: [Row; 4] = [
    (
        Plain,
        &[Line(5, b"function 4104 16 24 12 16 0 4")],
        Rejected(3, 0, 0),
    ),
    (
        Plain,
        &[Line(5, b"function 4104 16 0 12 16 0 4")],
        Rejected(3, 0, 0),
    ),
    (
        Plain,
        &[Line(6, b"function 4168 27 2048 12 32 0 4 8")],
        Rejected(3, 1, 0),
    ),
    (
        Plain,
        &[Line(6, b"function 4168 27 2032 12 32 0 4 8")],
        Rejected(5, 1, 0),
    ),
];

// Rows of places.
const PLACES: [Row; 9] = [
    (
        Plain,
        &[Line(5, b"function 4104 16 16 12 16 0 2")],
        Rejected(4, 0, 1),
    ),
    (
        Plain,
        &[Line(5, b"function 4104 16 16 12 16 0 0")],
        Rejected(4, 0, 1),
    ),
    (
        Plain,
        &[Line(5, b"function 4104 16 16 12 16 0 16")],
        Rejected(4, 0, 1),
    ),
    (
        Plain,
        &[Line(5, b"function 4104 16 16 12 16 0 4294967292")],
        Rejected(4, 0, 1),
    ),
    (
        Plain,
        &[Line(5, b"function 4104 16 16 4 16 0 4")],
        Rejected(4, 0, 2),
    ),
    (
        Plain,
        &[Line(5, b"function 4104 16 16 14 16 0 4")],
        Rejected(4, 0, 2),
    ),
    (
        Plain,
        &[Line(5, b"function 4104 16 16 16 16 0 4")],
        Rejected(4, 0, 2),
    ),
    (
        Plain,
        &[Line(5, b"function 4104 16 16 12 16 0 12")],
        Rejected(4, 0, 2),
    ),
    (
        Plain,
        &[Line(5, b"function 4104 16 16 12 16 0 8")],
        Rejected(6, 0, 0),
    ),
];

// Rows of prologues.
const PROLOGUES: [Row; 5] = [
    (Plain, &[Word(Code, 2, 0)], Rejected(5, 0, 0)),
    (Plain, &[Word(Code, 3, 0)], Rejected(5, 0, 1)),
    (Plain, &[Word(Code, 4, 0)], Rejected(5, 0, 2)),
    (Plain, &[Word(Code, 18, 0)], Rejected(5, 1, 0)),
    (
        Plain,
        &[Line(5, b"function 4104 2 16 12 16 0 4")],
        Rejected(5, 0, 2),
    ),
];

// Rows of operations.
const OPERATIONS: [Row; 9] = [
    (Plain, &[Word(Code, 5, 0)], Rejected(6, 0, 0)),
    (Plain, &[Word(Code, 7, 0)], Rejected(6, 0, 1)),
    (Plain, &[Word(Code, 17, 0)], Rejected(6, 0, 3)),
    (Plain, &[Word(Code, 30, 0)], Rejected(6, 1, 3)),
    (Plain, &[Word(Code, 44, 0)], Rejected(6, 1, 7)),
    (
        Plain,
        &[Line(5, b"function 4104 15 16 12 16 0 4")],
        Rejected(6, 0, 3),
    ),
    (
        Plain,
        &[
            Line(6, b"function 4168 28 16 12 32 0 4 8"),
            More(Code, 32871),
        ],
        Rejected(6, 1, 8),
    ),
    (Linked, &[Line(8, b"site 0 linked 32")], Rejected(6, 1, 3)),
    (Spawning, &[Line(8, b"site 0 spawn 32")], Rejected(6, 1, 1)),
];

// Rows of the end stub.
const THE_END_STUB: [Row; 2] = [
    (Plain, &[Word(Code, 0, 0)], Rejected(7, 0, 0)),
    (Plain, &[Word(Code, 1, 0)], Rejected(7, 0, 1)),
];

// Rows of table words.
const TABLE_WORDS: [Row; 5] = [
    (
        Tables,
        &[Word(TableWords, 0, 4196), Word(TableWords, 1, 4104)],
        Rejected(8, 0, 0),
    ),
    (Tables, &[Word(TableWords, 1, 4104)], Rejected(8, 0, 1)),
    (Tables, &[Cut(TableWords, 1)], Rejected(8, 0, 1)),
    (Tables, &[More(TableWords, 4104)], Rejected(8, 0, 2)),
    (Plain, &[More(TableWords, 0)], Rejected(8, 0, 0)),
];

// Rows of needs.
const NEEDS: [Row; 4] = [
    (
        Linked,
        &[Line(8, b"site 0 linked 32"), Word(Code, 31, 0x0203_0313)],
        Rejected(9, 1, 0),
    ),
    (
        Linked,
        &[Line(8, b"site 0 linked 0"), Word(Code, 31, 0x0003_0313)],
        Rejected(9, 1, 0),
    ),
    (
        Spawning,
        &[Line(8, b"site 0 spawn 32"), Word(Code, 18, 0x0206_0613)],
        Rejected(9, 1, 0),
    ),
    (
        Spawning,
        &[Line(8, b"site 0 spawn 0"), Word(Code, 18, 0x0006_0613)],
        Rejected(9, 1, 0),
    ),
];

// Rows of bounds.
const BOUNDS: [Row; 6] = [
    (
        Plain,
        &[Line(6, b"function 4168 27 16 12 16 0 4 8")],
        Rejected(10, 1, 0),
    ),
    (
        Plain,
        &[Line(6, b"function 4168 27 16 12 31 0 4 8")],
        Rejected(10, 1, 0),
    ),
    (
        Plain,
        &[
            Line(3, b"max-path 48"),
            Line(6, b"function 4168 27 16 12 33 0 4 8"),
        ],
        Accepted,
    ),
    (
        Tables,
        &[Line(5, b"function 4104 23 16 12 17 0 4 8")],
        Rejected(10, 2, 0),
    ),
    (
        Tables,
        &[Line(6, b"function 4196 23 16 12 17 0 4 8")],
        Rejected(10, 2, 0),
    ),
    (
        Tables,
        &[
            Line(6, b"function 4196 23 16 12 17 0 4 8"),
            Line(7, b"function 4288 65 16 12 33 0 4 8"),
        ],
        Accepted,
    ),
];

// Rows of paths; index 3 comes before index 2 of a later function.
const PATHS: [Row; 8] = [
    (
        Plain,
        &[Line(5, b"function 4104 16 16 12 0 0 4")],
        Rejected(11, 0, 1),
    ),
    (
        Plain,
        &[Line(5, b"function 4104 16 16 12 15 0 4")],
        Rejected(11, 0, 1),
    ),
    (Plain, &[Line(3, b"max-path 16")], Rejected(11, 1, 2)),
    (Plain, &[Line(3, b"max-path 31")], Rejected(11, 1, 2)),
    (Plain, &[Line(3, b"max-path 64")], Rejected(11, 0, 3)),
    (Plain, &[Line(3, b"max-path 49")], Rejected(11, 0, 3)),
    (Plain, &[Line(3, b"max-path 48")], Accepted),
    (
        Plain,
        &[
            Line(3, b"max-path 64"),
            Line(6, b"function 4168 27 16 12 80 0 4 8"),
        ],
        Rejected(11, 0, 3),
    ),
];

// Rows of starting values.
const STARTING_VALUES: [Row; 5] = [
    (Plain, &[More(Globals, 0)], Rejected(12, 0, 0)),
    (Spawning, &[Word(Globals, 0, 1)], Rejected(12, 0, 0)),
    (Spawning, &[Word(Globals, 2, 8)], Rejected(12, 0, 2)),
    (Spawning, &[Cut(Globals, 2)], Rejected(12, 0, 2)),
    (Spawning, &[More(Globals, 0)], Rejected(12, 0, 3)),
];

// Checks whether each row of a table has its expected answer.
fn hold(alloc: Global, rows: &[Row]) -> bool {
    for (of, changes, wanted) in rows {
        if check_changed(alloc, *of, changes) != *wanted {
            return false;
        }
    }
    true
}

// Checks the tables on places, by what is changed.
fn places_hold(alloc: Global) -> bool {
    hold(alloc, &THE_VALID_PAIRS)
        && hold(alloc, &THE_SIZES)
        && hold(alloc, &THE_COUNTS)
        && hold(alloc, &THE_SITES)
        && hold(alloc, &WHERE_THE_WORDS_OF_A_FUNCTION_STAND)
        && hold(alloc, &FRAMES)
        && hold(alloc, &PLACES)
}

// Checks the tables on code, and on what is computed from it.
fn code_holds(alloc: Global) -> bool {
    hold(alloc, &PROLOGUES)
        && hold(alloc, &OPERATIONS)
        && hold(alloc, &THE_END_STUB)
        && hold(alloc, &TABLE_WORDS)
        && hold(alloc, &NEEDS)
        && hold(alloc, &BOUNDS)
        && hold(alloc, &PATHS)
        && hold(alloc, &STARTING_VALUES)
}

#[test]
fn each_changed_pair_is_answered_so(rt: HostRuntime) {
    assert!(rt; places_hold(rt.alloc()) && code_holds(rt.alloc()));
}
