// The output of `demo`: the summaries of two workloads.
use crate::calls::{NONE, Row, all_hold};

const ONE: &[u8] =
    b"functions 4\nsites 6\ncheckpoints 0\nchoices 4\noutputs 1\nsum 1\ncost 129\nstop done\n";

const THOUSAND: &[u8] =
    b"functions 1003\nsites 1005\ncheckpoints 15\nchoices 3001\noutputs 1000\nsum 1499500\ncost 24170031\nstop done\n";

// The trace that is passed isn't read: one that is no trace changes nothing.
const DEMOS: [Row<'static>; 2] = [
    ("demo 1", NONE, b"no trace", 0, ONE, NONE),
    ("demo 1000", NONE, NONE, 0, THOUSAND, NONE),
];

#[test]
fn demos(rt: HostRuntime) {
    assert!(rt; all_hold(rt.alloc(), &DEMOS));
}
