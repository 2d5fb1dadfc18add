// A whole run that stops in a thread whose record is at the place of an earlier one: its slot isn't its number.

use crate::run_rows::ONE_UNIT;
use crate::runs::{Given, Share, ends};
use cap_word::{ThreadId, TrapKind};
use runner::RunEnd;

/// The first worker has ended when the second starts, which names a resource that doesn't exist.
const WORKERS: &[u8] =
    b"void w(int n) { give(n, 0); } int main() { spawn(w, 1); sleep(1000); spawn(w, 9); sleep(1000); return 0; }";

const WORKERS_LOG: &[u8] = b"run 0 0 0
block 0 2 2 18 1022
run 18 1 0
end 1 17 1023
run 1018 0 2
block 0 3 4 16 1022
run 1034 2 0
edge 0 1 1 4352 -256 0
edge 0 2 1 4608 256 0
edge 2 3 1 4096 256 0
stop trap 2 resource 11 1022
";

/// The second worker, at the place of the first.
const SECOND: ThreadId = ThreadId { slot: 1, number: 2 };

#[test]
fn a_place_is_used_again(rt: HostRuntime) {
    let given = Given {
        source: WORKERS,
        setup: ONE_UNIT,
        trace: b"",
        read: 0,
        write: 0,
        bytes: 16,
    };
    let end = RunEnd::Trap {
        thread: SECOND,
        kind: TrapKind::Resource,
    };
    assert!(rt; ends(rt.alloc(), &given, end, Share::Whole, WORKERS_LOG));
}
