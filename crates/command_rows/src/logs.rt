// Logs of whole runs, which the rows of the program and those of the runner share.

pub(crate) const ENDLESS_LOG: &[u8] = b"run 0 0 0
out 0 0
out 0 1
stop nochunk 0 64 0
";

pub(crate) const LITTLE_FUEL_LOG: &[u8] = b"run 0 0 0
out 0 7
stop fuel 0 16 1023
";

pub(crate) const FALLING_LOG: &[u8] = b"event 0 arrive 0
drop 0 arrive 1
run 0 0 0
end 0 31 1022
event 31 data 0 7
drop 31 data 0 8
edge 0 1 1 7936 256
stop trace 5
";

/// A trace of two arrivals at once, two messages, and a line whose time is below that of the line before.
pub(crate) const FALLING_TRACE: &[u8] =
    b"arrive 0 0\narrive 0 1\ndata 5 0 7\ndata 6 0 8\ndata 4 0 9\n";
