// The servers of examples/ at the top of the repository: the output of each on its trace is the log in its folder.
// tools/check_examples compares these texts with those files.
use crate::calls::{NONE, Row, all_hold};

/// Two workers that share the arrivals.
pub(crate) const POOL: &[u8] =
    b"// Two workers share the arrivals: a free one takes the oldest, and answers with its square.\nvoid worker(int n) {\n  int request;\n  while (1) {\n    request = accept();\n    put(request * request);\n  }\n}\n\nint main() {\n  spawn(worker, 1);\n  spawn(worker, 2);\n  return 0;\n}\n";

pub(crate) const TRACE_OF_POOL: &[u8] = b"arrive 100 3\narrive 100 4\narrive 500 5\n";

pub(crate) const LOG_OF_POOL: &[u8] =
    b"run 0 0 0\nend 0 31 1022\nrun 31 1 0\nblock 1 2 0 13 1022\nrun 44 2 0\nblock 2 2 0 13 1022\nevent 100 arrive 3\nevent 100 arrive 4\nrun 100 1 2\nout 1 9\nblock 1 2 0 20 1022\nrun 120 2 2\nout 2 16\nblock 2 2 0 20 1022\nevent 500 arrive 5\nrun 500 1 2\nout 1 25\nblock 1 2 0 20 1022\nedge 0 1 1 7936 256\nedge 0 2 2 3328 0\nedge 2 2 3 5120 0\nstop idle\n";

/// A request that comes in several messages.
pub(crate) const PIECES: &[u8] =
    b"// An arrival is the number of a channel. On it come the length of a list and then its numbers; the answer is their sum.\nint sum_of_list(int channel) {\n  int left;\n  int part;\n  int sum;\n  sum = 0;\n  left = wait(channel);\n  while (left > 0) {\n    part = wait(channel);\n    sum = sum + part;\n    left = left - 1;\n  }\n  return sum;\n}\n\nvoid worker(int n) {\n  int channel;\n  int sum;\n  while (1) {\n    channel = accept();\n    sum = sum_of_list(channel);\n    put(sum);\n  }\n}\n\nint main() {\n  spawn(worker, 1);\n  spawn(worker, 2);\n  return 0;\n}\n";

pub(crate) const TRACE_OF_PIECES: &[u8] =
    b"arrive 100 5\ndata 100 5 2\narrive 150 6\ndata 300 6 1\ndata 400 5 10\ndata 500 6 7\ndata 600 5 20\n";

pub(crate) const LOG_OF_PIECES: &[u8] =
    b"run 0 0 0\nend 0 31 1022\nrun 31 1 0\nblock 1 2 2 16 1022\nrun 47 2 0\nblock 2 2 2 16 1022\nevent 100 arrive 5\nevent 100 data 5 2\nrun 100 1 2\nblock 1 3 0<3 27 1022\nrun 127 1 3\nblock 1 4 1<3 17 1022\nevent 150 arrive 6\nrun 150 2 2\nblock 2 3 0<3 27 1022\nevent 300 data 6 1\nrun 300 2 3\nblock 2 4 1<3 17 1022\nevent 400 data 5 10\nrun 400 1 4\nblock 1 4 1<3 39 1022\nevent 500 data 6 7\nrun 500 2 4\nout 2 7\nblock 2 2 2 55 1022\nevent 600 data 5 20\nrun 600 1 4\nout 1 30\nblock 1 2 2 55 1022\nedge 0 1 1 7936 256\nedge 0 2 2 4096 0\nedge 2 3 2 6912 0\nedge 3 4 2 4352 0\nedge 4 2 2 14080 0\nedge 4 4 1 9984 0\nstop idle\n";

/// A bounded resource, and the gate.
pub(crate) const BOUNDED: &[u8] =
    b"// Requests share ten units of memory. A request says how many units it needs. Its worker takes them, works in three\n// pieces with the turns of others between, answers, and gives them back.\nvoid worker(int n) {\n  int units;\n  int piece;\n  while (1) {\n    units = accept();\n    take(1, units);\n    for (piece = 0; piece < 3; piece = piece + 1) yield();\n    put(units);\n    give(1, units);\n  }\n}\n\nint main() {\n  spawn(worker, 1);\n  spawn(worker, 2);\n  return 0;\n}\n";

pub(crate) const TRACE_OF_BOUNDED: &[u8] = b"arrive 100 9\narrive 120 2\n";

pub(crate) const LOG_OF_BOUNDED: &[u8] =
    b"run 0 0 0\nend 0 31 1022\nrun 31 1 0\nblock 1 2 0 16 1022\nrun 47 2 0\nblock 2 2 0 16 1022\nevent 100 arrive 9\nrun 100 1 2\nblock 1 3 1 10 1022\nrun 110 1 3\nblock 1 4 2 18 1022\nevent 128 arrive 2\nrun 128 1 4\nblock 1 4 2 25 1022\nrun 153 1 4\nblock 1 4 2 25 1022\nrun 178 1 4\nout 1 9\nblock 1 2 0 46 1022\nrun 224 2 2\nblock 2 3 1 10 1022\nrun 234 2 3\nblock 2 4 2 18 1022\nrun 252 2 4\nblock 2 4 2 25 1022\nrun 277 2 4\nblock 2 4 2 25 1022\nrun 302 2 4\nout 2 2\nblock 2 2 0 46 1022\nedge 0 1 1 7936 256 0\nedge 0 2 2 4096 0 0\nedge 2 3 2 2560 0 0\nedge 3 4 2 4608 0 2080\nedge 4 2 2 11776 0 -2080\nedge 4 4 4 6400 0 0\nstop idle\n";

/// A recursion over linked chunks.
pub(crate) const RECURSION: &[u8] =
    b"// The answer to a request n is 1 + 2 + .. + n, by a recursion n calls deep. At its end the thread yields once, so that\n// the log tells how many chunks it holds there.\nint sum_to(int n) {\n  int rest;\n  if (n < 1) {\n    yield();\n    return 0;\n  }\n  rest = sum_to(n - 1);\n  return n + rest;\n}\n\nint main() {\n  int request;\n  int answer;\n  while (1) {\n    request = accept();\n    answer = sum_to(request);\n    put(answer);\n  }\n}\n";

pub(crate) const TRACE_OF_RECURSION: &[u8] = b"arrive 100 1\narrive 1000 10\narrive 10000 100\n";

pub(crate) const LOG_OF_RECURSION: &[u8] =
    b"run 0 0 0\nblock 0 2 2 15 255\nevent 100 arrive 1\nrun 100 0 2\nblock 0 3 0<1<3 59 254\nrun 159 0 3\nout 0 1\nblock 0 2 2 36 255\nevent 1000 arrive 10\nrun 1000 0 2\nblock 0 4 0<1<1<1<1<1<1<1 374 245\nrun 1374 0 4\nout 0 55\nblock 0 2 2 171 255\nevent 10000 arrive 100\nrun 10000 0 2\nblock 0 4 0<1<1<1<1<1<1<1 3524 155\nrun 13524 0 4\nout 0 5050\nblock 0 2 2 1521 255\nedge 0 2 1 3840 0\nedge 2 3 1 15104 256\nedge 2 4 2 196544 5440\nedge 3 2 1 9216 -256\nedge 4 2 2 86976 -5440\nstop idle\n";

const LOG_OF_RECURSION_LARGE: &[u8] =
    b"run 0 0 0\nblock 0 2 2 15 1023\nevent 100 arrive 1\nrun 100 0 2\nblock 0 3 0<1<3 57 1023\nrun 157 0 3\nout 0 1\nblock 0 2 2 35 1023\nevent 1000 arrive 10\nrun 1000 0 2\nblock 0 4 0<1<1<1<1<1<1<1 354 1023\nrun 1354 0 4\nout 0 55\nblock 0 2 2 161 1023\nevent 10000 arrive 100\nrun 10000 0 2\nblock 0 4 0<1<1<1<1<1<1<1 3324 1023\nrun 13324 0 4\nout 0 5050\nblock 0 2 2 1421 1023\nedge 0 2 1 3840 0\nedge 2 3 1 14592 0\nedge 2 4 2 185664 0\nedge 3 2 1 8960 0\nedge 4 2 2 81536 0\nstop idle\n";

/// Threads that sleep.
pub(crate) const TIMERS: &[u8] =
    b"// Each arrival starts a thread that sleeps as many ticks as the arrival says, and then puts the number.\nvoid remind(int ticks) {\n  sleep(ticks);\n  put(ticks);\n}\n\nint main() {\n  int ticks;\n  while (1) {\n    ticks = accept();\n    spawn(remind, ticks);\n  }\n}\n";

pub(crate) const TRACE_OF_TIMERS: &[u8] = b"arrive 0 900\narrive 0 300\narrive 100 500\n";

pub(crate) const LOG_OF_TIMERS: &[u8] =
    b"event 0 arrive 900\nevent 0 arrive 300\nrun 0 0 0\nblock 0 2 2 12 1023\nrun 12 0 2\nblock 0 2 2 18 1022\nrun 30 1 0\nblock 1 3 0 8 1022\nrun 38 0 2\nblock 0 2 2 18 1021\nrun 56 2 0\nblock 2 3 0 8 1021\nevent 100 arrive 500\nrun 100 0 2\nblock 0 2 2 18 1020\nrun 118 3 0\nblock 3 3 0 8 1020\nrun 364 2 3\nout 2 300\nend 2 10 1021\nrun 626 3 3\nout 3 500\nend 3 10 1022\nrun 938 1 3\nout 1 900\nend 1 10 1023\nedge 0 2 1 3072 0\nedge 0 3 3 2048 0\nedge 2 2 3 4608 256\nedge 3 1 3 2560 -256\nstop idle\n";

/// A peer that doesn't answer in time.
const SILENT: &[u8] =
    b"// An arrival is the number of a channel. On it come the length of a list and then its numbers; the answer is their sum. A\n// peer that is silent for 500 ticks is given up: the answer is -1, and the worker takes the next one.\nint sum_of_list(int channel) {\n  int left;\n  int part;\n  int sum;\n  int heard;\n  heard = waitfor(channel, 500);\n  if (!heard) return -1;\n  left = wait(channel);\n  sum = 0;\n  while (left > 0) {\n    heard = waitfor(channel, 500);\n    if (!heard) return -1;\n    part = wait(channel);\n    sum = sum + part;\n    left = left - 1;\n  }\n  return sum;\n}\n\nvoid worker(int n) {\n  int channel;\n  int sum;\n  while (1) {\n    channel = accept();\n    sum = sum_of_list(channel);\n    put(sum);\n  }\n}\n\nint main() {\n  spawn(worker, 1);\n  return 0;\n}\n";

const TRACE_OF_SILENT: &[u8] =
    b"arrive 100 5\ndata 200 5 2\ndata 300 5 10\narrive 400 6\ndata 950 6 1\ndata 1100 6 7\narrive 1200 7\n";

const LOG_OF_SILENT: &[u8] =
    b"run 0 0 0\nend 0 21 1023\nrun 21 1 0\nblock 1 2 4 16 1023\nevent 100 arrive 5\nrun 100 1 2\nblock 1 3 0<5 29 1023\nevent 200 data 5 2\nrun 200 1 3\nblock 1 4 1<5 14 1023\nrun 214 1 4\nblock 1 5 2<5 26 1023\nevent 300 data 5 10\nrun 300 1 5\nblock 1 6 3<5 14 1023\nrun 314 1 6\nblock 1 5 2<5 43 1023\nevent 400 arrive 6\nrun 857 1 5\nout 1 -1\nblock 1 2 4 32 1023\nrun 889 1 2\nblock 1 3 0<5 29 1023\nevent 950 data 6 1\nrun 950 1 3\nblock 1 4 1<5 14 1023\nrun 964 1 4\nblock 1 5 2<5 26 1023\nevent 1100 data 6 7\nrun 1100 1 5\nblock 1 6 3<5 14 1023\nrun 1114 1 6\nout 1 7\nblock 1 2 4 55 1023\nevent 1200 arrive 7\nrun 1200 1 2\nblock 1 3 0<5 29 1023\nrun 1729 1 3\nout 1 -1\nblock 1 2 4 32 1023\nedge 0 1 1 5376 0\nedge 0 2 1 4096 0\nedge 2 3 3 7424 0\nedge 3 2 1 8192 0\nedge 3 4 2 3584 0\nedge 4 5 2 6656 0\nedge 5 2 1 8192 0\nedge 5 6 2 3584 0\nedge 6 2 1 14080 0\nedge 6 5 1 11008 0\nstop idle\n";

/// Calls inside expressions.
const ORDERS: &[u8] =
    b"// An arrival is the number of a channel. On it come the prices of an order, one after another; 500 ticks after the last of them the\n// order is over. Two workers take orders, and each answers with what both have sold so far.\nint sold;\n\nint sum_of(int channel) {\n  int sum;\n  sum = 0;\n  while (waitfor(channel, 500)) sum = sum + wait(channel);\n  return sum;\n}\n\nvoid worker(int n) {\n  while (1) {\n    sold = sum_of(accept()) + sold;\n    put(sold);\n  }\n}\n\nint main() {\n  spawn(worker, 1);\n  spawn(worker, 2);\n  return 0;\n}\n";

const TRACE_OF_ORDERS: &[u8] =
    b"arrive 100 5\ndata 200 5 2\narrive 300 6\ndata 400 6 7\ndata 500 5 10\ndata 600 6 1\n";

const LOG_OF_ORDERS: &[u8] =
    b"run 0 0 0\nend 0 31 1022\nrun 31 1 0\nblock 1 2 3 10 1022\nrun 41 2 0\nblock 2 2 3 10 1022\nevent 100 arrive 5\nrun 100 1 2\nblock 1 3 0<2 30 1022\nevent 200 data 5 2\nrun 200 1 3\nblock 1 4 1<2 18 1022\nrun 218 1 4\nblock 1 3 0<2 26 1022\nevent 300 arrive 6\nrun 300 2 2\nblock 2 3 0<2 30 1022\nevent 400 data 6 7\nrun 400 2 3\nblock 2 4 1<2 18 1022\nrun 418 2 4\nblock 2 3 0<2 26 1022\nevent 500 data 5 10\nrun 500 1 3\nblock 1 4 1<2 18 1022\nrun 518 1 4\nblock 1 3 0<2 26 1022\nevent 600 data 6 1\nrun 600 2 3\nblock 2 4 1<2 18 1022\nrun 618 2 4\nblock 2 3 0<2 26 1022\nrun 1044 1 3\nout 1 12\nblock 1 2 3 45 1022\nrun 1144 2 3\nout 2 20\nblock 2 2 3 45 1022\nedge 0 1 1 7936 256\nedge 0 2 2 2560 0\nedge 2 3 2 7680 0\nedge 3 2 2 11520 0\nedge 3 4 4 4608 0\nedge 4 3 4 6656 0\nstop idle\n";

/// Two tenants, by the stride rule and by the priority rule.
const TENANTS: &[u8] =
    b"// Two tenants share the machine. Each puts its number and lets the other have a turn, again and again.\nvoid tenant(int number) {\n  while (1) {\n    put(number);\n    yield();\n  }\n}\n\nint main() {\n  spawn(tenant, 1);\n  spawn(tenant, 2);\n  return 0;\n}\n";

const TRACE_OF_TENANTS: &[u8] = b"";

const LOG_OF_TENANTS: &[u8] =
    b"run 0 0 0\nend 0 31 1022\nrun 31 1 0\nout 1 1\nblock 1 2 1 15 1022\nrun 46 2 0\nout 2 2\nblock 2 2 1 15 1022\nrun 61 1 2\nout 1 1\nblock 1 2 1 13 1022\nrun 74 1 2\nout 1 1\nblock 1 2 1 13 1022\nrun 87 1 2\nout 1 1\nblock 1 2 1 13 1022\nrun 100 2 2\nout 2 2\nblock 2 2 1 13 1022\nrun 113 1 2\nout 1 1\nblock 1 2 1 13 1022\nrun 126 1 2\nout 1 1\nblock 1 2 1 13 1022\nrun 139 1 2\nout 1 1\nblock 1 2 1 13 1022\nrun 152 2 2\nout 2 2\nblock 2 2 1 13 1022\nrun 165 1 2\nout 1 1\nblock 1 2 1 13 1022\nrun 178 1 2\nout 1 1\nblock 1 2 1 13 1022\nrun 191 1 2\nedge 0 1 1 7936 256\nedge 0 2 2 3840 0\nedge 2 2 10 3328 0\nstop fuel 1 0 1022\n";

const LOG_OF_TENANTS_GRAPH: &[u8] =
    b"run 0 0 0\nend 0 31 1022\nrun 31 1 0\nout 1 1\nblock 1 2 1 15 1022\nrun 46 1 2\nout 1 1\nblock 1 2 1 13 1022\nrun 59 1 2\nout 1 1\nblock 1 2 1 13 1022\nrun 72 1 2\nout 1 1\nblock 1 2 1 13 1022\nrun 85 1 2\nout 1 1\nblock 1 2 1 13 1022\nrun 98 1 2\nout 1 1\nblock 1 2 1 13 1022\nrun 111 1 2\nout 1 1\nblock 1 2 1 13 1022\nrun 124 1 2\nout 1 1\nblock 1 2 1 13 1022\nrun 137 1 2\nout 1 1\nblock 1 2 1 13 1022\nrun 150 1 2\nout 1 1\nblock 1 2 1 13 1022\nrun 163 1 2\nout 1 1\nblock 1 2 1 13 1022\nrun 176 1 2\nout 1 1\nblock 1 2 1 13 1022\nrun 189 1 2\nedge 0 1 1 7936 256\nedge 0 2 1 3840 0\nedge 2 2 11 3328 0\nstop fuel 1 0 1022\n";

/// Waiting threads on small chunks.
const SIZES: &[u8] =
    b"// Each arrival starts a thread that waits on that channel for a number n, and puts in how many ways n is a sum of numbers above 0,\n// whatever their order. For that it needs a list; while it waits it needs next to nothing.\nint ways(int n) {\n  int of[101];\n  int part;\n  int i;\n  of[0] = 1;\n  for (part = 1; part <= n; part = part + 1) {\n    for (i = part; i <= n; i = i + 1) of[i] = of[i] + of[i - part];\n    yield();\n  }\n  return of[n];\n}\n\nvoid guest(int channel) {\n  int n;\n  int answer;\n  n = wait(channel);\n  take(1, 1);\n  answer = ways(n);\n  put(answer);\n  give(1, 1);\n}\n\nint main() {\n  int channel;\n  while (1) {\n    channel = accept();\n    spawn(guest, channel);\n  }\n}\n";

const TRACE_OF_SIZES: &[u8] =
    b"arrive 0 1\narrive 0 2\narrive 0 3\narrive 0 4\ndata 1000 2 3\ndata 1100 1 4\n";

const LOG_OF_SIZES: &[u8] =
    b"event 0 arrive 1\nevent 0 arrive 2\nevent 0 arrive 3\nevent 0 arrive 4\nrun 0 0 0\nblock 0 2 6 12 32\nrun 12 0 2\nblock 0 2 6 18 31\nrun 30 1 0\nblock 1 3 1 14 31\nrun 44 0 2\nblock 0 2 6 18 30\nrun 62 2 0\nblock 2 3 1 14 30\nrun 76 0 2\nblock 0 2 6 18 29\nrun 94 3 0\nblock 3 3 1 14 29\nrun 108 0 2\nblock 0 2 6 18 28\nrun 126 4 0\nblock 4 3 1 14 28\nevent 1000 data 2 3\nrun 1000 2 3\nblock 2 4 2 11 28\nrun 1011 2 4\nblock 2 5 0<3 357 27\nevent 1368 data 1 4\nrun 1368 2 5\nblock 2 5 0<3 167 27\nrun 1535 1 3\nblock 1 4 2 11 27\nrun 1546 2 5\nblock 2 5 0<3 104 27\nrun 1650 2 5\nout 2 3\nend 2 61 29\nrun 1711 1 4\nblock 1 5 0<3 420 28\nrun 2131 1 5\nblock 1 5 0<3 230 28\nrun 2361 1 5\nblock 1 5 0<3 167 28\nrun 2528 1 5\nblock 1 5 0<3 104 28\nrun 2632 1 5\nout 1 5\nend 1 61 30\nedge 0 2 1 3072 0 0\nedge 0 3 4 3584 0 0\nedge 2 2 4 4608 256 0\nedge 3 4 2 2816 0 0\nedge 4 5 2 93408 256 256\nedge 5 1 2 15616 -512 -256\nedge 5 5 5 40930 0 0\nstop idle\n";

const LOG_OF_SIZES_ONE: &[u8] =
    b"event 0 arrive 1\nevent 0 arrive 2\nevent 0 arrive 3\nevent 0 arrive 4\nrun 0 0 0\nblock 0 2 6 12 3\nrun 12 0 2\nblock 0 2 6 18 2\nrun 30 1 0\nblock 1 3 1 14 2\nrun 44 0 2\nblock 0 2 6 18 1\nrun 62 2 0\nblock 2 3 1 14 1\nrun 76 0 2\nblock 0 2 6 18 0\nrun 94 3 0\nblock 3 3 1 14 0\nrun 108 0 2\nedge 0 2 1 3072 0 0\nedge 0 3 3 3584 0 0\nedge 2 2 3 4608 256 0\nstop nochunk 0 9 0\n";

// Each of these servers idles at its end: the status is 10.
/// A key-value store for two clients.
pub(crate) const STORE: &[u8] =
    b"// A key-value store. An arrival is the number of a channel, on which a client's operations come: 1, a key and a value to set it, 2 and a\n// key to get its value, 0 to leave. Keys are above 0. An answer is 1 or the value, and -1 where the store is full or has no such key.\nint keys[16];\nint values[16];\n\nint slot_of(int key) {\n  int slot;\n  int tries;\n  slot = key % 16;\n  for (tries = 0; tries < 16; tries = tries + 1) {\n    if (keys[slot] == key || keys[slot] == 0) return slot;\n    slot = (slot + 1) % 16;\n  }\n  return -1;\n}\n\nint set(int key, int value) {\n  int slot;\n  slot = slot_of(key);\n  if (slot < 0) return -1;\n  keys[slot] = key;\n  values[slot] = value;\n  return 1;\n}\n\nint get(int key) {\n  int slot;\n  slot = slot_of(key);\n  if (slot < 0) return -1;\n  return keys[slot] == key ? values[slot] : -1;\n}\n\nvoid serve(int channel) {\n  int operation;\n  int key;\n  while (1) {\n    operation = wait(channel);\n    if (operation == 0) return;\n    key = wait(channel);\n    if (operation == 1) put(set(key, wait(channel)));\n    else put(get(key));\n  }\n}\n\nvoid worker(int n) {\n  while (1) serve(accept());\n}\n\nint main() {\n  spawn(worker, 1);\n  spawn(worker, 2);\n  return 0;\n}\n";

pub(crate) const TRACE_OF_STORE: &[u8] =
    b"arrive 100 1\ndata 100 1 1\ndata 100 1 7\ndata 110 1 70\narrive 300 2\ndata 300 2 2\ndata 300 2 7\ndata 500 2 1\ndata 500 2 23\ndata 600 1 2\ndata 600 1 23\ndata 700 2 5\ndata 900 1 2\ndata 900 1 23\ndata 1000 1 0\ndata 1100 2 0\n";

pub(crate) const LOG_OF_STORE: &[u8] =
    b"run 0 0 0\nend 0 31 1022\nrun 31 1 0\nblock 1 2 10 10 1022\nrun 41 2 0\nblock 2 2 10 10 1022\nevent 100 arrive 1\nevent 100 data 1 1\nevent 100 data 1 7\nrun 100 1 2\nblock 1 3 2<9 24 1022\nevent 124 data 1 70\nrun 124 1 3\nblock 1 4 3<9 19 1022\nrun 143 1 4\nblock 1 5 6<9 22 1022\nrun 165 1 5\nout 1 1\nblock 1 3 2<9 177 1022\nevent 342 arrive 2\nevent 342 data 2 2\nevent 342 data 2 7\nrun 342 2 2\nblock 2 3 2<9 24 1022\nrun 366 2 3\nblock 2 4 3<9 19 1022\nrun 385 2 4\nout 2 70\nblock 2 3 2<9 166 1022\nevent 551 data 2 1\nevent 551 data 2 23\nrun 551 2 3\nblock 2 4 3<9 19 1022\nrun 570 2 4\nblock 2 5 6<9 22 1022\nevent 600 data 1 2\nevent 600 data 1 23\nrun 600 1 3\nblock 1 4 3<9 19 1022\nrun 619 1 4\nout 1 -1\nblock 1 3 2<9 274 1022\nevent 893 data 2 5\nrun 893 2 5\nout 2 1\nblock 2 3 2<9 269 1022\nevent 1162 data 1 2\nevent 1162 data 1 23\nevent 1162 data 1 0\nevent 1162 data 2 0\nrun 1162 1 3\nblock 1 4 3<9 19 1022\nrun 1181 1 4\nout 1 5\nblock 1 3 2<9 258 1022\nrun 1439 2 3\nblock 2 2 10 24 1022\nrun 1463 1 3\nblock 1 2 10 24 1022\nedge 0 1 1 7936 256\nedge 0 2 2 2560 0\nedge 2 3 2 6144 0\nedge 3 2 2 6144 0\nedge 3 4 5 4864 0\nedge 4 3 3 48464 0\nedge 4 5 2 5632 0\nedge 5 3 2 48256 0\nstop idle\n";

/// A rate limiter.
pub(crate) const LIMITER: &[u8] =
    b"// A rate limiter: no more than two requests are answered in any 1,000 ticks. A request takes a unit of resource 1, and a thread of its\n// own gives the unit back 1,000 ticks later.\nvoid give_back(int n) {\n  sleep(1000);\n  give(1, 1);\n}\n\nvoid worker(int n) {\n  int request;\n  while (1) {\n    request = accept();\n    take(1, 1);\n    spawn(give_back, 0);\n    put(request);\n  }\n}\n\nint main() {\n  spawn(worker, 0);\n  return 0;\n}\n";

pub(crate) const TRACE_OF_LIMITER: &[u8] =
    b"arrive 100 1\narrive 110 2\narrive 120 3\narrive 130 4\narrive 2500 5\n";

pub(crate) const LOG_OF_LIMITER: &[u8] =
    b"run 0 0 0\nend 0 21 1023\nrun 21 1 0\nblock 1 2 2 13 1023\nevent 100 arrive 1\nrun 100 1 2\nblock 1 3 3 11 1023\nevent 111 arrive 2\nrun 111 1 3\nout 1 1\nblock 1 2 2 23 1022\nevent 134 arrive 3\nevent 134 arrive 4\nrun 134 2 0\nblock 2 4 0 9 1022\nrun 143 1 2\nblock 1 3 3 11 1022\nrun 154 1 3\nout 1 2\nblock 1 2 2 23 1021\nrun 177 3 0\nblock 3 4 0 9 1021\nrun 186 1 2\nblock 1 3 3 11 1021\nrun 1143 2 4\nend 2 15 1022\nrun 1158 1 3\nout 1 3\nblock 1 2 2 23 1021\nrun 1181 4 0\nblock 4 4 0 9 1021\nrun 1190 3 4\nend 3 15 1022\nrun 1205 1 2\nblock 1 3 3 11 1022\nrun 1216 1 3\nout 1 4\nblock 1 2 2 23 1021\nrun 1239 5 0\nblock 5 4 0 9 1021\nrun 2190 4 4\nend 4 15 1022\nrun 2248 5 4\nend 5 15 1023\nevent 2500 arrive 5\nrun 2500 1 2\nblock 1 3 3 11 1023\nrun 2511 1 3\nout 1 5\nblock 1 2 2 23 1022\nrun 2534 6 0\nblock 6 4 0 9 1022\nrun 3543 6 4\nend 6 15 1023\nedge 0 1 1 5376 0 0\nedge 0 2 1 3328 0 0\nedge 0 4 5 2304 0 0\nedge 2 3 5 2816 0 0\nedge 3 2 5 5888 256 256\nedge 4 1 5 3840 -256 -256\nstop idle\n";

/// A calculator over a stream of characters.
const CALCULATOR: &[u8] =
    b"// A calculator. An arrival is the number of a channel, on which the characters of a sum come, and = at its end: numbers, + - * and\n// parentheses, nested as deep as memory for stacks goes. next has the character of each channel that is to be read next.\nint next[64];\n\nint sum(int channel);\n\nvoid step(int channel) {\n  next[channel] = wait(channel);\n}\n\nint number(int channel) {\n  int value;\n  value = 0;\n  while (next[channel] >= 48 && next[channel] <= 57) {\n    value = value * 10 + next[channel] - 48;\n    step(channel);\n  }\n  return value;\n}\n\nint factor(int channel) {\n  int value;\n  if (next[channel] != 40) return number(channel);\n  step(channel);\n  value = sum(channel);\n  step(channel);\n  return value;\n}\n\nint product(int channel) {\n  int value;\n  value = factor(channel);\n  while (next[channel] == 42) {\n    step(channel);\n    value = value * factor(channel);\n  }\n  return value;\n}\n\nint sum(int channel) {\n  int value;\n  int sign;\n  value = product(channel);\n  while (next[channel] == 43 || next[channel] == 45) {\n    sign = 44 - next[channel];\n    step(channel);\n    value = value + sign * product(channel);\n  }\n  return value;\n}\n\nvoid worker(int n) {\n  int channel;\n  while (1) {\n    channel = accept();\n    step(channel);\n    put(sum(channel));\n  }\n}\n\nint main() {\n  spawn(worker, 0);\n  return 0;\n}\n";

const TRACE_OF_CALCULATOR: &[u8] =
    b"arrive 100 5\ndata 200 5 50\ndata 300 5 42\ndata 400 5 40\ndata 500 5 49\ndata 600 5 48\ndata 700 5 45\ndata 800 5 40\ndata 900 5 51\ndata 1000 5 45\ndata 1100 5 40\ndata 1200 5 52\ndata 1300 5 45\ndata 1400 5 53\ndata 1500 5 41\ndata 1600 5 41\ndata 1700 5 41\ndata 1800 5 61\n";

const LOG_OF_CALCULATOR: &[u8] =
    b"run 0 0 0\nend 0 21 15\nrun 21 1 0\nblock 1 2 12 13 15\nevent 100 arrive 5\nrun 100 1 2\nblock 1 3 0<13 15 15\nevent 200 data 5 50\nrun 200 1 3\nblock 1 4 0<1<2<6<9<15 200 14\nevent 400 data 5 42\nevent 400 data 5 40\nrun 400 1 4\nblock 1 5 0<7<9<15 94 14\nrun 494 1 5\nblock 1 6 0<3<8<9<15 69 14\nevent 563 data 5 49\nrun 563 1 6\nblock 1 7 0<1<2<6<9<4<8<9 202 12\nevent 765 data 5 48\nevent 765 data 5 45\nrun 765 1 7\nblock 1 7 0<1<2<6<9<4<8<9 113 12\nevent 878 data 5 40\nrun 878 1 7\nblock 1 8 0<10<4<8<9<15 176 13\nevent 1054 data 5 51\nevent 1054 data 5 45\nrun 1054 1 8\nblock 1 9 0<3<6<11<4<8<9<15 89 12\nevent 1143 data 5 40\nrun 1143 1 9\nblock 1 10 0<1<2<6<9<4<6<11 200 11\nevent 1343 data 5 52\nevent 1343 data 5 45\nrun 1343 1 10\nblock 1 11 0<10<4<6<11<4<8<9 176 12\nevent 1519 data 5 53\nevent 1519 data 5 41\nrun 1519 1 11\nblock 1 12 0<3<6<11<4<6<11<4 89 11\nevent 1608 data 5 41\nrun 1608 1 12\nblock 1 10 0<1<2<6<9<4<6<11 202 9\nevent 1810 data 5 41\nevent 1810 data 5 61\nrun 1810 1 10\nblock 1 13 0<10<4<6<11<4<6<11 176 10\nrun 1986 1 13\nblock 1 14 0<1<2<6<11<4<6<11 191 9\nrun 2177 1 14\nblock 1 15 0<5<6<11<4<6<11<4 182 11\nrun 2359 1 15\nblock 1 16 0<5<6<11<4<8<9<15 145 12\nrun 2504 1 16\nblock 1 17 0<5<8<9<15 146 14\nrun 2650 1 17\nout 1 12\nblock 1 2 12 138 15\nedge 0 1 1 5376 0\nedge 0 2 1 3328 0\nedge 2 3 1 3840 0\nedge 3 4 1 51200 256\nedge 4 5 1 24064 0\nedge 5 6 1 17664 0\nedge 6 7 1 51712 512\nedge 7 7 1 28928 0\nedge 7 8 1 45056 -256\nedge 8 9 1 22784 256\nedge 9 10 1 51200 256\nedge 10 11 1 45056 -256\nedge 10 13 1 45056 -256\nedge 11 12 1 22784 256\nedge 12 10 1 51712 512\nedge 13 14 1 48896 256\nedge 14 15 1 46592 -512\nedge 15 16 1 37120 -256\nedge 16 17 1 37376 -512\nedge 17 2 1 35328 -256\nstop idle\n";

/// A relay with mailboxes.
const RELAY: &[u8] =
    b"// A relay of three threads. Between two of them stands a box with room for one letter. Of box b resource 2b + 1 counts the letters that\n// are there, and 2b + 2 the free places: main takes the letters, since there are none yet.\nint box[2];\n\nvoid send(int b, int letter) {\n  take(2 * b + 2, 1);\n  box[b] = letter;\n  give(2 * b + 1, 1);\n}\n\nint receive(int b) {\n  int letter;\n  take(2 * b + 1, 1);\n  letter = box[b];\n  give(2 * b + 2, 1);\n  return letter;\n}\n\nvoid reader(int n) {\n  while (1) send(0, accept());\n}\n\nvoid doubler(int n) {\n  while (1) send(1, 2 * receive(0));\n}\n\nvoid writer(int n) {\n  while (1) put(receive(1));\n}\n\nint main() {\n  take(1, 1);\n  take(3, 1);\n  spawn(reader, 0);\n  spawn(doubler, 0);\n  spawn(writer, 0);\n  return 0;\n}\n";

const TRACE_OF_RELAY: &[u8] = b"arrive 500 3\narrive 500 4\narrive 900 5\n";

const LOG_OF_RELAY: &[u8] =
    b"run 0 0 0\nblock 0 2 10 12 1023\nrun 12 0 2\nblock 0 3 11 10 1023\nrun 22 0 3\nend 0 39 1021\nrun 61 1 0\nblock 1 4 5 10 1021\nrun 71 2 0\nblock 2 5 2<7 42 1021\nrun 113 3 0\nblock 3 6 2<9 42 1021\nevent 500 arrive 3\nevent 500 arrive 4\nrun 500 1 4\nblock 1 7 0<4 36 1021\nrun 536 1 7\nblock 1 4 5 48 1021\nrun 584 2 5\nblock 2 8 0<6 86 1021\nrun 670 2 8\nblock 2 5 2<7 80 1021\nrun 750 3 6\nout 3 6\nblock 3 6 2<9 89 1021\nrun 839 1 4\nblock 1 7 0<4 36 1021\nrun 875 1 7\nblock 1 4 5 48 1021\nevent 923 arrive 5\nrun 923 2 5\nblock 2 8 0<6 86 1021\nrun 1009 2 8\nblock 2 5 2<7 80 1021\nrun 1089 3 6\nout 3 8\nblock 3 6 2<9 89 1021\nrun 1178 1 4\nblock 1 7 0<4 36 1021\nrun 1214 1 7\nblock 1 4 5 48 1021\nrun 1262 2 5\nblock 2 8 0<6 86 1021\nrun 1348 2 8\nblock 2 5 2<7 80 1021\nrun 1428 3 6\nout 3 10\nblock 3 6 2<9 89 1021\nedge 0 2 1 3072 0 0 0 0 0\nedge 0 4 1 2560 0 0 0 0 0\nedge 0 5 1 10752 0 0 0 0 0\nedge 0 6 1 10752 0 0 0 0 0\nedge 2 3 1 2560 0 256 0 0 0\nedge 3 1 1 9984 512 0 0 256 0\nedge 4 7 3 9216 0 0 0 0 0\nedge 5 8 3 22016 0 256 -256 0 0\nedge 6 6 3 22784 0 0 0 256 -256\nedge 7 4 3 12288 0 -256 256 0 0\nedge 8 5 3 20480 0 0 0 -256 256\nstop idle\n";

/// Two accounts and two tellers that wait for one another.
const BANK: &[u8] =
    b"// Transfers between two accounts. Each account is a resource of one unit, which a transfer holds while it changes the balance: the first\n// account first. Two transfers in opposite directions, at the same time, wait for each other for ever.\nint balances[3];\n\nvoid transfer(int from, int to, int amount) {\n  take(from, 1);\n  sleep(100);\n  take(to, 1);\n  balances[from] = balances[from] - amount;\n  balances[to] = balances[to] + amount;\n  put(balances[to]);\n  give(to, 1);\n  give(from, 1);\n}\n\nvoid teller(int n) {\n  int request;\n  while (1) {\n    request = accept();\n    transfer(request / 10, request % 10, 5);\n  }\n}\n\nint main() {\n  spawn(teller, 1);\n  spawn(teller, 2);\n  return 0;\n}\n";

const TRACE_OF_BANK: &[u8] =
    b"arrive 100 12\narrive 500 21\narrive 1000 12\narrive 1010 21\narrive 1020 12\n";

const LOG_OF_BANK: &[u8] =
    b"run 0 0 0\nend 0 31 1022\nrun 31 1 0\nblock 1 2 6 13 1022\nrun 44 2 0\nblock 2 2 6 13 1022\nevent 100 arrive 12\nrun 100 1 2\nblock 1 3 0<7 40 1022\nrun 140 1 3\nblock 1 4 1<7 6 1022\nrun 246 1 4\nblock 1 5 2<7 9 1022\nrun 255 1 5\nout 1 5\nblock 1 2 6 104 1022\nevent 500 arrive 21\nrun 500 2 2\nblock 2 3 0<7 40 1022\nrun 540 2 3\nblock 2 4 1<7 6 1022\nrun 646 2 4\nblock 2 5 2<7 9 1022\nrun 655 2 5\nout 2 0\nblock 2 2 6 104 1022\nevent 1000 arrive 12\nrun 1000 1 2\nblock 1 3 0<7 40 1022\nevent 1040 arrive 21\nevent 1040 arrive 12\nrun 1040 1 3\nblock 1 4 1<7 6 1022\nrun 1046 2 2\nblock 2 3 0<7 40 1022\nrun 1086 2 3\nblock 2 4 1<7 6 1022\nrun 1146 1 4\nblock 1 5 2<7 9 1022\nrun 1192 2 4\nblock 2 5 2<7 9 1022\nedge 0 1 1 7936 256 0 0\nedge 0 2 2 3328 0 0 0\nedge 2 3 4 10240 0 0 0\nedge 3 4 4 1536 0 200 57\nedge 4 5 4 2304 0 0 0\nedge 5 2 2 26624 0 -224 -32\nstop idle\n";

const EXAMPLES: [Row<'static>; 6] = [
    ("serve P", POOL, TRACE_OF_POOL, 10, LOG_OF_POOL, NONE),
    ("serve P", PIECES, TRACE_OF_PIECES, 10, LOG_OF_PIECES, NONE),
    (
        "serve P --caps 1=10",
        BOUNDED,
        TRACE_OF_BOUNDED,
        10,
        LOG_OF_BOUNDED,
        NONE,
    ),
    (
        "serve P --chunk 64 --max-path 48 --chunks 256",
        RECURSION,
        TRACE_OF_RECURSION,
        10,
        LOG_OF_RECURSION,
        NONE,
    ),
    (
        "serve P",
        RECURSION,
        TRACE_OF_RECURSION,
        10,
        LOG_OF_RECURSION_LARGE,
        NONE,
    ),
    ("serve P", TIMERS, TRACE_OF_TIMERS, 10, LOG_OF_TIMERS, NONE),
];

const EXAMPLES_OF_PEERS: [Row<'static>; 2] = [
    ("serve P", SILENT, TRACE_OF_SILENT, 10, LOG_OF_SILENT, NONE),
    ("serve P", ORDERS, TRACE_OF_ORDERS, 10, LOG_OF_ORDERS, NONE),
];

// The tenants' fuel is spent at their end: the status is 13.
const EXAMPLES_OF_RULES: [Row<'static>; 2] = [
    (
        "serve P --rule stride --tickets 1=3 --fuel 191",
        TENANTS,
        TRACE_OF_TENANTS,
        13,
        LOG_OF_TENANTS,
        NONE,
    ),
    (
        "serve P --fuel 189",
        TENANTS,
        TRACE_OF_TENANTS,
        13,
        LOG_OF_TENANTS_GRAPH,
        NONE,
    ),
];

// With chunks of one size the fourth waiting thread finds none: the status is 12.
const EXAMPLES_OF_SIZES: [Row<'static>; 2] = [
    (
        "serve P --chunk 512 --max-path 448 --chunks 1 --extra 32 --extra-size 48 --caps 1=1",
        SIZES,
        TRACE_OF_SIZES,
        10,
        LOG_OF_SIZES,
        NONE,
    ),
    (
        "serve P --chunk 512 --max-path 448 --chunks 4 --caps 1=1",
        SIZES,
        TRACE_OF_SIZES,
        12,
        LOG_OF_SIZES_ONE,
        NONE,
    ),
];

const EXAMPLES_OF_SERVERS: [Row<'static>; 4] = [
    ("serve P", STORE, TRACE_OF_STORE, 10, LOG_OF_STORE, NONE),
    (
        "serve P --caps 1=2",
        LIMITER,
        TRACE_OF_LIMITER,
        10,
        LOG_OF_LIMITER,
        NONE,
    ),
    (
        "serve P --chunk 128 --max-path 64 --chunks 16",
        CALCULATOR,
        TRACE_OF_CALCULATOR,
        10,
        LOG_OF_CALCULATOR,
        NONE,
    ),
    (
        "serve P --caps 1=1,2=1,3=1,4=1",
        RELAY,
        TRACE_OF_RELAY,
        10,
        LOG_OF_RELAY,
        NONE,
    ),
];

// Two transfers in opposite directions wait for each other.
const EXAMPLES_OF_CIRCLES: [Row<'static>; 1] = [(
    "serve P --caps 1=1,2=1",
    BANK,
    TRACE_OF_BANK,
    10,
    LOG_OF_BANK,
    NONE,
)];

// The output of each server on its trace is its log.

#[test]
fn examples_have_their_logs(rt: HostRuntime) {
    assert!(rt; all_hold(rt.alloc(), &EXAMPLES));
}

#[test]
fn examples_of_peers_have_their_logs(rt: HostRuntime) {
    assert!(rt; all_hold(rt.alloc(), &EXAMPLES_OF_PEERS));
}

#[test]
fn examples_of_rules_have_their_logs(rt: HostRuntime) {
    assert!(rt; all_hold(rt.alloc(), &EXAMPLES_OF_RULES));
}

#[test]
fn examples_of_sizes_have_their_logs(rt: HostRuntime) {
    assert!(rt; all_hold(rt.alloc(), &EXAMPLES_OF_SIZES));
}

#[test]
fn examples_of_servers_have_their_logs(rt: HostRuntime) {
    assert!(rt; all_hold(rt.alloc(), &EXAMPLES_OF_SERVERS));
}

#[test]
fn examples_of_circles_have_their_logs(rt: HostRuntime) {
    assert!(rt; all_hold(rt.alloc(), &EXAMPLES_OF_CIRCLES));
}
