//! Histories of queues, written and judged, and other texts.
use super::ONE;
use dashboard_cli::*;

/// The histories of a run: a post that is dispatched, a removal that takes nothing, and the end.
const HISTORY: &str =
    "trace 1\nqueue 0 main lockstep 3 6\n2 0 advance 10 advanced\n0 0 post 0 7 0 - - 10 s 0 accepted 0\n0 1 remove 0 what 8 - removed 0\n1 0 next 10 dispatched 0\n2 1 advance 12 advanced\n2 2 halt 12 halted\nend\n";

/// Its script.
const SCRIPT: &str = "at 10\n0 post 0 7 0\n0 remove 0 8\nend 12\n";

/// Histories, and what a check finds of them.
pub(super) const JUDGED: [(&str, &str, &str, Status, &str, &str); 6] = [
    ("check", "", HISTORY, Status::Ok, "", "legal\n"),
    ("check", "", "trace 1\nend\n", Status::Ok, "", "legal\n"),
    (
        "check",
        "",
        "trace 1\nqueue 0 main lockstep 3 1\n2 0 halt 0 halted\nend\n",
        Status::Ok,
        "",
        "legal\n",
    ),
    // Another reply.
    (
        "check",
        "",
        "trace 1\nqueue 0 main lockstep 3 1\n2 0 halt 0 advanced\nend\n",
        Status::Ok,
        "",
        "illegal queue 0 entry 0\n",
    ),
    // The later of two messages with one time is dispatched first.
    (
        "check",
        "",
        "trace 1\nqueue 0 side free 2 4\n0 0 post 0 1 0 - - 5 s - accepted 0\n0 1 post 0 2 0 - - 5 s - accepted 1\n1 0 next 5 dispatched 1\n1 1 next 5 dispatched 0\nend\n",
        Status::Ok,
        "",
        "illegal queue 0 entry 2\n",
    ),
    // The second and the third queue have a bad entry.
    (
        "check",
        "",
        "trace 1\nqueue 4 main lockstep 3 1\n2 0 halt 0 halted\nqueue 9 main lockstep 3 2\n2 0 halt 0 halted\n2 1 halt 0 halted\nqueue 5 main lockstep 3 1\n2 0 halt 0 advanced\nend\n",
        Status::Ok,
        "",
        "illegal queue 9 entry 1\n",
    ),
];

/// What is written of a script or of a plan.
pub(super) const WRITTEN: [(&str, &str, &str, Status, &str, &str); 6] = [
    ("trace", ONE, SCRIPT, Status::Ok, "", HISTORY),
    // A script is given back.
    ("text", ONE, SCRIPT, Status::Ok, ONE, SCRIPT),
    // A script is brought up, and one of edition 2 stays.
    (
        "text --to 2",
        "",
        "dashboard 1\nloopers 1\nthreads 1\nvsync 16666667\nat 10\n0 frame 0 1 7 0\n0 frame 0 2 7 0\n0 unframe 0 3 8\nend 60\n",
        Status::Ok,
        "",
        "dashboard 2\nloopers 1\nthreads 1\nvsync 16666667\nat 10\n0 frame 0 1 7 0\n0 frame 0 3 7 0\n0 unframe 0 4 8\nend 60\n",
    ),
    (
        "text --to 2",
        "",
        "dashboard 2\nloopers 1\nthreads 1\nvsync 16666667\nat 10\n0 frame 0 4 7 0\nend 60\n",
        Status::Ok,
        "",
        "dashboard 2\nloopers 1\nthreads 1\nvsync 16666667\nat 10\n0 frame 0 4 7 0\nend 60\n",
    ),
    (
        "animate",
        "",
        "animate 1\nperiod 1000000\ncountdown 0 10\nend\n",
        Status::Ok,
        "",
        "values 1\n1000000 0 finished\nend\n",
    ),
    // An inbox into which nothing is put.
    (
        "inbox",
        ONE,
        "end 0\n",
        Status::Ok,
        "inbox 1\nlooper 0\n",
        "fates accepted 0 dispatched 0 removed 0 dropped 0 stranded 0 queued 0\nfrom 0 0\nend\n",
    ),
];
