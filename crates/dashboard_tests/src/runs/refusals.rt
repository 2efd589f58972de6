//! Inputs that are refused, each with its least bad line.
use dash_script::Cause;
use dashboard_cli::*;

pub(super) const OF_SCRIPTS: [(&str, &str, &str, Status, &str, &str); 11] = [
    (
        "run",
        "",
        "",
        Status::Script {
            line: 1,
            cause: LineCause::Text(Cause::Missing),
        },
        "",
        "",
    ),
    (
        "text",
        "",
        "dashboard 1\nloopers 1\nthre",
        Status::Script {
            line: 3,
            cause: LineCause::Text(Cause::Form),
        },
        "",
        "",
    ),
    (
        "run",
        "",
        "dashboard 1\nloopers 9\n",
        Status::Script {
            line: 2,
            cause: LineCause::Text(Cause::Range),
        },
        "",
        "",
    ),
    (
        "trace",
        "",
        "trace 1\nend\n",
        Status::Script {
            line: 1,
            cause: LineCause::Text(Cause::Form),
        },
        "",
        "",
    ),
    (
        "run",
        "",
        "dashboard 1\nloopers 1\nthreads 1\nhandler 0 1\n",
        Status::Script {
            line: 4,
            cause: LineCause::Text(Cause::Unknown),
        },
        "",
        "",
    ),
    (
        "run",
        "",
        "dashboard 1\nloopers 1\nthreads 1\nhandler 1 0\n",
        Status::Script {
            line: 4,
            cause: LineCause::Text(Cause::Order),
        },
        "",
        "",
    ),
    (
        "animate",
        "",
        "animate 1\nperiod 1000000\ncountdown 60001 10\nend\n",
        Status::Script {
            line: 3,
            cause: LineCause::Text(Cause::Range),
        },
        "",
        "",
    ),
    (
        "inbox",
        "",
        "dashboard 1\n",
        Status::Script {
            line: 2,
            cause: LineCause::Text(Cause::Missing),
        },
        "",
        "",
    ),
    (
        "inbox",
        "",
        "dashboard 1\nloopers 2\nthreads 1\ngauge 0 0 5\nvsync 16666667\nend 1\n",
        Status::Script {
            line: 4,
            cause: LineCause::Text(Cause::Unknown),
        },
        "",
        "",
    ),
    // What a run through an inbox doesn't know: the least such line.
    (
        "inbox",
        "",
        "dashboard 1\nloopers 2\nthreads 1\nhandler 0 0\ngauge 0 0 5\nvsync 16666667\nend 1\n",
        Status::Script {
            line: 2,
            cause: LineCause::Inbox,
        },
        "",
        "",
    ),
    (
        "inbox",
        "",
        "dashboard 1\nloopers 1\nthreads 1\nhandler 0 0\nvsync 16666667\nat 1\n0 post 0 1 0\n0 barrier 0 0\n0 quit 0\nend 1\n",
        Status::Script {
            line: 8,
            cause: LineCause::Inbox,
        },
        "",
        "",
    ),
];

pub(super) const OF_TRACES: [(&str, &str, &str, Status, &str, &str); 4] = [
    ("check", "", "", Status::Trace { line: 1 }, "", ""),
    (
        "check",
        "",
        "trace 1\nqueue 0 main lockstep 3 1\n2 0 halt 0 halted\n",
        Status::Trace { line: 4 },
        "",
        "",
    ),
    (
        "check",
        "",
        "trace 1\nqueue 0 main lockstep 3 1\n2 0 halt 0  halted\nend\n",
        Status::Trace { line: 3 },
        "",
        "",
    ),
    (
        "check",
        "",
        "trace 1\nend\nend\n",
        Status::Trace { line: 3 },
        "",
        "",
    ),
];
