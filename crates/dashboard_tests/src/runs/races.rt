//! Runs whose threads race.
use super::{Case, Wants, joined};
use dashboard_cli::*;
use loop_io::MeetGate;
use std::alloc::{AllocError, Global};

/// A post of one thread that races the quit of another.
const QUIT: &str =
    "dashboard 1\nloopers 2\nthreads 2\nhandler 0 0\nhandler 1 1\nvsync 16666667\nat 10\n0 quit 1\n1 post 1 5 0\nend 10\n";

/// Two threads put three posts into an inbox.
const PUTS: &str =
    "dashboard 1\nloopers 1\nthreads 2\nhandler 0 0\nvsync 16666667\nat 10\n0 post 0 1 0\n0 post 0 2 0\n1 post 0 3 0\nend 10\n";

/// Words and their script; how its text begins and ends; and the lawful middles, of which one must come.
const RACES: [(&str, &str, &str, &str, [&str; 3]); 2] = [
    // The post came behind the quit and was refused, or before it and was dropped.
    (
        "run",
        QUIT,
        "report 1\nlooper 0\nfates accepted 0 dispatched 0 removed 0 dropped 0 stranded 0 queued 0\nlooper 1\n",
        "end\n",
        [
            "refused 1 5 quit 1\nfates accepted 0 dispatched 0 removed 0 dropped 0 stranded 0 queued 0\n",
            "fates accepted 1 dispatched 0 removed 0 dropped 1 stranded 0 queued 0\n",
            "",
        ],
    ),
    // The first thread's own order is kept.
    (
        "inbox",
        PUTS,
        "inbox 1\nlooper 0\n",
        "fates accepted 3 dispatched 3 removed 0 dropped 0 stranded 0 queued 0\nfrom 0 2\nfrom 1 1\nend\n",
        [
            "10 dispatch 0 0 1\n10 dispatch 1 0 2\n10 dispatch 2 0 3\n",
            "10 dispatch 0 0 1\n10 dispatch 1 0 3\n10 dispatch 2 0 2\n",
            "10 dispatch 0 0 3\n10 dispatch 1 0 1\n10 dispatch 2 0 2\n",
        ],
    ),
];

/// Whether the text has this front and this end, and between them one of the middles.
fn is_lawful(text: &[u8], front: &str, end: &str, middles: &[&str]) -> bool {
    let Some(rest) = text.strip_prefix(front.as_bytes()) else {
        return false;
    };
    let Some(middle) = rest.strip_suffix(end.as_bytes()) else {
        return false;
    };
    middles.iter().any(|lawful| middle == lawful.as_bytes())
}

/// Whether the text is lawful for the race in this row.
pub(super) fn is_of_race(text: &[u8], row: usize) -> bool {
    for (place, &(_, _, front, end, middles)) in RACES.iter().enumerate() {
        if place == row {
            return is_lawful(text, front, end, middles.as_slice());
        }
    }
    false
}

/// Three loopers, four threads and six gauges over two seconds.
const BUSY: &str =
    "dashboard 1\nloopers 3\nthreads 4\nhandler 0 0\nhandler 1 1\nhandler 2 2\ngauge 0 0 100\ngauge 1 0 100\ngauge 2 1 100\ngauge 3 1 100\ngauge 4 2 100\ngauge 5 2 100\nvsync 16666667\non 1 2 times 10 post 0 3 5\non 0 3 times 10 post 2 4 5\nat 0\n0 set 0 500\n1 set 2 1000\n2 post 1 2 10\n3 post 2 9 1500\nat 500\n0 post-async 0 6 0\n3 remove 2 9\nat 1000\n1 set 4 300\n2 frame 0 0 77 0\nat 1900\n0 quit-safely 2\n1 post 1 2 50\nend 2000\n";

/// What its report says in whichever order its threads run: each looper's counts, each gauge's last value, and a frame
/// callback of a thread.
const BUSY_LINES: [&str; 7] = [
    "fates accepted 11 dispatched 11 removed 0 dropped 0 stranded 0 queued 0",
    "fates accepted 14 dispatched 14 removed 0 dropped 0 stranded 0 queued 0",
    "fates accepted 7 dispatched 6 removed 1 dropped 0 stranded 0 queued 0",
    "paint 0 500",
    "paint 2 1000",
    "paint 4 300",
    "run 0 77",
];

/// Whether the text has this line.
pub(super) fn has_line(text: &[u8], wanted: &[u8]) -> bool {
    text.split(|byte| *byte == b'\n').any(|line| line == wanted)
}

/// How many of its lines begin so.
fn lines_with(text: &[u8], front: &[u8]) -> usize {
    text.split(|byte| *byte == b'\n')
        .filter(|line| line.starts_with(front))
        .count()
}

/// Whether the text says of the busy run what it has to, and that one post of a rule came behind the quit.
pub(super) fn is_busy(text: &[u8]) -> bool {
    BUSY_LINES
        .iter()
        .all(|line| has_line(text, line.as_bytes()))
        && lines_with(text, b"refused 2 4 quit ") == 1
}

/// A script of two threads, which are the senders 0 and 1; its loopers are the senders 2 and 3.
const MEETING: &str =
    "dashboard 1\nloopers 2\nthreads 2\nhandler 0 0\nhandler 1 1\nvsync 16666667\nat 10\n0 post 0 1 0\n1 post 1 2 0\nend 10\n";

/// Adds each race twenty times, the busy run, and two senders that are held at the gate until both are there, so that they run side by
/// side: the threads, and the loopers.
pub(super) fn add<'a>(alloc: Global, cases: &mut Vec<Case<'a>>) -> Result<(), AllocError> {
    for _ in 0..20 {
        for (row, &(line, script, _, _, _)) in RACES.iter().enumerate() {
            let input = joined(alloc, script, "")?;
            cases.push(Case::new(line, input, Status::Ok, Wants::Race(row)))?;
        }
    }
    cases.push(Case::new("run", joined(alloc, BUSY, "")?, Status::Ok, Wants::Busy))?;
    for &(first, second) in &[(0, 1), (2, 3)] {
        let mut case = Case::new("run", joined(alloc, MEETING, "")?, Status::Ok, Wants::Met);
        case.gate = MeetGate::new(first, second, 0, 10_000_000);
        cases.push(case)?;
    }
    Ok(())
}
