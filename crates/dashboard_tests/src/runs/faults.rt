//! Faults of the source and of the sink, and inputs that are too long.
use super::{Case, NEVER, Wants, joined};
use dash_script::Cause;
use dashboard_cli::*;
use std::alloc::{AllocError, Global};

/// A gauge that moves to its target, in 93 bytes.
const SCRIPT: &str =
    "dashboard 1\nloopers 1\nthreads 1\nhandler 0 0\ngauge 0 0 3\nvsync 16666667\nat 0\n0 set 0 7\nend 70\n";

/// Its report, in 359 bytes.
const REPORT: &str =
    "report 1\nlooper 0\n0 dispatch 0 0 1\n17 dispatch 1 64 0\n34 dispatch 2 64 0\n51 dispatch 3 64 0\n67 dispatch 4 64 0\nfates accepted 5 dispatched 5 removed 0 dropped 0 stranded 0 queued 0\npaint 0 3\npaint 0 6\npaint 0 7\nframe 16666667\nrun 1 1000000\nrun 2 1000016\nframe 33333334\nrun 1 1000000\nrun 2 1000016\nframe 50000001\nrun 1 1000000\nrun 2 1000016\nframe 66666668\nend\n";

/// A run of the script: the most bytes of a piece, the read and the write that fail, the status, and how many bytes of the report are
/// written. Of pieces of 64 bytes there are two, and a third read finds the end; the report is written in 23 pieces.
fn row(number: u64) -> (u8, u64, u64, Status, u64) {
    match number {
        0..3 => (64, number, NEVER, Status::ReadFault, 0),
        3..26 => (64, NEVER, number - 3, Status::WriteFault, 16 * (number - 3)),
        26 => (64, 3, 23, Status::Ok, 359),
        _ => (1, NEVER, NEVER, Status::Ok, 359),
    }
}

/// Words, how many bytes of no text they are given, and their status.
const LENGTHS: [(&str, usize, Status); 3] = [
    (
        "run",
        MOST_BYTES,
        Status::Script {
            line: 1,
            cause: LineCause::Text(Cause::Form),
        },
    ),
    ("run", MOST_BYTES + 1, Status::TooLong),
    ("check", MOST_BYTES + 1, Status::Trace { line: 1 }),
];

/// Adds the runs of the script, and the inputs of no text.
pub(super) fn add<'a>(alloc: Global, cases: &mut Vec<Case<'a>>) -> Result<(), AllocError> {
    for number in 0..28 {
        let (most, read, write, status, length) = row(number);
        let input = joined(alloc, SCRIPT, "")?;
        let mut case = Case::new("run", input, status, Wants::Front(REPORT, length));
        case.most = most;
        case.read = read;
        case.write = write;
        cases.push(case)?;
    }
    for &(line, length, status) in &LENGTHS {
        let input = vec![in alloc; b'x'; length]?;
        let mut case = Case::new(line, input, status, Wants::Text("", ""));
        case.most = 255;
        cases.push(case)?;
    }
    Ok(())
}

/// Whether the text is so many bytes of this one, from its front.
pub(super) fn is_front(text: &[u8], whole: &str, length: u64) -> bool {
    text.len() as u64 == length && whole.as_bytes().starts_with(text)
}
