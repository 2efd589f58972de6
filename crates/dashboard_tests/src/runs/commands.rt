//! Which words name which command.
use super::{Case, Wants, words_of};
use dashboard_cli::*;
use std::alloc::{AllocError, Global};
use std::process::Abort;
use std::test::Fail;

/// Words, and the command that they name.
const NAMED: [(&str, Option<Subcommand>); 37] = [
    ("run", Some(Subcommand::Run)),
    ("run --free", Some(Subcommand::RunFree)),
    ("text", Some(Subcommand::Text)),
    ("text --to 2", Some(Subcommand::Migrate)),
    ("make 0", Some(Subcommand::Make { number: 0 })),
    (
        "make 4294967295",
        Some(Subcommand::Make { number: u32::MAX }),
    ),
    ("make 17 --run", Some(Subcommand::MakeRun { number: 17 })),
    ("make --run 17", Some(Subcommand::MakeRun { number: 17 })),
    ("trace", Some(Subcommand::Trace)),
    ("check", Some(Subcommand::Check)),
    ("animate", Some(Subcommand::Animate)),
    ("inbox", Some(Subcommand::Inbox)),
    ("trace trace", None),
    ("check --all", None),
    ("animate 1", None),
    ("inbox --free", None),
    ("", None),
    ("run --free --free", None),
    ("--free run", None),
    ("run --fast", None),
    ("run run", None),
    ("text --", None),
    ("text --to", None),
    ("text --to 1", None),
    ("text --to=2", None),
    ("text --to 02", None),
    ("text --to 2 --to 2", None),
    ("make", None),
    ("make 017", None),
    ("make +17", None),
    ("make -- 17", None),
    ("make 4294967296", None),
    ("make 1 2", None),
    ("make 17 --run --run", None),
    ("help", None),
    ("--help", None),
    ("Run", None),
];

fn names(
    rt: &impl Abort,
    alloc: Global,
    line: &str,
    command: Option<Subcommand>,
) -> Result<(), AllocError> {
    let words = words_of(alloc, line)?;
    let read = read_words(alloc, words.as_slice()).expect(rt, "memory");
    assert!(rt; read == command, "at {line:?}");
    Ok(())
}

#[test]
fn words_name_a_command(rt: HostRuntime) -> Result<(), Fail> {
    let alloc = rt.alloc();
    for &(line, command) in &NAMED {
        names(&rt, alloc, line, command)?;
    }
    Ok(())
}

/// Adds the words that name no command, which are refused, and `make`. None of them reads, so a source that fails is no fault.
pub(super) fn add<'a>(alloc: Global, cases: &mut Vec<Case<'a>>) -> Result<(), AllocError> {
    for &(line, command) in &NAMED {
        if command.is_none() {
            add_unread(alloc, cases, line, Status::Usage, Wants::Text("", ""))?;
        }
    }
    add_unread(alloc, cases, "make 0", Status::Ok, Wants::Made)?;
    add_unread(
        alloc,
        cases,
        "make 0 --run",
        Status::Ok,
        Wants::Text(SUMMARY, ""),
    )
}

fn add_unread<'a>(
    alloc: Global,
    cases: &mut Vec<Case<'a>>,
    line: &'a str,
    status: Status,
    wants: Wants<'a>,
) -> Result<(), AllocError> {
    let mut case = Case::new(line, Vec::new(alloc), status, wants);
    case.read = 0;
    cases.push(case)?;
    Ok(())
}

/// The script that is made from 0, up to its first block.
const MADE_FRONT: &str =
    "dashboard 1\nloopers 4\nthreads 4\nhandler 0 0\nhandler 1 1\nhandler 2 2\nhandler 3 3\nhandler 4 0\nhandler 5 1\nhandler 6 2\nhandler 7 3\ngauge 0 0 50\ngauge 1 1 50\ngauge 2 2 50\ngauge 3 3 50\nvsync 16666667\non 0 2 times 1000 post 1 3 1\non 1 2 times 1000 post 2 3 1\non 2 2 times 1000 post 3 3 1\non 3 2 times 1000 post 4 3 1\non 4 2 times 1000 post 5 3 1\non 5 2 times 1000 post 6 3 1\non 6 2 times 1000 post 7 3 1\non 7 2 times 1000 post 0 3 1\nat 0\n0 post 0 2 0\n1 post 0 2 0\n2 post 3 3 28\n3 post 3 3 45\nat 10\n";

/// Its last block, which hangs on the number of each line before, and its end.
const MADE_END: &str =
    "\nat 4990\n0 set 0 490\n1 callback 3 46 11\n2 post-async 3 4 7\n3 post 0 3 25\nend 6000\n";

/// Whether the text is that script: its lengths, its front and its end.
pub(super) fn is_made(text: &[u8]) -> bool {
    let lines = text.iter().filter(|byte| **byte == b'\n').count();
    let long = lines == 2_525 && text.len() == 34_029;
    long && text.starts_with(MADE_FRONT.as_bytes()) && text.ends_with(MADE_END.as_bytes())
}

/// The summary of a run of it, in whichever order its threads run: each of its 2,000 commands, each of the 384 posts of its rules and each
/// frame makes one message.
const SUMMARY: &str = "summary 0\naccepted 3213\ndispatched 3213\nframes 829\npaints 753\n";
