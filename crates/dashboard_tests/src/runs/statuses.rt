//! Statuses, with their codes and texts.
use dash_script::Cause;
use dashboard_cli::*;
use std::alloc::Global;
use std::process::Abort;
use std::test::Fail;

/// Statuses, with their codes and texts.
const STATUSES: [(Status, u8, &str); 14] = [
    (Status::Ok, 0, ""),
    (Status::Usage, 2, "dashboard: usage"),
    (
        Status::Script {
            line: 1,
            cause: LineCause::Text(Cause::Missing),
        },
        3,
        "dashboard: script line 1: missing",
    ),
    (
        Status::Script {
            line: 2,
            cause: LineCause::Text(Cause::Form),
        },
        3,
        "dashboard: script line 2: form",
    ),
    (
        Status::Script {
            line: 30,
            cause: LineCause::Text(Cause::Range),
        },
        3,
        "dashboard: script line 30: range",
    ),
    (
        Status::Script {
            line: 400,
            cause: LineCause::Text(Cause::Unknown),
        },
        3,
        "dashboard: script line 400: unknown",
    ),
    (
        Status::Script {
            line: 5,
            cause: LineCause::Text(Cause::Order),
        },
        3,
        "dashboard: script line 5: order",
    ),
    (
        Status::Script {
            line: 20_001,
            cause: LineCause::Text(Cause::TooMany),
        },
        3,
        "dashboard: script line 20001: toomany",
    ),
    (
        Status::Script {
            line: 7,
            cause: LineCause::Inbox,
        },
        3,
        "dashboard: script line 7: inbox",
    ),
    (Status::ReadFault, 4, "dashboard: read fault"),
    (Status::WriteFault, 5, "dashboard: write fault"),
    (Status::NoMemory, 6, "dashboard: no memory"),
    (Status::TooLong, 7, "dashboard: too long"),
    (Status::Trace { line: 7 }, 8, "dashboard: trace line 7"),
];

fn is_told(rt: &impl Abort, alloc: Global, status: &Status, code: u8, text: &str) {
    assert!(rt; status.code() == code);
    let line = status_text(alloc, status).expect(rt, "memory");
    assert!(rt; line.as_str() == text);
}

#[test]
fn statuses_have_their_codes_and_texts(rt: HostRuntime) -> Result<(), Fail> {
    let alloc = rt.alloc();
    for (status, code, text) in &STATUSES {
        is_told(&rt, alloc, status, *code, text);
    }
    Ok(())
}
