//! Scripts read, printed, refused, brought up and generated.

use dash_script::{Cause, Parsed, make_script, migrate, parse, print};
use std::test::Fail;

const ONE_POST: &[u8] =
    b"dashboard 1\nloopers 1\nthreads 1\nhandler 0 0\nvsync 16666667\nat 10\n0 post 0 7 5\n0 post 0 8 0\nend 20\n";

const GAUGE: &[u8] =
    b"dashboard 1\nloopers 1\nthreads 1\nhandler 0 0\ngauge 0 0 3\nvsync 16666667\nat 0\n0 set 0 7\nend 70\n";

const WHOLE: &[u8] =
    b"dashboard 1\nloopers 3\nthreads 4\nhandler 0 0\nhandler 1 1\nhandler 2 2\ngauge 0 0 100\ngauge 1 0 100\ngauge 2 1 100\ngauge 3 1 100\ngauge 4 2 100\ngauge 5 2 100\nvsync 16666667\non 1 2 times 10 post 0 3 5\non 0 3 times 10 post 2 4 5\nat 0\n0 set 0 500\n1 set 2 1000\n2 post 1 2 10\n3 post 2 9 1500\nat 500\n0 post-async 0 6 0\n3 remove 2 9\nat 1000\n1 set 4 300\n2 frame 0 0 77 0\nat 1900\n0 quit-safely 2\n1 post 1 2 50\nend 2000\n";

const EVERY: &[u8] =
    b"dashboard 1\nloopers 2\nthreads 2\nhandler 0 0 async\nhandler 1 1\ngauge 0 1 1000\nvsync 1000000\nat 0\n0 post 0 0 0\n0 post-async 1 999999 86400000\n1 front 0 1\n1 callback 0 3 4\n0 set 0 1000\n0 remove 0 0\n0 remove-callback 0 3\n0 remove-all 1\n0 barrier 1 999\n1 barrier 1 999\n0 unbarrier 999\n0 unbarrier 999\n0 quit 1\n0 quit-safely 1\n0 idle 0 5 keep\n0 idle 0 5 once\n0 watch 0 999 7 0\n0 event 0 999 7\n0 frame 0 3 1 2\n0 unframe 1 0 1\nat 86400000\nend 86400000\n";

const FOUR_PHASES: &[u8] =
    b"dashboard 1\nloopers 1\nthreads 1\nvsync 16666667\nat 10\n0 frame 0 0 8 0\n0 frame 0 1 8 0\n0 frame 0 2 8 0\n0 frame 0 3 8 0\n0 unframe 0 1 8\n0 unframe 0 2 8\n0 unframe 0 3 8\nend 60\n";

/// The same in edition 2.
const FIVE_PHASES: &[u8] =
    b"dashboard 2\nloopers 1\nthreads 1\nvsync 16666667\nat 10\n0 frame 0 0 8 0\n0 frame 0 1 8 0\n0 frame 0 3 8 0\n0 frame 0 4 8 0\n0 unframe 0 1 8\n0 unframe 0 3 8\n0 unframe 0 4 8\nend 60\n";

/// Scripts with what is printed of them, as they are or brought up to edition 2.
const PRINTED: [(&[u8], bool, &[u8]); 8] = [
    (ONE_POST, false, ONE_POST),
    (GAUGE, false, GAUGE),
    (WHOLE, false, WHOLE),
    (EVERY, false, EVERY),
    (FOUR_PHASES, false, FOUR_PHASES),
    (FIVE_PHASES, false, FIVE_PHASES),
    (FOUR_PHASES, true, FIVE_PHASES),
    (FIVE_PHASES, true, FIVE_PHASES),
];

/// Texts that are no script, with their line and its cause.
const BAD: [(&[u8], u64, Cause); 37] = [
    (b"", 1, Cause::Missing),
    (b"\n", 1, Cause::Form),
    (b"dashboard 1\nloopers 1\nthre", 3, Cause::Form),
    (b"dashboard 2\nloopers 1\n", 3, Cause::Missing),
    (b"dashboard 3\n", 1, Cause::Form),
    (b"dashboard  1\n", 1, Cause::Form),
    (b" dashboard 1\n", 1, Cause::Form),
    (b"dashboard 1 \n", 1, Cause::Form),
    (b"dashboard 01\n", 1, Cause::Form),
    (b"loopers 1\n", 1, Cause::Form),
    (b"dashboard 1\nloopers 0\n", 2, Cause::Range),
    (b"dashboard 1\nloopers 9\n", 2, Cause::Range),
    (b"dashboard 1\nloopers 08\n", 2, Cause::Form),
    (b"dashboard 1\nloopers +8\n", 2, Cause::Form),
    (
        b"dashboard 1\nloopers 18446744073709551615\n",
        2,
        Cause::Range,
    ),
    (
        b"dashboard 1\nloopers 18446744073709551616\n",
        2,
        Cause::Form,
    ),
    (b"dashboard 1\nloopers 1\nthreads 17\n", 3, Cause::Range),
    (
        b"dashboard 1\nloopers 1\nthreads 1\nhandler 0 1\n",
        4,
        Cause::Unknown,
    ),
    (
        b"dashboard 1\nloopers 1\nthreads 1\nhandler 1 0\n",
        4,
        Cause::Order,
    ),
    (
        b"dashboard 1\nloopers 1\nthreads 1\nhandler 4294967296 0\n",
        4,
        Cause::Range,
    ),
    (
        b"dashboard 1\nloopers 1\nthreads 1\nhandler 1 1\n",
        4,
        Cause::Unknown,
    ),
    (
        b"dashboard 1\nloopers 1\nthreads 1\ngauge 0 0 3\n",
        4,
        Cause::Unknown,
    ),
    (b"dashboard 1\nloopers 1\nthreads 1\nat 0\n", 4, Cause::Form),
    (
        b"dashboard 1\nloopers 1\nthreads 1\nvsync 999999\n",
        4,
        Cause::Range,
    ),
    (
        b"dashboard 1\nloopers 1\nthreads 1\nvsync 1000000\nhandler 0 0\n",
        5,
        Cause::Form,
    ),
    (
        b"dashboard 1\nloopers 1\nthreads 1\nvsync 1000000\n0 quit 0\n",
        5,
        Cause::Form,
    ),
    (
        b"dashboard 1\nloopers 1\nthreads 1\nvsync 1000000\nat 5\nat 5\n",
        6,
        Cause::Order,
    ),
    (
        b"dashboard 1\nloopers 1\nthreads 1\nvsync 1000000\nat 5\nend 4\n",
        6,
        Cause::Order,
    ),
    (
        b"dashboard 1\nloopers 1\nthreads 1\nvsync 1000000\nend 4\nend 4\n",
        6,
        Cause::Form,
    ),
    (
        b"dashboard 1\nloopers 1\nthreads 1\nvsync 1000000\nend 4\n\n",
        6,
        Cause::Form,
    ),
    (
        b"dashboard 1\nloopers 1\nthreads 1\nvsync 1000000\nat 0\n1 quit 0\n",
        6,
        Cause::Unknown,
    ),
    (
        b"dashboard 1\nloopers 1\nthreads 1\nvsync 1000000\nat 0\n0 unbarrier 0\n",
        6,
        Cause::Unknown,
    ),
    (
        b"dashboard 1\nloopers 1\nthreads 1\nvsync 1000000\nat 0\n0 barrier 0 0\n0 barrier 0 0\n",
        7,
        Cause::Order,
    ),
    (
        b"dashboard 1\nloopers 1\nthreads 1\nvsync 1000000\nat 0\n0 frame 0 4 7 0\n",
        6,
        Cause::Range,
    ),
    (
        b"dashboard 2\nloopers 1\nthreads 1\nvsync 1000000\nat 0\n0 frame 0 5 7 0\n",
        6,
        Cause::Range,
    ),
    (
        b"dashboard 1\nloopers 1\nthreads 2\nvsync 1000000\nat 0\n0 barrier 0 5\n1 unbarrier 5\n",
        7,
        Cause::Unknown,
    ),
    (
        b"dashboard 1\nloopers 1\nthreads 1\nhandler 0 0\nvsync 1000000\non 0 1 times 0 post 0 1 0\n",
        6,
        Cause::Range,
    ),
];

/// A head, as many lines of a word, a place and a rest, an end; and the line and the cause for which it is refused, if it is.
type Many = (
    &'static [u8],
    &'static str,
    &'static str,
    u32,
    &'static [u8],
    Option<(u64, Cause)>,
);

const DECLARED: &[u8] = b"dashboard 1\nloopers 1\nthreads 1\n";

const HANDLER: &[u8] = b"dashboard 1\nloopers 1\nthreads 1\nhandler 0 0\n";

const RULES: &[u8] = b"dashboard 1\nloopers 1\nthreads 1\nhandler 0 0\nvsync 16666667\n";

const BLOCK: &[u8] = b"dashboard 1\nloopers 1\nthreads 1\nhandler 0 0\nvsync 16666667\nat 0\n";

const STEPS: &[u8] =
    b"dashboard 1\nloopers 1\nthreads 1\nhandler 0 0\ngauge 0 0 1\nvsync 16666667\nat 0\n";

const END: &[u8] = b"end 0\n";

const VSYNC: &[u8] = b"vsync 1000000\nend 0\n";

/// Scripts at their limits, and one line more.
const LIMITS: [Many; 9] = [
    (BLOCK, "0 post 0", "0", 19_993, END, None),
    (
        BLOCK,
        "0 post 0",
        "0",
        19_994,
        END,
        Some((20_001, Cause::TooMany)),
    ),
    (
        BLOCK,
        "0 post 0",
        "0",
        19_994,
        b"",
        Some((20_001, Cause::TooMany)),
    ),
    (STEPS, "0 set 0", "", 101, END, Some((108, Cause::TooMany))),
    (
        RULES,
        "on 0",
        "times 50000 post 0 0 0",
        3,
        END,
        Some((8, Cause::TooMany)),
    ),
    (DECLARED, "handler", "0", 64, VSYNC, None),
    (
        DECLARED,
        "handler",
        "0",
        65,
        VSYNC,
        Some((68, Cause::TooMany)),
    ),
    (HANDLER, "gauge", "0 3", 16, VSYNC, None),
    (
        HANDLER,
        "gauge",
        "0 3",
        17,
        VSYNC,
        Some((21, Cause::TooMany)),
    ),
];

/// What is printed of a script, brought up to edition 2 or not.
fn printed<R: AllocGlobal>(rt: &R, text: &[u8], up: bool) -> Result<Vec<u8>, Fail> {
    let Parsed::Ok(script) = parse(rt.alloc(), text) else {
        return Err(Fail::from("no script"));
    };
    if up {
        let Ok(script) = migrate(rt.alloc(), &script) else {
            return Err(Fail::from("no memory"));
        };
        return Ok(print(rt.alloc(), &script).ok().ok_or("no memory")?);
    }
    Ok(print(rt.alloc(), &script).ok().ok_or("no memory")?)
}

/// The line and the cause of a text that is no script.
fn bad<R: AllocGlobal>(rt: &R, text: &[u8]) -> Option<(u64, Cause)> {
    match parse(rt.alloc(), text) {
        Parsed::Bad { line, cause } => Some((line, cause)),
        _ => None,
    }
}

#[test]
fn scripts_are_printed_again_and_brought_up(rt: HostRuntime) -> Result<(), Fail> {
    for (text, up, wanted) in PRINTED {
        assert_eq!(rt; printed(&rt, text, up)?.as_slice(), wanted);
    }
    let Ok(script) = make_script(rt.alloc(), 0) else {
        return Err(Fail::from("no memory"));
    };
    let text = print(rt.alloc(), &script).ok().ok_or("no memory")?;
    let lines = text.iter().filter(|byte| **byte == b'\n').count();
    assert_eq!(rt; lines, 2_525);
    let first =
        b"on 7 2 times 1000 post 0 3 1\nat 0\n0 post 0 2 0\n1 post 0 2 0\n2 post 3 3 28\n3 post 3 3 45\nat 10\n";
    assert!(rt;
        text.windows(first.len())
            .any(|window| window == first.as_slice())
    );
    assert_eq!(rt; printed(&rt, &text, false)?.as_slice(), text.as_slice());
    Ok(())
}

#[test]
fn other_texts_and_each_front_are_refused(rt: HostRuntime) {
    for (text, line, cause) in BAD {
        assert_eq!(rt; bad(&rt, text), Some((line, cause)));
    }
    let mut line = 1u64;
    let mut fresh = true;
    for length in 0..GAUGE.len() {
        if length > 0 && GAUGE[length - 1] == b'\n' {
            line = line.saturating_add(1);
            fresh = true;
        }
        let cause = if fresh { Cause::Missing } else { Cause::Form };
        assert_eq!(rt; bad(&rt, &GAUGE[..length]), Some((line, cause)), "{length}");
        fresh = false;
    }
}

/// Adds as many lines of a word, a place and a rest.
fn add_lines<R: AllocGlobal>(
    rt: &R,
    text: &mut Vec<u8>,
    word: &str,
    rest: &str,
    times: u32,
) -> Result<(), Fail> {
    let space = if rest.is_empty() { "" } else { " " };
    for place in 0..times {
        let line = format!(in rt.alloc(); "{word} {place}{space}{rest}\n")?;
        text.extend_from_slice(line.as_bytes())?;
    }
    Ok(())
}

#[test]
fn limits_are_kept(rt: HostRuntime) -> Result<(), Fail> {
    for (head, word, rest, times, last, refused) in LIMITS {
        let mut text = Vec::from_slice(rt.alloc(), head)?;
        add_lines(&rt, &mut text, word, rest, times)?;
        text.extend_from_slice(last)?;
        match refused {
            Some(_) => assert_eq!(rt; bad(&rt, &text), refused),
            None => assert_eq!(rt; printed(&rt, &text, false)?.as_slice(), text.as_slice()),
        }
    }
    Ok(())
}

/// Each thread posts a barrier of each label, and removes some.
#[test]
fn each_thread_has_each_label(rt: HostRuntime) -> Result<(), Fail> {
    let head = b"dashboard 1\nloopers 1\nthreads 16\nvsync 1000000\nat 0\n";
    let mut text = Vec::from_slice(rt.alloc(), head)?;
    for (word, labels) in [("barrier 0", 1_000), ("unbarrier", 249)] {
        for thread in 0..16u32 {
            let word = format!(in rt.alloc(); "{thread} {word}")?;
            add_lines(&rt, &mut text, &word, "", labels)?;
        }
    }
    let mut more = text.clone()?;
    text.extend_from_slice(END)?;
    assert_eq!(rt; printed(&rt, &text, false)?.as_slice(), text.as_slice());
    more.extend_from_slice(b"15 barrier 0 999\nend 0\n")?;
    assert_eq!(rt; bad(&rt, &more), Some((19_990, Cause::Order)));
    Ok(())
}
