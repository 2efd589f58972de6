//! Reports with their marks, and texts that are no reports, as tables.
use run_picture::{
    Form, Mark, MarkKind, Moment, ParsedReport, Picture, Run, Subject, USUAL_WIDTH, View, marks,
    parse_report, picture_of,
};
use std::alloc::Global;
use std::process::Abort;
use std::test::Fail;

/// A dispatch, and a gauge that moves in the first of two frames.
const MOVES: &[u8] = b"report 1
looper 0
17 dispatch 1 2 5
fates accepted 1 dispatched 1 removed 0 dropped 0 stranded 0 queued 0
paint 0 7
frame 16666667
run 2 1000016
frame 33333334
end
";

/// A looper without marks, and one with a refused post and a callback.
const TWO: &[u8] = b"report 2
looper 0
fates accepted 0 dispatched 0 removed 0 dropped 0 stranded 0 queued 0
looper 1
5 dispatch 0 1 callback 9
refused 1 3 quit 1
fates accepted 1 dispatched 1 removed 0 dropped 0 stranded 0 queued 0
idle 4
end
";

/// The whole run as an SVG.
const WHOLE: Form = Form::Svg(View {
    window: None,
    width: USUAL_WIDTH,
});

const NOTHING: &[u8] = b"report 1\nend\n";

const FIRST: Moment = Moment {
    millis: 16,
    nanos: 666_667,
};

const MOVES_MARKS: [Mark; 5] = [
    Mark {
        lane: 0,
        time: Moment {
            millis: 17,
            nanos: 0,
        },
        kind: MarkKind::Dispatch {
            number: 1,
            handler: 2,
            subject: Subject::What(5),
        },
    },
    Mark {
        lane: 0,
        time: FIRST,
        kind: MarkKind::Frame,
    },
    Mark {
        lane: 0,
        time: FIRST,
        kind: MarkKind::Run(Run {
            phase: 2,
            id: 1_000_016,
        }),
    },
    Mark {
        lane: 0,
        time: Moment {
            millis: 33,
            nanos: 333_334,
        },
        kind: MarkKind::Frame,
    },
    Mark {
        lane: 0,
        time: FIRST,
        kind: MarkKind::Paint { gauge: 0, value: 7 },
    },
];

const TWO_MARKS: [Mark; 1] = [Mark {
    lane: 1,
    time: Moment {
        millis: 5,
        nanos: 0,
    },
    kind: MarkKind::Dispatch {
        number: 0,
        handler: 1,
        subject: Subject::Callback(9),
    },
}];

/// Each text that is no report, and its least bad line.
const BAD: [(&[u8], u64); 7] = [
    (b"", 1),
    (b"report 3\n", 1),
    (b"report 1\n", 2),
    (b"report 1\nlooper 1\n", 2),
    (b"report 1\nend\nend\n", 3),
    (b"report 1\nlooper 0\n7 dispatch 01 2 5\n", 3),
    (
        b"report 1\nlooper 0\nfates accepted 2 dispatched 1 removed 0 dropped 0 stranded 0 queued 0\nend\n",
        3,
    ),
];

/// Reports with their marks.
const MARKS: [(&[u8], &[Mark]); 3] = [(MOVES, &MOVES_MARKS), (TWO, &TWO_MARKS), (NOTHING, &[])];

/// The trace of a run in which nothing happens.
const EMPTY: &[u8] =
    b"[{\"args\":{\"name\":\"dashboard\"},\"name\":\"process_name\",\"ph\":\"M\",\"pid\":1}]\n";

fn has_marks(rt: &impl Abort, alloc: Global, text: &[u8], wanted: &[Mark]) -> Result<(), Fail> {
    let ParsedReport::Ok(report) = parse_report(alloc, text) else {
        return Err("no report".into());
    };
    let found = marks(alloc, &report).ok().ok_or("no memory")?;
    assert_eq!(rt; found.as_slice(), wanted);
    Ok(())
}

#[test]
fn reports_have_their_marks_and_other_texts_a_bad_line(rt: HostRuntime) -> Result<(), Fail> {
    for (text, wanted) in MARKS {
        has_marks(&rt, rt.alloc(), text, wanted)?;
    }
    for (text, wanted) in BAD {
        let Picture::Bad { line } = picture_of(rt.alloc(), WHOLE, b"", text) else {
            return Err("a picture".into());
        };
        assert_eq!(rt; line, wanted);
    }
    let Picture::Text(text) = picture_of(rt.alloc(), Form::Perfetto, b"", NOTHING) else {
        return Err("no trace".into());
    };
    assert_eq!(rt; text.as_slice(), EMPTY);
    Ok(())
}
