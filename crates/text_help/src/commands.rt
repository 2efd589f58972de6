//! The forms of a script's lines, as they are shown.
use crate::form::Form;
use dash_script::{LineKind, Numbers, Part, numbers_in};

pub(crate) const KINDS: [LineKind; 29] = [
    LineKind::Edition1,
    LineKind::Edition2,
    LineKind::Loopers,
    LineKind::Threads,
    LineKind::Handler,
    LineKind::AsyncHandler,
    LineKind::Gauge,
    LineKind::Vsync,
    LineKind::Rule,
    LineKind::At,
    LineKind::Post,
    LineKind::PostAsync,
    LineKind::Front,
    LineKind::Callback,
    LineKind::Set,
    LineKind::Remove,
    LineKind::RemoveCallback,
    LineKind::RemoveAll,
    LineKind::Barrier,
    LineKind::Unbarrier,
    LineKind::Quit,
    LineKind::QuitSafely,
    LineKind::IdleKeep,
    LineKind::IdleOnce,
    LineKind::Watch,
    LineKind::Event,
    LineKind::Frame,
    LineKind::Unframe,
    LineKind::End,
];

/// How a line of this kind is shown, with names for its numbers.
pub(crate) fn shown(kind: LineKind) -> Form {
    match kind {
        LineKind::Edition1 => &["dashboard", "1"],
        LineKind::Edition2 => &["dashboard", "2"],
        LineKind::Loopers => &["loopers", "N"],
        LineKind::Threads => &["threads", "N"],
        LineKind::Handler => &["handler", "H", "L"],
        LineKind::AsyncHandler => &["handler", "H", "L", "async"],
        LineKind::Gauge => &["gauge", "G", "H", "STEP"],
        LineKind::Vsync => &["vsync", "NS"],
        LineKind::Rule => &["on", "H", "W", "times", "N", "post", "TO_H", "TO_W", "D"],
        LineKind::At => &["at", "T"],
        LineKind::Post => &["P", "post", "H", "W", "D"],
        LineKind::PostAsync => &["P", "post-async", "H", "W", "D"],
        LineKind::Front => &["P", "front", "H", "W"],
        LineKind::Callback => &["P", "callback", "H", "C", "D"],
        LineKind::Set => &["P", "set", "G", "V"],
        LineKind::Remove => &["P", "remove", "H", "W"],
        LineKind::RemoveCallback => &["P", "remove-callback", "H", "C"],
        LineKind::RemoveAll => &["P", "remove-all", "H"],
        LineKind::Barrier => &["P", "barrier", "L", "B"],
        LineKind::Unbarrier => &["P", "unbarrier", "B"],
        LineKind::Quit => &["P", "quit", "L"],
        LineKind::QuitSafely => &["P", "quit-safely", "L"],
        LineKind::IdleKeep => &["P", "idle", "L", "I", "keep"],
        LineKind::IdleOnce => &["P", "idle", "L", "I", "once"],
        LineKind::Watch => &["P", "watch", "L", "F", "M", "A"],
        LineKind::Event => &["P", "event", "L", "F", "M"],
        LineKind::Frame => &["P", "frame", "L", "PHASE", "I", "D"],
        LineKind::Unframe => &["P", "unframe", "L", "PHASE", "I"],
        LineKind::End => &["end", "T"],
    }
}

/// Which kind a line has, and its numbers.
pub(crate) fn kind_of(line: &[u8]) -> Option<(LineKind, Numbers)> {
    for kind in KINDS {
        if let Some(numbers) = numbers_in(kind.form(), line) {
            return Some((kind, numbers));
        }
    }
    None
}

/// Where a line of this kind may stand, in words.
pub(crate) fn place_of(part: Part) -> &'static str {
    match part {
        Part::Start => "nowhere",
        Part::Edition => "as the first line",
        Part::Loopers => "as the second line",
        Part::Threads => "as the third line",
        Part::Handler => "between `threads` and the gauges",
        Part::Gauge => "between the handlers and `vsync`",
        Part::Vsync => "once, behind handlers and gauges",
        Part::Rule => "between `vsync` and the first `at`",
        Part::At => "behind `vsync` and the `on` lines",
        Part::Command => "behind an `at` line",
        Part::End => "as the last line",
    }
}
