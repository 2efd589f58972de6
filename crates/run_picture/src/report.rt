//! What a report tells of a run.
use loop_model::Sequence;

/// How lines name a message beside its handler: by its `what`, or by its callback.
#[derive(Clone, Copy, Debug, PartialEq, Eq)]
pub enum Subject {
    /// The `what` of a message.
    What(u32),
    /// The callback that was posted.
    Callback(u64),
}

/// One line of a queue's history.
#[derive(Clone, Copy, Debug, PartialEq, Eq)]
pub enum Past {
    /// At this millisecond of uptime the looper took the message of this number.
    Dispatch {
        now: u64,
        number: u64,
        handler: u32,
        subject: Subject,
    },
    /// A post came behind the quit at this place of the history.
    Refused {
        handler: u32,
        subject: Subject,
        place: u64,
    },
    /// No barrier of this token stood in the queue.
    NotPosted {
        token: u64,
    },
    /// The main looper's queue may not quit.
    NotAllowed,
    /// The quit at this place of the history came first.
    AlreadyQuit {
        place: u64,
    },
}

/// What became of the accepted posts of a queue, as counts.
#[derive(Clone, Copy, Debug, PartialEq, Eq)]
pub struct Fates {
    /// The sum of the others.
    pub accepted: u64,
    /// How many messages were dispatched.
    pub dispatched: u64,
    /// How many were removed.
    pub removed: u64,
    /// How many a quit dropped.
    pub dropped: u64,
    /// How many a disposal stranded.
    pub stranded: u64,
    /// How many were queued still.
    pub queued: u64,
}

/// One line of a looper's journal. A report tells no time of it.
#[derive(Clone, Copy, Debug, PartialEq, Eq)]
pub enum Act {
    /// An idle handler ran.
    Idle { id: u32 },
    /// A listener was told of events on a descriptor.
    Event { fd: u32, events: u32 },
    /// A gauge was painted with a value.
    Paint { gauge: u32, value: u32 },
}

/// A frame callback that ran: its phase, and its identity.
#[derive(Clone, Copy, Debug, PartialEq, Eq)]
pub struct Run {
    /// The number of its phase.
    pub phase: u32,
    /// Its identity.
    pub id: u64,
}

/// A frame: its frame time in nanoseconds of uptime, and the callbacks that ran in it, in order.
#[derive(Debug, Drop)]
pub struct Frame {
    /// Its frame time, in nanoseconds.
    pub time: u64,
    /// The callbacks that ran in it, in order.
    pub runs: Sequence<Run>,
}

/// What a report tells of one looper.
#[derive(Debug, Drop)]
pub struct Looper {
    /// The history of its queue.
    pub past: Sequence<Past>,
    /// How many messages had each fate.
    pub fates: Fates,
    /// What it did, in order.
    pub acts: Sequence<Act>,
    /// Its frames, in order.
    pub frames: Sequence<Frame>,
}

/// A report: the edition of its script, and the loopers in order.
#[derive(Debug, Drop)]
pub struct Report {
    /// The script's edition.
    pub edition: u32,
    /// The loopers, by number.
    pub loopers: Sequence<Looper>,
}

/// What reading a text gives.
#[derive(Debug, Drop)]
pub enum ParsedReport {
    /// The report that the text prints.
    Ok(Report),
    /// The least bad line, counted from 1.
    Bad { line: u64 },
    /// No memory was found for the report.
    NoMemory,
}
