// The worked examples: what is asked of a queue, and what is said to it.

use loop_model::{Call, Fate, Filter, Item, Kind, Post, Reply};

/// What is asked of a queue: a message by its what or its callback, and its time; else by the kind of its messages, its token, or
/// its moment. Each message is for handler 0. `Idling` is a look where an idle turn is owed. `WithObject` is a message or a callback
/// for 10 with this object, and `RemoveObject` removes those with this one.
#[derive(Clone, Copy)]
pub(crate) enum Ask {
    Post(u32, u64),
    Asynchronous(u32, u64),
    Callback(u64, u64),
    Remove(Kind),
    Barrier(u64),
    Unbarrier(u64),
    Quit(u64),
    QuitSafely(u64),
    Next(u64),
    Idling(u64),
    Advance(u64),
    Halt(u64),
    WithObject(u32, Option<u64>, u64),
    RemoveObject(Kind, u64),
}

/// The reply, and whether the call wakes. A quit tells how many messages it drops, and a disposal how many items are left. Where no
/// entry is recorded: why a look takes nothing, the time that was reached before, or the number of the message that is due.
#[derive(Clone, Copy, Debug, PartialEq, Eq)]
pub(crate) enum Said {
    Quiet(Reply),
    Wakes(Reply),
    Quits(usize),
    Ends(usize),
    Idle,
    Waits(Option<u64>),
    Over,
    Reached(u64),
    NotDrained(u64),
}

/// What is asked, and what is said to it.
pub(crate) type Row = (Ask, Said);

impl Ask {
    /// Whether it is a look where an idle turn is owed.
    pub(crate) fn is_idling(self) -> bool {
        matches!(self, Ask::Idling(_))
    }

    pub(crate) fn call(self) -> Call {
        match self {
            Ask::Post(what, when) => Call::Post(Post {
                what,
                when,
                ..PLAIN
            }),
            Ask::Asynchronous(what, when) => Call::Post(Post {
                what,
                when,
                asynchronous: true,
                ..PLAIN
            }),
            Ask::Callback(callback, when) => Call::Post(Post {
                callback: Some(callback),
                when,
                ..PLAIN
            }),
            Ask::Remove(kind) => Call::Remove(Filter {
                handler: 0,
                kind,
                obj: None,
            }),
            Ask::Barrier(now) => Call::Barrier { now },
            Ask::Unbarrier(token) => Call::Unbarrier { token },
            Ask::Quit(now) => Call::Quit { safe: false, now },
            Ask::QuitSafely(now) => Call::Quit { safe: true, now },
            Ask::Next(now) => Call::Next { now },
            Ask::Idling(now) => Call::Next { now },
            Ask::Advance(now) => Call::Advance { now },
            Ask::Halt(now) => Call::Halt { now },
            Ask::WithObject(what, callback, obj) => Call::Post(Post {
                what,
                callback,
                obj: Some(obj),
                when: 10,
                ..PLAIN
            }),
            Ask::RemoveObject(kind, obj) => Call::Remove(Filter {
                handler: 0,
                kind,
                obj: Some(obj),
            }),
        }
    }
}

impl Said {
    pub(crate) fn reply(self) -> Option<Reply> {
        match self {
            Said::Quiet(reply) => Some(reply),
            Said::Wakes(reply) => Some(reply),
            Said::Quits(_) => Some(Reply::QuitDone),
            Said::Ends(_) => Some(Reply::Disposed),
            _ => None,
        }
    }

    pub(crate) fn wakes(self) -> bool {
        matches!(self, Said::Wakes(_) | Said::Quits(_))
    }
}

/// A message for handler 0 without anything.
pub(crate) const PLAIN: Post = Post {
    handler: 0,
    what: 0,
    arg: 0,
    obj: None,
    callback: None,
    when: 0,
    asynchronous: false,
    slot: None,
};

const IN_ORDER: [Row; 11] = [
    (Ask::Advance(10), Said::Quiet(Reply::Advanced)),
    (Ask::Post(7, 15), Said::Quiet(Reply::Accepted { number: 0 })),
    (Ask::Post(8, 10), Said::Quiet(Reply::Accepted { number: 1 })),
    (Ask::Next(10), Said::Quiet(Reply::Dispatched { number: 1 })),
    (Ask::Next(10), Said::Waits(Some(15))),
    (Ask::Advance(15), Said::Quiet(Reply::Advanced)),
    (Ask::Next(15), Said::Quiet(Reply::Dispatched { number: 0 })),
    (Ask::Next(15), Said::Waits(None)),
    (Ask::Advance(20), Said::Quiet(Reply::Advanced)),
    (Ask::Halt(20), Said::Quiet(Reply::Halted)),
    (Ask::Next(20), Said::Over),
];

const AT_THE_FRONT: [Row; 13] = [
    (Ask::Post(1, 0), Said::Quiet(Reply::Accepted { number: 0 })),
    (Ask::Post(2, 0), Said::Quiet(Reply::Accepted { number: 1 })),
    (Ask::Next(0), Said::Quiet(Reply::Dispatched { number: 1 })),
    (Ask::Next(0), Said::Quiet(Reply::Dispatched { number: 0 })),
    (Ask::Next(0), Said::Waits(None)),
    (Ask::Advance(10), Said::Quiet(Reply::Advanced)),
    (Ask::Post(1, 10), Said::Wakes(Reply::Accepted { number: 2 })),
    (Ask::Post(2, 0), Said::Wakes(Reply::Accepted { number: 3 })),
    (Ask::Post(3, 10), Said::Quiet(Reply::Accepted { number: 4 })),
    (Ask::Next(10), Said::Quiet(Reply::Dispatched { number: 3 })),
    (Ask::Next(10), Said::Quiet(Reply::Dispatched { number: 2 })),
    (Ask::Next(10), Said::Quiet(Reply::Dispatched { number: 4 })),
    (Ask::Halt(10), Said::Quiet(Reply::Halted)),
];

const EQUAL_TIMES: [Row; 10] = [
    (Ask::Advance(10), Said::Quiet(Reply::Advanced)),
    (Ask::Post(1, 15), Said::Quiet(Reply::Accepted { number: 0 })),
    (Ask::Post(2, 15), Said::Quiet(Reply::Accepted { number: 1 })),
    (Ask::Post(3, 15), Said::Quiet(Reply::Accepted { number: 2 })),
    (Ask::Next(10), Said::Waits(Some(15))),
    (Ask::Advance(15), Said::Quiet(Reply::Advanced)),
    (Ask::Next(15), Said::Quiet(Reply::Dispatched { number: 0 })),
    (Ask::Next(15), Said::Quiet(Reply::Dispatched { number: 1 })),
    (Ask::Next(15), Said::Quiet(Reply::Dispatched { number: 2 })),
    (Ask::Halt(15), Said::Quiet(Reply::Halted)),
];

const BEHIND_A_BARRIER: [Row; 13] = [
    (Ask::Advance(10), Said::Quiet(Reply::Advanced)),
    (Ask::Post(3, 10), Said::Quiet(Reply::Accepted { number: 0 })),
    (Ask::Barrier(10), Said::Quiet(Reply::Token { token: 0 })),
    (Ask::Post(1, 10), Said::Quiet(Reply::Accepted { number: 1 })),
    (
        Ask::Asynchronous(2, 10),
        Said::Quiet(Reply::Accepted { number: 2 }),
    ),
    (Ask::Next(10), Said::Quiet(Reply::Dispatched { number: 0 })),
    (Ask::Next(10), Said::Quiet(Reply::Dispatched { number: 2 })),
    (Ask::Next(10), Said::Waits(None)),
    (Ask::Advance(12), Said::Quiet(Reply::Advanced)),
    (Ask::Unbarrier(0), Said::Wakes(Reply::Unbarriered)),
    (Ask::Unbarrier(0), Said::Quiet(Reply::NotPosted)),
    (Ask::Next(12), Said::Quiet(Reply::Dispatched { number: 1 })),
    (Ask::Halt(12), Said::Quiet(Reply::Halted)),
];

const REMOVALS: [Row; 14] = [
    (
        Ask::Callback(9, 10),
        Said::Quiet(Reply::Accepted { number: 0 }),
    ),
    (Ask::Post(0, 10), Said::Quiet(Reply::Accepted { number: 1 })),
    (Ask::Post(1, 10), Said::Quiet(Reply::Accepted { number: 2 })),
    (
        Ask::Remove(Kind::What(7)),
        Said::Quiet(Reply::Removed { count: 0 }),
    ),
    (
        Ask::Remove(Kind::What(0)),
        Said::Quiet(Reply::Removed { count: 2 }),
    ),
    (
        Ask::Callback(9, 10),
        Said::Quiet(Reply::Accepted { number: 3 }),
    ),
    (Ask::Post(0, 10), Said::Quiet(Reply::Accepted { number: 4 })),
    (
        Ask::Remove(Kind::Callback(9)),
        Said::Quiet(Reply::Removed { count: 1 }),
    ),
    (Ask::Advance(10), Said::Quiet(Reply::Advanced)),
    (Ask::Next(10), Said::Quiet(Reply::Dispatched { number: 2 })),
    (
        Ask::Remove(Kind::All),
        Said::Quiet(Reply::Removed { count: 1 }),
    ),
    (Ask::Next(10), Said::Waits(None)),
    (
        Ask::Remove(Kind::All),
        Said::Quiet(Reply::Removed { count: 0 }),
    ),
    (Ask::Halt(10), Said::Quiet(Reply::Halted)),
];

const SAFE_QUIT: [Row; 10] = [
    (Ask::Post(1, 9), Said::Quiet(Reply::Accepted { number: 0 })),
    (Ask::Post(2, 10), Said::Quiet(Reply::Accepted { number: 1 })),
    (Ask::Post(3, 11), Said::Quiet(Reply::Accepted { number: 2 })),
    (Ask::Advance(9), Said::Quiet(Reply::Advanced)),
    (Ask::Next(9), Said::Quiet(Reply::Dispatched { number: 0 })),
    (Ask::Advance(10), Said::Quiet(Reply::Advanced)),
    (Ask::QuitSafely(10), Said::Quits(1)),
    (Ask::Next(10), Said::Quiet(Reply::Dispatched { number: 1 })),
    (Ask::Next(10), Said::Ends(0)),
    (Ask::Next(10), Said::Over),
];

const STRANDED: [Row; 5] = [
    (Ask::Advance(10), Said::Quiet(Reply::Advanced)),
    (Ask::Barrier(10), Said::Quiet(Reply::Token { token: 0 })),
    (Ask::Post(1, 10), Said::Quiet(Reply::Accepted { number: 0 })),
    (Ask::QuitSafely(10), Said::Quits(0)),
    (Ask::Next(10), Said::Ends(2)),
];

const FREED_BEFORE_DISPOSAL: [Row; 7] = [
    (Ask::Advance(10), Said::Quiet(Reply::Advanced)),
    (Ask::Barrier(10), Said::Quiet(Reply::Token { token: 0 })),
    (Ask::Post(1, 10), Said::Quiet(Reply::Accepted { number: 0 })),
    (Ask::QuitSafely(10), Said::Quits(0)),
    (Ask::Unbarrier(0), Said::Quiet(Reply::Unbarriered)),
    (Ask::Next(10), Said::Quiet(Reply::Dispatched { number: 0 })),
    (Ask::Next(10), Said::Ends(0)),
];

const QUITS_ONCE: [Row; 9] = [
    (Ask::Advance(10), Said::Quiet(Reply::Advanced)),
    (Ask::Post(5, 10), Said::Quiet(Reply::Accepted { number: 0 })),
    (Ask::Quit(10), Said::Quits(1)),
    (Ask::Quit(10), Said::Quiet(Reply::AlreadyQuit { place: 2 })),
    (Ask::Post(5, 10), Said::Quiet(Reply::Refused { place: 2 })),
    (Ask::Next(10), Said::Ends(0)),
    (Ask::Barrier(10), Said::Quiet(Reply::Token { token: 0 })),
    (
        Ask::Remove(Kind::All),
        Said::Quiet(Reply::Removed { count: 0 }),
    ),
    (Ask::Next(10), Said::Over),
];

const MAIN_MAY_NOT_QUIT: [Row; 5] = [
    (Ask::Advance(10), Said::Quiet(Reply::Advanced)),
    (Ask::Quit(10), Said::Quiet(Reply::NotAllowed)),
    (Ask::Post(1, 15), Said::Quiet(Reply::Accepted { number: 0 })),
    (Ask::Advance(12), Said::Quiet(Reply::Advanced)),
    (Ask::Halt(12), Said::Quiet(Reply::Halted)),
];

const WAKES: [Row; 12] = [
    (Ask::Next(0), Said::Waits(None)),
    (Ask::Barrier(0), Said::Quiet(Reply::Token { token: 0 })),
    (Ask::Post(1, 5), Said::Quiet(Reply::Accepted { number: 0 })),
    (
        Ask::Asynchronous(1, 5),
        Said::Wakes(Reply::Accepted { number: 1 }),
    ),
    (
        Ask::Asynchronous(1, 6),
        Said::Quiet(Reply::Accepted { number: 2 }),
    ),
    (Ask::Unbarrier(0), Said::Wakes(Reply::Unbarriered)),
    (Ask::Unbarrier(0), Said::Quiet(Reply::NotPosted)),
    (Ask::Post(4, 5), Said::Quiet(Reply::Accepted { number: 3 })),
    (Ask::Post(5, 4), Said::Wakes(Reply::Accepted { number: 4 })),
    (
        Ask::Remove(Kind::All),
        Said::Quiet(Reply::Removed { count: 5 }),
    ),
    (Ask::QuitSafely(0), Said::Quits(0)),
    (
        Ask::QuitSafely(0),
        Said::Quiet(Reply::AlreadyQuit { place: 9 }),
    ),
];

/// One message passes a barrier at which the other waits, up to the halt.
const HELD_BACK: [Row; 7] = [
    (Ask::Advance(10), Said::Quiet(Reply::Advanced)),
    (Ask::Post(1, 10), Said::Quiet(Reply::Accepted { number: 0 })),
    (Ask::Barrier(10), Said::Quiet(Reply::Token { token: 0 })),
    (Ask::Post(2, 10), Said::Quiet(Reply::Accepted { number: 1 })),
    (Ask::Next(10), Said::Quiet(Reply::Dispatched { number: 0 })),
    (Ask::Next(10), Said::Waits(None)),
    (Ask::Halt(10), Said::Quiet(Reply::Halted)),
];

/// What a look answers, with an idle turn owed and without.
const LOOKS: [Row; 16] = [
    (Ask::Idling(0), Said::Idle),
    (Ask::Next(0), Said::Waits(None)),
    (Ask::Post(1, 5), Said::Wakes(Reply::Accepted { number: 0 })),
    (Ask::Idling(4), Said::Idle),
    (Ask::Next(4), Said::Waits(Some(5))),
    (Ask::Idling(5), Said::Quiet(Reply::Dispatched { number: 0 })),
    (Ask::Barrier(5), Said::Quiet(Reply::Token { token: 0 })),
    (Ask::Post(2, 5), Said::Quiet(Reply::Accepted { number: 1 })),
    // the head is due and a barrier, so no idle turn
    (Ask::Idling(6), Said::Waits(None)),
    (
        Ask::Asynchronous(3, 9),
        Said::Wakes(Reply::Accepted { number: 2 }),
    ),
    (Ask::Idling(6), Said::Waits(Some(9))),
    (Ask::Idling(9), Said::Quiet(Reply::Dispatched { number: 2 })),
    (Ask::QuitSafely(9), Said::Quits(0)),
    (Ask::Idling(9), Said::Ends(2)),
    (Ask::Idling(9), Said::Over),
    (
        Ask::Remove(Kind::All),
        Said::Quiet(Reply::Removed { count: 0 }),
    ),
];

/// What an advance and a halt answer: the time is looked at before what is due.
const MOVES: [Row; 15] = [
    (Ask::Advance(0), Said::Reached(0)),
    (Ask::Post(1, 5), Said::Quiet(Reply::Accepted { number: 0 })),
    (Ask::Advance(5), Said::Quiet(Reply::Advanced)),
    (Ask::Advance(5), Said::Reached(5)),
    (Ask::Advance(4), Said::Reached(5)),
    (Ask::Post(2, 0), Said::Quiet(Reply::Accepted { number: 1 })),
    (Ask::Advance(6), Said::NotDrained(1)),
    (Ask::Halt(5), Said::NotDrained(1)),
    (Ask::Next(5), Said::Quiet(Reply::Dispatched { number: 1 })),
    (Ask::Advance(6), Said::NotDrained(0)),
    (Ask::Next(5), Said::Quiet(Reply::Dispatched { number: 0 })),
    (Ask::Post(3, 7), Said::Quiet(Reply::Accepted { number: 2 })),
    (Ask::Halt(6), Said::Quiet(Reply::Halted)),
    (Ask::Halt(7), Said::Over),
    (Ask::Advance(7), Said::Over),
];

/// Removals that name an object spare what has another one or none.
const OBJECTS: [Row; 11] = [
    (
        Ask::WithObject(0, Some(9), 7),
        Said::Quiet(Reply::Accepted { number: 0 }),
    ),
    (
        Ask::WithObject(1, None, 7),
        Said::Quiet(Reply::Accepted { number: 1 }),
    ),
    (
        Ask::WithObject(1, None, 8),
        Said::Quiet(Reply::Accepted { number: 2 }),
    ),
    (Ask::Post(1, 10), Said::Quiet(Reply::Accepted { number: 3 })),
    (
        Ask::Callback(9, 11),
        Said::Quiet(Reply::Accepted { number: 4 }),
    ),
    (
        Ask::RemoveObject(Kind::Callback(9), 7),
        Said::Quiet(Reply::Removed { count: 1 }),
    ),
    (
        Ask::RemoveObject(Kind::What(1), 8),
        Said::Quiet(Reply::Removed { count: 1 }),
    ),
    (
        Ask::RemoveObject(Kind::All, 7),
        Said::Quiet(Reply::Removed { count: 1 }),
    ),
    (Ask::Advance(10), Said::Quiet(Reply::Advanced)),
    (Ask::Next(10), Said::Quiet(Reply::Dispatched { number: 3 })),
    (Ask::QuitSafely(10), Said::Quits(1)),
];

/// A queue that is main or not, and in lockstep or not; what is asked of it, and what became of its posts.
pub(crate) struct Example {
    pub(crate) main: bool,
    pub(crate) lockstep: bool,
    pub(crate) rows: &'static [Row],
    pub(crate) fates: &'static [Fate],
}

pub(crate) const EXAMPLES: [Example; 15] = [
    Example {
        main: true,
        lockstep: true,
        rows: &IN_ORDER,
        fates: &[Fate::Dispatched, Fate::Dispatched],
    },
    Example {
        main: true,
        lockstep: true,
        rows: &AT_THE_FRONT,
        fates: &[
            Fate::Dispatched,
            Fate::Dispatched,
            Fate::Dispatched,
            Fate::Dispatched,
            Fate::Dispatched,
        ],
    },
    Example {
        main: true,
        lockstep: true,
        rows: &EQUAL_TIMES,
        fates: &[Fate::Dispatched, Fate::Dispatched, Fate::Dispatched],
    },
    Example {
        main: true,
        lockstep: true,
        rows: &BEHIND_A_BARRIER,
        fates: &[Fate::Dispatched, Fate::Dispatched, Fate::Dispatched],
    },
    Example {
        main: true,
        lockstep: true,
        rows: &HELD_BACK,
        fates: &[Fate::Dispatched, Fate::Queued],
    },
    Example {
        main: true,
        lockstep: true,
        rows: &REMOVALS,
        fates: &[
            Fate::Removed,
            Fate::Removed,
            Fate::Dispatched,
            Fate::Removed,
            Fate::Removed,
        ],
    },
    Example {
        main: false,
        lockstep: true,
        rows: &OBJECTS,
        fates: &[
            Fate::Removed,
            Fate::Removed,
            Fate::Removed,
            Fate::Dispatched,
            Fate::Dropped,
        ],
    },
    Example {
        main: false,
        lockstep: true,
        rows: &SAFE_QUIT,
        fates: &[Fate::Dispatched, Fate::Dispatched, Fate::Dropped],
    },
    Example {
        main: false,
        lockstep: true,
        rows: &STRANDED,
        fates: &[Fate::Stranded],
    },
    Example {
        main: false,
        lockstep: true,
        rows: &FREED_BEFORE_DISPOSAL,
        fates: &[Fate::Dispatched],
    },
    Example {
        main: false,
        lockstep: true,
        rows: &QUITS_ONCE,
        fates: &[Fate::Dropped],
    },
    Example {
        main: true,
        lockstep: true,
        rows: &MAIN_MAY_NOT_QUIT,
        fates: &[Fate::Queued],
    },
    Example {
        main: false,
        lockstep: false,
        rows: &WAKES,
        fates: &[
            Fate::Removed,
            Fate::Removed,
            Fate::Removed,
            Fate::Removed,
            Fate::Removed,
        ],
    },
    Example {
        main: false,
        lockstep: false,
        rows: &LOOKS,
        fates: &[Fate::Dispatched, Fate::Stranded, Fate::Dispatched],
    },
    Example {
        main: true,
        lockstep: true,
        rows: &MOVES,
        fates: &[Fate::Dispatched, Fate::Dispatched, Fate::Queued],
    },
];

/// Two messages with a barrier between them, and one that was put at the front.
pub(crate) const FILLED: [Row; 4] = [
    (Ask::Post(1, 7), Said::Quiet(Reply::Accepted { number: 0 })),
    (Ask::Barrier(5), Said::Quiet(Reply::Token { token: 0 })),
    (Ask::Post(2, 0), Said::Quiet(Reply::Accepted { number: 1 })),
    (Ask::Post(3, 5), Said::Quiet(Reply::Accepted { number: 2 })),
];

/// What they leave.
pub(crate) const LEFT: [Item; 4] = [
    Item::Post {
        number: 1,
        post: Post { what: 2, ..PLAIN },
    },
    Item::Barrier { token: 0, when: 5 },
    Item::Post {
        number: 2,
        post: Post {
            what: 3,
            when: 5,
            ..PLAIN
        },
    },
    Item::Post {
        number: 0,
        post: Post {
            what: 1,
            when: 7,
            ..PLAIN
        },
    },
];

/// All three are taken, with the removal of the barrier between.
pub(crate) const EMPTIED: [Row; 5] = [
    (Ask::Next(10), Said::Quiet(Reply::Dispatched { number: 1 })),
    (Ask::Next(10), Said::Waits(None)),
    (Ask::Unbarrier(0), Said::Wakes(Reply::Unbarriered)),
    (Ask::Next(10), Said::Quiet(Reply::Dispatched { number: 2 })),
    (Ask::Next(10), Said::Quiet(Reply::Dispatched { number: 0 })),
];

/// A quit, and a post behind it.
pub(crate) const QUIT: [Row; 2] = [
    (Ask::QuitSafely(10), Said::Quits(0)),
    (Ask::Post(1, 5), Said::Quiet(Reply::Refused { place: 8 })),
];
