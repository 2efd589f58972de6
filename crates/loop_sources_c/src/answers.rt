// Answers as C has them.
ghost use Rattle.std.specs.Prelude.{◌≡◌};
ghost use Rattle.loop_sources_c.specs.Shown.{answer_as, look_as, IsNotOpen, HasNotOpen, shown, shown_found, shown_turn, shown_event, shown_mask, done_kind, bad_mask_kind, closed_kind};

use loop_model::NoMemory;
use loop_sources::{Event, IdleTurn};

/// It was done.
const DONE: u32 = 0;

/// There is none.
const NOTHING: u32 = 1;

/// An idle handler is to run.
const IDLE: u32 = 2;

/// A listener is to be called.
const EVENT: u32 = 3;

/// Nobody watches for the event.
const IGNORED: u32 = 4;

/// There was no memory, and all is as before.
const NO_MEMORY: u32 = 5;

/// It is no sum of the bits of a mask.
const BAD_MASK: u32 = 6;

/// The handle is not open.
const NOT_OPEN: u32 = 7;

/// The handle was closed.
const CLOSED: u32 = 8;

/// What a call answers: its kind, and a number that goes with it.
#[repr(C)]
#[derive(Clone, Copy, Debug, PartialEq, Eq)]
pub struct SourceAnswer {
    /// A serial number, how many handlers are to run, or a mask, by the call.
    pub number: u64,
    /// Which answer it is.
    pub kind: u32,
}

/// An idle handler or a listener that is to run.
#[repr(C)]
#[derive(Clone, Copy, Debug, PartialEq, Eq)]
pub struct SourceLook {
    /// The idle handler's serial number, or the registration's sequence number.
    pub number: u64,
    /// Which registration of the descriptor it is.
    pub birth: u64,
    /// The caller's number of the handler or the listener.
    pub id: u32,
    /// The descriptor.
    pub fd: u32,
    /// What came at it.
    pub events: u32,
    /// Which answer it is.
    pub kind: u32,
}

fn answer(kind: u32, number: u64) -> SourceAnswer
    ensures { result ≡ answer_as kind number }
{
    SourceAnswer { number, kind }
}

fn look(kind: u32) -> SourceLook
    ensures { result ≡ look_as kind }
{
    SourceLook {
        number: 0,
        birth: 0,
        id: 0,
        fd: 0,
        events: 0,
        kind,
    }
}

pub(crate) fn done(number: u64) -> SourceAnswer
    ensures { result ≡ answer_as done_kind number }
{
    answer(DONE, number)
}

pub(crate) fn bad_mask() -> SourceAnswer
    ensures { result ≡ answer_as bad_mask_kind 0 }
{
    answer(BAD_MASK, 0)
}

pub(crate) fn closed() -> SourceAnswer
    ensures { result ≡ answer_as closed_kind 0 }
{
    answer(CLOSED, 0)
}

pub(crate) fn not_open() -> SourceAnswer
    ensures { IsNotOpen result }
{
    answer(NOT_OPEN, 0)
}

pub(crate) fn not_open_look() -> SourceLook
    ensures { HasNotOpen result }
{
    look(NOT_OPEN)
}

pub(crate) fn shown(answered: Result<SourceAnswer, NoMemory>) -> SourceAnswer
    ensures { result ≡ shown answered }
{
    match answered {
        Ok(answer) => answer,
        Err(_) => answer(NO_MEMORY, 0),
    }
}

pub(crate) fn shown_found(found: bool) -> SourceAnswer
    ensures { result ≡ shown_found found }
{
    if found {
        return answer(DONE, 0);
    }
    answer(NOTHING, 0)
}

pub(crate) fn shown_mask(mask: Option<u32>) -> SourceAnswer
    ensures { result ≡ shown_mask mask }
{
    match mask {
        Some(mask) => answer(DONE, u64::from(mask)),
        None => answer(NOTHING, 0),
    }
}

pub(crate) fn shown_turn(turn: Option<IdleTurn>) -> SourceLook
    ensures { result ≡ shown_turn turn }
{
    match turn {
        Some(turn) => SourceLook {
            number: turn.serial,
            birth: 0,
            id: turn.id,
            fd: 0,
            events: 0,
            kind: IDLE,
        },
        None => look(NOTHING),
    }
}

pub(crate) fn shown_event(event: Option<Event>) -> SourceLook
    ensures { result ≡ shown_event event }
{
    match event {
        Some(
            Event::Call {
                fd,
                events,
                birth,
                seq,
                listener,
            },
        ) => SourceLook {
            number: seq,
            birth,
            id: listener,
            fd,
            events,
            kind: EVENT,
        },
        Some(Event::Ignored) => look(IGNORED),
        None => look(NOTHING),
    }
}
