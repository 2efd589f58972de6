//! Idle handlers and watched descriptors for C: `loop_sources.h` says how each call is made, and looks at pointers before one.
#![tactic(auto)]

ghost use Rattle.std.specs.Prelude.{◌≡◌, ◌||◌, true, false, None, Some, MatchOption};
ghost use Rattle.loop_sources.specs.Descriptors.{mask_at};
ghost use Rattle.loop_sources_c.specs.Handed.{inside, Does};
ghost use Rattle.loop_sources_c.specs.Contents.{just_opened};
ghost use Rattle.loop_sources_c.specs.Shown.{Shows, Adds, Turns, RemovesIdle, TurnShown, Finishes, Watches, HandsIn, HandsOutEvent, AnswersEvent, IsNotOpen, HasNotOpen, shown_mask, answer_as, closed_kind};

mod answers;
mod handle;
mod hold;
mod kept;

use crate::answers::{closed, not_open, not_open_look};
pub use answers::{SourceAnswer, SourceLook};
pub use handle::SourceLoop;
use std::alloc::Global;

/// Opens a handle with neither handlers nor descriptors. False, and nothing changes, where it is open and where there is no memory.
#[unsafe(no_mangle)]
pub extern "C" fn mloop_core_sources_open(alloc: Global, sources: &mut SourceLoop) -> bool
    ensures opened { (result ≡ true) → (inside sources.old ≡ None) × (inside sources.new ≡ Some just_opened) }
    ensures refused { (result ≡ false) → inside sources.new ≡ inside sources.old }
    ensures live { sources.new.live ≡ (sources.old.live || result) }
{
    if let Some(kept) = sources.take() {
        sources.put(kept);
        return false;
    }
    match hold::open(alloc) {
        Ok(kept) => {
            sources.put(kept);
            true
        }
        Err(_) => false,
    }
}

/// Closes the handle, with all that stands behind it.
#[unsafe(no_mangle)]
pub extern "C" fn mloop_core_sources_close(alloc: Global, sources: &mut SourceLoop) -> SourceAnswer
    ensures answer { MatchOption (inside sources.old) (IsNotOpen result) (λ _. result ≡ answer_as closed_kind 0) }
    ensures closed { sources.new.live ≡ false }
{
    let Some(kept) = sources.take() else {
        return not_open();
    };
    hold::free(alloc, kept);
    closed()
}

/// Adds an idle handler, and answers its serial number.
#[unsafe(no_mangle)]
pub extern "C" fn mloop_core_idle_add(sources: &mut SourceLoop, id: u32) -> SourceAnswer
    ensures done { Does (inside sources.old) (inside sources.new) (IsNotOpen result) (λ x y. Shows (Adds x id) result y) }
    ensures live { sources.new.live ≡ sources.old.live }
{
    let Some(mut kept) = sources.take() else {
        return not_open();
    };
    let answer = kept.get_mut().add_idle(id);
    sources.put(kept);
    answer
}

/// Removes the first idle handler of this number.
#[unsafe(no_mangle)]
pub extern "C" fn mloop_core_idle_remove(sources: &mut SourceLoop, id: u32) -> SourceAnswer
    ensures done { Does (inside sources.old) (inside sources.new) (IsNotOpen result) (λ x y. RemovesIdle x id result y) }
    ensures live { sources.new.live ≡ sources.old.live }
{
    let Some(mut kept) = sources.take() else {
        return not_open();
    };
    let answer = kept.get_mut().remove_idle(id);
    sources.put(kept);
    answer
}

/// Begins an idle turn of the handlers that stand now, and answers how many they are.
#[unsafe(no_mangle)]
pub extern "C" fn mloop_core_idle_begin(sources: &mut SourceLoop) -> SourceAnswer
    ensures done { Does (inside sources.old) (inside sources.new) (IsNotOpen result) (λ x y. Shows (Turns x) result y) }
    ensures live { sources.new.live ≡ sources.old.live }
{
    let Some(mut kept) = sources.take() else {
        return not_open();
    };
    let answer = kept.get_mut().begin_idle();
    sources.put(kept);
    answer
}

/// Hands out the next handler of the turn.
#[unsafe(no_mangle)]
pub extern "C" fn mloop_core_idle_next(sources: &mut SourceLoop) -> SourceLook
    ensures done { Does (inside sources.old) (inside sources.new) (HasNotOpen result) (λ x y. TurnShown result x y) }
    ensures live { sources.new.live ≡ sources.old.live }
{
    let Some(mut kept) = sources.take() else {
        return not_open_look();
    };
    let answer = kept.get_mut().next_idle();
    sources.put(kept);
    answer
}

/// Takes out the handler of this serial number, where it is not kept.
#[unsafe(no_mangle)]
pub extern "C" fn mloop_core_idle_done(
    sources: &mut SourceLoop,
    serial: u64,
    keep: bool,
) -> SourceAnswer
    ensures done { Does (inside sources.old) (inside sources.new) (IsNotOpen result) (λ x y. Finishes x serial keep result y) }
    ensures live { sources.new.live ≡ sources.old.live }
{
    let Some(mut kept) = sources.take() else {
        return not_open();
    };
    let answer = kept.get_mut().finish_idle(serial, keep);
    sources.put(kept);
    answer
}

/// Registers the descriptor for a mask, renews its registration, or with a mask of 0 removes it.
#[unsafe(no_mangle)]
pub extern "C" fn mloop_core_fd_watch(
    sources: &mut SourceLoop,
    fd: u32,
    mask: u32,
    id: u32,
) -> SourceAnswer
    ensures done { Does (inside sources.old) (inside sources.new) (IsNotOpen result) (λ x y. Shows (Watches x fd mask id) result y) }
    ensures live { sources.new.live ≡ sources.old.live }
{
    let Some(mut kept) = sources.take() else {
        return not_open();
    };
    let answer = kept.get_mut().watch(fd, mask, id);
    sources.put(kept);
    answer
}

/// Hands in an event.
#[unsafe(no_mangle)]
pub extern "C" fn mloop_core_fd_ready(
    sources: &mut SourceLoop,
    fd: u32,
    events: u32,
) -> SourceAnswer
    ensures done { Does (inside sources.old) (inside sources.new) (IsNotOpen result) (λ x y. Shows (HandsIn x fd events) result y) }
    ensures live { sources.new.live ≡ sources.old.live }
{
    let Some(mut kept) = sources.take() else {
        return not_open();
    };
    let answer = kept.get_mut().hand_in(fd, events);
    sources.put(kept);
    answer
}

/// Hands out the oldest event that waits.
#[unsafe(no_mangle)]
pub extern "C" fn mloop_core_fd_next(sources: &mut SourceLoop) -> SourceLook
    ensures done { Does (inside sources.old) (inside sources.new) (HasNotOpen result) (HandsOutEvent result) }
    ensures live { sources.new.live ≡ sources.old.live }
{
    let Some(mut kept) = sources.take() else {
        return not_open_look();
    };
    let answer = kept.get_mut().next_event();
    sources.put(kept);
    answer
}

/// Watches for the listener's new mask, where its registration still stands.
#[unsafe(no_mangle)]
pub extern "C" fn mloop_core_fd_answer(
    sources: &mut SourceLoop,
    fd: u32,
    birth: u64,
    seq: u64,
    mask: u32,
) -> SourceAnswer
    ensures done { Does (inside sources.old) (inside sources.new) (IsNotOpen result) (λ x y. AnswersEvent x fd birth seq mask result y) }
    ensures live { sources.new.live ≡ sources.old.live }
{
    let Some(mut kept) = sources.take() else {
        return not_open();
    };
    let answer = kept.get_mut().answer_event(fd, birth, seq, mask);
    sources.put(kept);
    answer
}

/// The mask that is watched for at the descriptor.
#[unsafe(no_mangle)]
pub extern "C" fn mloop_core_fd_watched(sources: &mut SourceLoop, fd: u32) -> SourceAnswer
    ensures done { Does (inside sources.old) (inside sources.new) (IsNotOpen result) (λ x y. (result ≡ shown_mask (mask_at x.fds fd)) × (y ≡ x)) }
    ensures live { sources.new.live ≡ sources.old.live }
{
    let Some(mut kept) = sources.take() else {
        return not_open();
    };
    let answer = kept.get_mut().watched(fd);
    sources.put(kept);
    answer
}

/// The number of this interface, which changes where a struct of it does.
#[unsafe(no_mangle)]
pub extern "C" fn mloop_core_sources_interface() -> u32
    ensures { result ≡ 1 }
{
    1
}
