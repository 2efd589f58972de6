//! Idle handlers and watched descriptors by hand.

use frame_phases::FrameState;
use loop_model::NoMemory;
use loop_sources::{Event, FdTable, IdleSet};
use std::process::Abort;

fn assert_turns(rt: &impl Abort, set: &IdleSet, ids: &[u32]) -> Result<(), NoMemory> {
    let turns = set.turns()?;
    assert_eq!(rt; turns.len(), ids.len());
    for (turn, id) in turns.iter().zip(ids) {
        assert_eq!(rt; turn.id, *id);
    }
    Ok(())
}

fn assert_send<T: Send>(_value: &T) {}

#[test]
fn sets_and_frames_may_move_to_another_thread(rt: HostRuntime) -> Result<(), NoMemory> {
    assert_send(&IdleSet::empty(rt.alloc()));
    assert_send(&FdTable::empty(rt.alloc()));
    assert_send(&FrameState::new(rt.alloc(), 0, 10, 4)?);
    Ok(())
}

#[test]
fn handlers_that_answer_false_are_removed(rt: HostRuntime) -> Result<(), NoMemory> {
    let mut set = IdleSet::empty(rt.alloc());
    assert_turns(&rt, &set, &[])?;
    assert_eq!(rt; set.add(3, true)?, 0);
    assert_eq!(rt; set.add(4, false)?, 1);
    assert_eq!(rt; set.add(3, false)?, 2);
    assert_turns(&rt, &set, &[3, 4, 3])?;
    assert!(rt; !set.finish(0, true));
    assert!(rt; set.finish(1, false));
    assert!(rt; !set.finish(1, false));
    assert_turns(&rt, &set, &[3, 3])?;
    assert!(rt; set.remove(3));
    assert!(rt; !set.remove(4));
    assert!(rt; !set.finish(0, false));
    assert!(rt; set.finish(2, false));
    assert_turns(&rt, &set, &[])
}

#[test]
fn a_listener_that_answers_0_goes_and_a_renewal_of_the_watched_mask_changes_nothing(
    rt: HostRuntime,
) -> Result<(), NoMemory> {
    let mut table = FdTable::empty(rt.alloc());
    assert_eq!(rt; table.watched(5), None);
    table.set(5, 1, 0)?;
    assert_eq!(rt; table.watched(5), Some(5));
    table.hand_in(5, 3)?;
    table.hand_in(5, 1)?;
    let call = Event::Call {
        fd: 5,
        events: 1,
        birth: 0,
        seq: 0,
        listener: 0,
    };
    assert_eq!(rt; table.take_event(), Some(call));
    assert!(rt; table.answer(5, 0, 0, 0));
    assert_eq!(rt; table.take_event(), Some(Event::Ignored));
    assert_eq!(rt; table.take_event(), None);
    let mut table = FdTable::empty(rt.alloc());
    table.set(5, 0, 6)?;
    table.set(5, 1, 6)?;
    table.set(5, 5, 7)?;
    table.hand_in(5, 2)?;
    table.hand_in(5, 7)?;
    assert_eq!(rt; table.take_event(), Some(Event::Ignored));
    let call = Event::Call {
        fd: 5,
        events: 5,
        birth: 0,
        seq: 0,
        listener: 6,
    };
    assert_eq!(rt; table.take_event(), Some(call));
    table.set(5, 1, 8)?;
    assert!(rt; !table.answer(5, 0, 0, 2));
    assert!(rt; table.answer(5, 0, 1, 2));
    assert_eq!(rt; table.watched(5), Some(6));
    table.set(5, 0, 8)?;
    table.set(5, 2, 9)?;
    assert!(rt; !table.answer(5, 0, 0, 1));
    assert!(rt; table.answer(5, 1, 0, 1));
    Ok(())
}
