//! What a looper shares with other threads beside its queue, and what it does with it.
ghost use Rattle.std.specs.Prelude.{◌≡◌, map, OnOk};
ghost use Rattle.looper_run.specs.Acts.{IsIdleAct, GrowsBy};
ghost use Rattle.looper_run.specs.Asked.{Listen, with_asked, TellsOf};
ghost use Rattle.looper_run.specs.Carried.{TellsOn, unasked};

use crate::dispatch::tell;
use crate::dispatcher::Dispatcher;
use loop_model::{Act, Journal, NoMemory};
use loop_sources::{Event, FdTable, IdleSet, IdleTurn};
use std::sync::{Mutex, Wait};

/// The idle handlers and the watched descriptors of a looper.
#[derive(Drop)]
pub struct Sources {
    /// The idle handlers.
    pub idle: IdleSet,
    /// The watched descriptors.
    pub fds: FdTable,
}

// Runs these idle handlers, tells each, in order, and takes out those that are not kept.
fn run_turns<R: Wait, D: Dispatcher>(
    rt: &R,
    sources: &Mutex<Sources>,
    journal: &mut Journal,
    d: &mut D,
    turns: &[IdleTurn],
) -> Result<(), NoMemory>
    ensures tells { TellsOn (GrowsBy IsIdleAct) D.Serves D.origin D.nudges D.asked D.Awaits D.Meets d.old d.new journal.old journal.new }
{
    for turn in turns {
        let Some(kept) = d.idle(turn.id, turn.keep) else {
            return Err(NoMemory)
        };
        tell(journal, Act::Idle { id: turn.id, kept })?;
        sources.lock(rt).idle.finish(turn.serial, kept);
    }
    Ok(())
}

// Runs the idle handlers that stand in the set at this moment. One that is removed meanwhile runs all the same.
pub(crate) fn run_idle<R: Wait, D: Dispatcher>(
    rt: &R,
    sources: &Mutex<Sources>,
    journal: &mut Journal,
    d: &mut D,
) -> Result<(), NoMemory>
    ensures tells { TellsOn (GrowsBy IsIdleAct) D.Serves D.origin D.nudges D.asked D.Awaits D.Meets d.old d.new journal.old journal.new }
{
    let turns = sources.lock(rt).idle.turns();
    run_turns(rt, sources, journal, d, turns?.as_slice())
}

// Tells the listeners of the events that were handed in, and watches for what they answer.
pub(crate) fn take_events<R: Wait, D: Dispatcher>(
    rt: &R,
    sources: &Mutex<Sources>,
    journal: &mut Journal,
    d: &mut D,
) -> Result<(), NoMemory>
    ensures tells { TellsOn (TellsOf (λ heard. OnOk result (D.asked d.new ≡ with_asked (D.asked d.old) (map Listen heard))))
        D.Serves D.origin D.nudges unasked D.Awaits D.Meets d.old d.new journal.old journal.new }
{
    for _ in rt.forever() {
        let event = sources.lock(rt).fds.take_event();
        match event {
            None => return Ok(()),
            Some(Event::Ignored) => {}
            Some(
                Event::Call {
                    fd,
                    events,
                    birth,
                    seq,
                    listener,
                },
            ) => {
                let Some(mask) = d.listen(fd, events, listener) else {
                    return Err(NoMemory)
                };
                sources.lock(rt).fds.answer(fd, birth, seq, mask);
                tell(journal, Act::Event { fd, events, mask })?;
            }
        }
    }
    unreachable!()
}
