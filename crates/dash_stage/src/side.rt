//! Senders that work side by side, those that have work each on a thread of its own.
ghost use Rattle.std.specs.Prelude.{◌≡◌, ◌<◌, true, false, OnOk};
ghost use Rattle.std.specs.Thread.{IsSync};
ghost use Rattle.dash_script.specs.Reading.{HasText};
ghost use Rattle.dash_hall.specs.Kits.{IsHall};
ghost use Rattle.dash_threads.specs.Threads.{IsThread};
ghost use Rattle.dash_loopers.specs.Loopers.{IsLooper};
ghost use Rattle.dash_stage.specs.Stages.{CanRunBlock, CanRunRound, AreThreads, EachRunsBlock, RunsBlock, GoOn, LoopersGoOn};
ghost use Rattle.dash_stage.specs.Turns.{has_turn, RunsInTurn, HaveRunRound};

use crate::agenda::Spread;
use crate::means::Means;
use dash_hall::Hall;
use dash_loopers::StageLooper;
use dash_script::{Block, Script};
use dash_threads::PostingThread;
use loop_io::Gate;
use loop_model::NoMemory;
use std::sync::Wait;
use std::thread::{Threads, for_each_mut};

/// Which loopers run a round.
#[derive(Clone, Copy, Debug, PartialEq, Eq)]
pub(crate) enum Turn {
    All,
    Main,
    Others,
}

impl Turn {
    fn has(self, looper: u32) -> bool
        ensures { result ≡ has_turn self looper }
    {
        match self {
            Turn::All => true,
            Turn::Main => looper == 0,
            Turn::Others => looper != 0,
        }
    }
}

/// The threads run their commands of a block.
pub(crate) fn run_threads<R: Threads + Wait + Sync, G: Gate + Sync>(
    means: &Means<R, G>,
    hall: &Hall,
    script: &Script,
    block: &Block,
    threads: &mut [PostingThread],
) -> Result<(), NoMemory>
    requires { CanRunBlock script.now hall.now threads.old }
    ensures threads { AreThreads script.now hall.now threads.new }
    ensures run { OnOk result (EachRunsBlock script.now block.now threads.old threads.new) }
{
    let count = threads_for(block, threads);
    for_each_mut(
        means.rt,
        threads,
        count,
        &|_, thread: &mut PostingThread|
            requires { IsSync R.row × IsSync G.row × HasText script.now × IsHall script.now hall.now × IsThread script.now hall.now thread.old }
            ensures { RunsBlock script.entry.now hall.entry.now block.entry.now thread.old thread.new }
        { thread.run_block(means.rt, means.alloc, hall, script, means.gate, block) },
    );
    if has_given_up(threads) {
        return Err(NoMemory);
    }
    Ok(())
}

/// How many threads these senders' lines of a block are worth.
fn threads_for(block: &Block, threads: &[PostingThread]) -> usize
    ensures { 0 < result }
{
    let mut spread = Spread::new(threads.len());
    for (place, thread) in threads.iter().enumerate() {
        if has_line(block, thread.number) {
            spread.add(place);
        }
    }
    spread.threads()
}

fn has_line(block: &Block, thread: u32) -> bool {
    for line in block.lines.as_slice() {
        if line.thread == thread {
            return true;
        }
    }
    false
}

/// Whether one of the threads found no memory.
pub(crate) fn has_given_up(threads: &[PostingThread]) -> bool
    ensures { result ≡ false → GoOn threads.now }
{
    for thread in threads {
        if thread.gave_up {
            return true;
        }
    }
    false
}

/// These loopers run a round, on so many threads.
pub(crate) fn run_loopers<R: Threads + Wait + Sync, G: Gate + Sync>(
    means: &Means<R, G>,
    hall: &Hall,
    script: &Script,
    now: u64,
    turn: Turn,
    count: usize,
    loopers: &mut [StageLooper],
) -> Result<(), NoMemory>
    requires count { 0 < count }
    requires can { CanRunRound script.now hall.now loopers.old }
    ensures on { OnOk result (LoopersGoOn loopers.new) }
    ensures round { HaveRunRound turn script.now hall.now now loopers.old loopers.new }
{
    for_each_mut(
        means.rt,
        loopers,
        count,
        &|_, looper: &mut StageLooper|
            requires { IsSync R.row × IsSync G.row × IsHall script.now hall.now × (hall.now.lockstep ≡ true) × IsLooper script.now hall.now looper.old }
            ensures { RunsInTurn turn script.entry.now hall.entry.now now looper.old looper.new }
        {
            if turn.has(looper.number) {
                looper.run_round(means.rt, means.alloc, hall, script, means.gate, now)
            }
        },
    );
    if some_gave_up(loopers) {
        return Err(NoMemory);
    }
    Ok(())
}

/// Whether one of the loopers found no memory.
pub(crate) fn some_gave_up(loopers: &[StageLooper]) -> bool
    ensures { result ≡ false → LoopersGoOn loopers.now }
{
    for looper in loopers {
        if looper.gave_up() {
            return true;
        }
    }
    false
}
