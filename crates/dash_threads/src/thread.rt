//! A thread of a script, and its commands.
ghost use Rattle.std.specs.Prelude.{◌≡◌, ◌<◌, true, false, OnOk};
ghost use Rattle.dash_script.specs.declared.script.Script.{Script as TheScript};
ghost use Rattle.dash_script.specs.declared.script.Command.TheVariants.{Frame, Unframe};
ghost use Rattle.choreographer.specs.Known.{IsPassOf};
ghost use Rattle.run_model.specs.Moments.{Mode, in_lockstep};
ghost use Rattle.dash_hall.specs.Growth.{GoesOn, MayCall};
ghost use Rattle.run_model.specs.Parts.{lines_in};
ghost use Rattle.dash_hall.specs.Kits.{IsUnusedKit, frame_badge_of};
ghost use Rattle.dash_hall.specs.Hosts.{PostsFrame};
ghost use Rattle.dash_threads.specs.AtWork.{IsAtWork, StaysAtWork, RunsUnlessGivenUp, RunsLines, DoesWork};
ghost use Rattle.dash_threads.specs.Threads.{with_barrier, MakesPlanned, RunsLine, TakesAt, TakesAtAny, Continues, HasBegun};
ghost use Rattle.dash_threads.specs.Threads.{one_pass_more, rungs_of, one_more_at};

use crate::labels::Labelled;
use crate::planned::call_for;
use choreographer::{Choreographer, FramePass};
use dash_hall::{Hall, Host, Kit, Look, Still, frame_handler, perform};
use dash_script::{Block, Command, Script, phase_count};
use handler_post::Handler;
use loop_io::Gate;
use loop_model::NoMemory;
use message_pool::{Pool, PoolClaim, PoolPass};
use shared_queue::{Poster, SharedQueue};
use std::alloc::Global;
use std::snapshot::Snapshot;
use std::sync::Wait;

/// A command at its uptime, in milliseconds.
#[derive(Clone, Copy, Debug, PartialEq, Eq)]
pub(crate) struct Timed {
    pub(crate) now: u64,
    pub(crate) command: Command,
}

/// A frame callback that is to be posted at this uptime, for the moment in `delay` milliseconds.
#[derive(Clone, Copy, Debug, PartialEq, Eq)]
struct FramePost {
    now: u64,
    phase: u32,
    id: u32,
    delay: u64,
}

/// Where a frame callback is posted: what its message goes by, and the choreographer.
#[derive(Drop)]
struct Screen<'a> {
    handler: Handler,
    queue: &'a SharedQueue<PoolClaim>,
    pool: &'a Pool,
    choreographer: &'a Choreographer,
}

/// A posting thread: what it needs to work with the queues, the barriers that it posted, and how often it came to the gate.
#[derive(Drop)]
pub struct PostingThread {
    /// Its number among the threads, which is its number among the senders.
    pub number: u32,
    /// Its posters, its pass of the pool and its passes of choreographers.
    pub kit: Kit,
    /// The barriers that it posted, in order.
    pub barriers: Vec<Labelled>,
    /// How often it came to the gate.
    pub passed: u64,
    /// It found no memory, or the run given up, and makes no command more.
    pub gave_up: bool,
}

impl PostingThread {
    /// The thread of this number, which has run nothing yet, with what it needs to work with the queues.
    pub fn new(alloc: Global, number: u32, kit: Kit) -> PostingThread
        ensures number { result.number ≡ number }
        ensures kit { result.kit ≡ kit }
        ensures goes { result.gave_up ≡ false }
        ensures passed { result.passed ≡ 0 }
        ensures begun { (m : Mode) (s : TheScript) → IsUnusedKit kit → HasBegun m s result }
    {
        PostingThread {
            number,
            kit,
            barriers: Vec::new(alloc),
            passed: 0,
            gave_up: false,
        }
    }

    /// What it worked with, at its end.
    pub fn into_kit(self) -> Kit
        ensures { result ≡ self.kit }
    {
        let PostingThread {
            number: _,
            kit,
            barriers: _,
            passed: _,
            gave_up: _,
        } = self;
        kit
    }

    /// Runs its commands of a block, in the order of their lines, at the block's time in milliseconds. Each passes the gate, and looks
    /// whether the run is given up. Where it is, or one finds no memory, the thread gives up. One that has given up stays as it is.
    pub fn run_block<R: Wait, G: Gate>(
        &mut self,
        rt: &R,
        alloc: Global,
        hall: &Hall,
        script: &Script,
        gate: &G,
        block: &Block,
    )
        requires at_work { IsAtWork script.now hall.now self.old }
        ensures { RunsLines script.now hall.now (lines_in self.old.number block.now) (Continues in_lockstep script.now block.now) self.old self.new }
    {
        for line in block.lines.as_slice() {
            if line.thread == self.number {
                let timed = Timed {
                    now: block.time,
                    command: line.command,
                };
                self.run_line(rt, alloc, hall, script, gate, timed);
            }
        }
    }

    /// Passes the gate and runs a command at this uptime, in milliseconds, unless it has given up.
    fn run_line<R: Wait, G: Gate>(
        &mut self,
        rt: &R,
        alloc: Global,
        hall: &Hall,
        script: &Script,
        gate: &G,
        timed: Timed,
    )
        requires at_work { IsAtWork script.now hall.now self.old }
        ensures runs { RunsUnlessGivenUp script.now hall.now self.old self.new }
        ensures passed { self.old.gave_up ≡ false → self.new.passed ≡ one_pass_more self.old.passed }
        ensures made { self.new.gave_up ≡ false → RunsLine in_lockstep script.now (record { time = timed.now; command = timed.command }) self.old self.new }
    {
        if self.gave_up {
            return;
        }
        gate.pass(self.number, self.passed);
        self.passed = self.passed.saturating_add(1);
        let look = hall.stop.look(rt);
        self.run_unless_stopped(rt, alloc, hall, script, timed, look);
    }

    /// Runs a command at this uptime, in milliseconds, unless the look found the run given up. Where it finds no memory it gives the run
    /// up.
    pub(crate) fn run_unless_stopped<R: Wait>(
        &mut self,
        rt: &R,
        alloc: Global,
        hall: &Hall,
        script: &Script,
        timed: Timed,
        look: Look,
    )
        requires at_work { IsAtWork script.now hall.now self.old }
        ensures same { StaysAtWork script.now hall.now self.old self.new }
        ensures heeds { look ≡ true → self.new ≡ record self.old { gave_up = true } }
        ensures bells { self.new.gave_up ≡ false → rungs_of self.new ≡ rungs_of self.old }
        ensures nudges { look ≡ false → self.old.gave_up ≡ false → self.new.gave_up ≡ true → rungs_of self.new ≡ one_more_at 0 (rungs_of self.old) }
        ensures made { self.new.gave_up ≡ false → TakesAt hall.now.lockstep script.now timed.now timed.command self.old self.new }
    {
        if look.is_stopped() {
            self.gave_up = true;
            return;
        }
        if self.run(rt, alloc, hall, script, timed, look).is_err() {
            self.give_up(rt, hall, script);
        }
    }

    /// Makes no command more, gives the run up and nudges main.
    fn give_up<R: Wait>(&mut self, rt: &R, hall: &Hall, script: &Script)
        requires at_work { IsAtWork script.now hall.now self.old }
        ensures same { StaysAtWork script.now hall.now self.old self.new }
        ensures gave_up { self.new.gave_up ≡ true }
        ensures rung { rungs_of self.new ≡ one_more_at 0 (rungs_of self.old) }
    {
        self.gave_up = true;
        hall.stop.stop(rt);
        self.nudge(rt, hall, script, 0);
    }

    /// Runs a command at this uptime, in milliseconds, by a look that found the run going on. A look is good for one command.
    fn run<R: Wait>(
        &mut self,
        rt: &R,
        alloc: Global,
        hall: &Hall,
        script: &Script,
        timed: Timed,
        look: Look,
    ) -> Result<(), NoMemory>
        requires at_work { IsAtWork script.now hall.now self.old }
        requires heeds { look ≡ false }
        ensures { DoesWork script.now hall.now (TakesAt hall.now.lockstep script.now timed.now timed.command) self.old self.new result }
    {
        let Timed { now, command } = timed;
        match command {
            Command::Frame {
                looper,
                phase,
                id,
                delay,
            } => {
                let post = FramePost {
                    now,
                    phase,
                    id,
                    delay,
                };
                self.post_frame(rt, alloc, hall, script, looper, post, &look)
            }
            Command::Unframe { looper, phase, id } => {
                self.remove_frame(rt, hall, script, looper, phase, id, &look)
            }
            Command::Idle { .. } => hand_in(rt, hall, command, &look),
            Command::Watch { .. } => hand_in(rt, hall, command, &look),
            Command::Event { .. } => hand_in(rt, hall, command, &look),
            _ => self.make_call(rt, alloc, hall, script, timed, &look),
        }
    }

    /// Makes the call of a command on its looper's queue, and keeps the token of a barrier under its label.
    fn make_call<R: Wait>(
        &mut self,
        rt: &R,
        alloc: Global,
        hall: &Hall,
        script: &Script,
        timed: Timed,
        look: &Look,
    ) -> Result<(), NoMemory>
        requires at_work { IsAtWork script.now hall.now self.old }
        requires heeds { look.now ≡ false }
        ensures { DoesWork script.now hall.now (MakesPlanned script.now timed.now timed.command) self.old self.new result }
    {
        let Timed { now, command } = timed;
        let Some(planned) = call_for(script, self.barriers.as_slice(), now, command) else {
            return Ok(());
        };
        let place = planned.looper as usize;
        if place < self.kit.posters.len() && place < hall.queues.len() {
            let token = perform(
                rt,
                alloc,
                &hall.queues[place],
                &mut self.kit.posters[place],
                &hall.pool,
                &mut self.kit.pass,
                planned.call,
            )?;
            return self.keep(command, token);
        }
        self.keep(command, None)
    }

    /// Keeps the token of the barrier that a command posted.
    fn keep(&mut self, command: Command, token: Option<u64>) -> Result<(), NoMemory>
        ensures same { self.new ≡ record self.old { barriers = self.new.barriers } }
        ensures kept { OnOk result (self.new.barriers.items ≡ with_barrier self.old.barriers.items command token) }
    {
        let Command::Barrier { looper, label } = command else {
            return Ok(());
        };
        let Some(token) = token else {
            return Ok(());
        };
        self.barriers.push(Labelled {
            label,
            looper,
            token,
        })?;
        Ok(())
    }

    /// Posts a frame callback. A refused message for its due time stands in the history.
    fn post_frame<R: Wait>(
        &mut self,
        rt: &R,
        alloc: Global,
        hall: &Hall,
        script: &Script,
        looper: u32,
        post: FramePost,
        look: &Look,
    ) -> Result<(), NoMemory>
        requires at_work { IsAtWork script.now hall.now self.old }
        requires heeds { look.now ≡ false }
        ensures { DoesWork script.now hall.now (TakesAt hall.now.lockstep script.now post.now (Frame looper post.phase post.id post.delay))
            self.old self.new result }
    {
        let place = looper as usize;
        let phases = phase_count(script.edition);
        if place < self.kit.posters.len()
            && place < hall.queues.len()
            && place < self.kit.frames.len()
            && place < hall.choreographers.len()
            && post.phase < phases
        {
            let screen = Screen {
                handler: frame_handler(looper),
                queue: &hall.queues[place],
                pool: &hall.pool,
                choreographer: &hall.choreographers[place],
            };
            return post_frame(
                rt,
                alloc,
                &screen,
                &mut self.kit.posters[place],
                &mut self.kit.pass,
                &mut self.kit.frames[place],
                post,
            );
        }
        Ok(())
    }

    /// Takes a frame callback out of its phase.
    fn remove_frame<R: Wait>(
        &mut self,
        rt: &R,
        hall: &Hall,
        script: &Script,
        looper: u32,
        phase: u32,
        id: u32,
        look: &Look,
    ) -> Result<(), NoMemory>
        requires at_work { IsAtWork script.now hall.now self.old }
        requires heeds { look.now ≡ false }
        ensures { DoesWork script.now hall.now (TakesAtAny hall.now.lockstep script.now (Unframe looper phase id)) self.old self.new result }
    {
        let place = looper as usize;
        let phases = phase_count(script.edition);
        if place < self.kit.frames.len() && place < hall.choreographers.len() && phase < phases {
            hall.choreographers[place].remove_callbacks(
                rt,
                &mut self.kit.frames[place],
                phase,
                u64::from(id),
                None,
            )?;
        }
        Ok(())
    }
}

/// Posts a frame callback at a choreographer, whose message for its due time goes by the choreographer's handler.
fn post_frame<R: Wait>(
    rt: &R,
    alloc: Global,
    screen: &Screen,
    poster: &mut Poster<PoolClaim>,
    pass: &mut PoolPass,
    frames: &mut FramePass,
    post: FramePost,
) -> Result<(), NoMemory>
    requires ready { MayCall screen.now.queue.now screen.now.pool.now poster.old pass.old }
    requires frames { IsPassOf frames.old screen.now.choreographer.now × (post.phase < screen.now.choreographer.now.constants.phases) }
    ensures on { GoesOn poster.old poster.new pass.old pass.new }
    ensures frames { frame_badge_of frames.new ≡ frame_badge_of frames.old }
    ensures made { OnOk result (PostsFrame screen.now.handler.id post.now post.phase post.id post.delay poster.old poster.new frames.old frames.new) }
{
    let began = Snapshot::of(poster);
    let pass_began = Snapshot::of(pass);
    let still = Still { now: post.now };
    let mut host = Host {
        rt,
        alloc,
        handler: screen.handler,
        queue: screen.queue,
        pool: screen.pool,
        poster,
        pass,
        began: &began,
        pass_began: &pass_began,
        now: post.now,
        uptime: &still,
    };
    let id = u64::from(post.id);
    host.post_callback(screen.choreographer, frames, post.phase, id, post.delay)
}

/// Adds an idle handler, watches a descriptor or hands in an event.
fn hand_in<R: Wait>(rt: &R, hall: &Hall, command: Command, look: &Look) -> Result<(), NoMemory>
    requires heeds { look.now ≡ false }
{
    match command {
        Command::Idle { looper, id, keep } => {
            if let Some(sources) = hall.sources.get(looper as usize) {
                sources.lock(rt).idle.add(id, keep)?;
            }
        }
        Command::Watch {
            looper,
            fd,
            mask,
            answer,
        } => {
            if let Some(sources) = hall.sources.get(looper as usize) {
                sources.lock(rt).fds.set(fd, mask.min(7), answer)?;
            }
        }
        Command::Event { looper, fd, events } => {
            if let Some(sources) = hall.sources.get(looper as usize) {
                sources.lock(rt).fds.hand_in(fd, events.min(7))?;
            }
        }
        _ => {}
    }
    Ok(())
}
