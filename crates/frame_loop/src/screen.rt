//! What the code of a looper with frames is lent, and its frame callbacks.
ghost use Rattle.std.specs.Prelude.{◌≡◌, ◌<◌, None};
ghost use Rattle.choreographer.specs.Calls.{RemovedBy};
ghost use Rattle.frame_loop.specs.Screens.{IsScreen, KeepsWay, PostsCallback, phase_number};

use crate::outbox::FrameOutbox;
use choreographer::{Choreographer, FramePass, Placed};
use loop_io::Clock;
use loop_model::NoMemory;
use message_pool::{Pool, PoolClaim, PoolPass};
use queue_state::{Recorder, Unkept};
use shared_queue::{Poster, SharedQueue};
use std::alloc::Global;
use std::sync::Wait;

/// How many phases a frame has.
pub(crate) const PHASES: u32 = 5;

/// A phase of a frame, in the order in which they run (`Choreographer.CALLBACK_INPUT` and its kin).
#[derive(Clone, Copy, Debug, PartialEq, Eq)]
pub enum Phase {
    /// Input is handled (`CALLBACK_INPUT`).
    Input,
    /// Values are animated (`CALLBACK_ANIMATION`), as by a frame callback.
    Animation,
    /// The insets are animated (`CALLBACK_INSETS_ANIMATION`).
    InsetsAnimation,
    /// All is laid out and drawn (`CALLBACK_TRAVERSAL`).
    Traversal,
    /// What comes behind the drawing (`CALLBACK_COMMIT`).
    Commit,
}

impl Phase {
    /// Its number, as its choreographer has it.
    pub fn number(self) -> u32
        ensures number { result ≡ phase_number self }
        ensures few { result < 5 }
    {
        match self {
            Phase::Input => 0,
            Phase::Animation => 1,
            Phase::InsetsAnimation => 2,
            Phase::Traversal => 3,
            Phase::Commit => 4,
        }
    }
}

/// A looper's line to its own queue, and its choreographer. Moments and delays are milliseconds of uptime, frame times nanoseconds.
#[derive(Drop)]
pub struct Screen<'a, 'b, R: Wait, C: Clock, E: Recorder = Unkept> {
    /// What locks and waits go through.
    pub rt: &'a R,
    /// Where memory comes from.
    pub alloc: Global,
    /// The clock.
    pub clock: &'a C,
    /// The queue.
    pub queue: &'a SharedQueue<PoolClaim, E>,
    /// The looper's poster of the queue.
    pub poster: &'a mut Poster<PoolClaim, E>,
    /// The pool that messages come from and go back to.
    pub pool: &'a Pool,
    /// The looper's pass of the pool.
    pub pass: &'a mut PoolPass,
    /// The choreographer.
    pub choreographer: &'a Choreographer,
    /// The pass by which callbacks are posted and removed.
    pub asks: &'a mut FramePass,
    /// What the choreographer is to send.
    pub outbox: &'a mut FrameOutbox<'b, C>,
}

// The screen of a mailbox, or of what else has its fields, by the poster and the pass of what is lent.
macro_rules! lent_screen {
    ($of:expr, $lent:expr, $choreographer:expr, $asks:expr, $outbox:expr) => {
        Screen {
            rt: $of.rt,
            alloc: $of.alloc,
            clock: $of.clock,
            queue: $of.queue,
            poster: $lent.poster,
            pool: $of.pool,
            pass: $lent.pass,
            choreographer: $choreographer,
            asks: $asks,
            outbox: $outbox,
        }
    };
}

pub(crate) use lent_screen;

impl<'a, 'b, R: Wait, C: Clock, E: Recorder> Screen<'a, 'b, R, C, E> {
    /// Posts a callback of the animation phase for the next frame (`Choreographer.postFrameCallback`).
    pub fn post_frame_callback(&mut self, id: u64) -> Placed
        requires { IsScreen self.old }
        ensures keeps { KeepsWay self.old self.new }
        ensures posted { PostsCallback C.shows self.old self.new 1 id None 0 result }
    {
        self.post_callback(Phase::Animation, id, None, 0)
    }

    /// Posts a callback of the animation phase for the first frame behind this delay (`Choreographer.postFrameCallbackDelayed`).
    pub fn post_frame_callback_delayed(&mut self, id: u64, delay: u64) -> Placed
        requires { IsScreen self.old }
        ensures keeps { KeepsWay self.old self.new }
        ensures posted { PostsCallback C.shows self.old self.new 1 id None delay result }
    {
        self.post_callback(Phase::Animation, id, None, delay)
    }

    /// Removes the callbacks of the animation phase with this number, and answers how many there were
    /// (`Choreographer.removeFrameCallback`). At NoMemory all stay.
    pub fn remove_frame_callback(&mut self, id: u64) -> Result<u64, NoMemory>
        requires { IsScreen self.old }
        ensures keeps { KeepsWay self.old self.new }
        ensures removed { RemovedBy self.old.asks.now self.new.asks.now 1 id None result }
    {
        self.remove_callbacks(Phase::Animation, id, None)
    }

    /// Posts a callback of this phase for the first frame behind this delay, with a token by which it may be removed
    /// (`Choreographer.postCallbackDelayed`). Its answer is that of `Choreographer::post_callback`, but Refused, which never comes.
    pub fn post_callback(&mut self, phase: Phase, id: u64, token: Option<u64>, delay: u64) -> Placed
        requires { IsScreen self.old }
        ensures keeps { KeepsWay self.old self.new }
        ensures posted { PostsCallback C.shows self.old self.new (phase_number phase) id token delay result }
    {
        let number = phase.number();
        self.choreographer
            .post_callback(self.rt, self.asks, self.outbox, number, id, token, delay)
    }

    /// Removes the callbacks of this phase with this number, and with this token where one is named, and answers how many there were
    /// (`Choreographer.removeCallbacks`). At NoMemory all stay.
    pub fn remove_callbacks(
        &mut self,
        phase: Phase,
        id: u64,
        token: Option<u64>,
    ) -> Result<u64, NoMemory>
        requires { IsScreen self.old }
        ensures keeps { KeepsWay self.old self.new }
        ensures removed { RemovedBy self.old.asks.now self.new.asks.now (phase_number phase) id token result }
    {
        let number = phase.number();
        self.choreographer
            .remove_callbacks(self.rt, self.asks, number, id, token)
    }
}
