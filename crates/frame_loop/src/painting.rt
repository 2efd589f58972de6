//! What runs the callbacks of a looper's frames.
ghost use Rattle.std.specs.Prelude.{None};
ghost use Rattle.frame_loop.specs.Paintings.{PaintingOrigin, painting_origin, ServesPainting};

use crate::handlers::FrameHandle;
use crate::outbox::FrameOutbox;
use crate::screen::{Screen, lent_screen};
use choreographer::{Choreographer, ClientRan, FrameClient, FramePass};
use frame_phases::Callback;
use loop_io::Clock;
use message_pool::{Pool, PoolClaim, PoolPass};
use queue_state::Recorder;
use shared_queue::{Poster, SharedQueue};
use std::alloc::Global;
use std::snapshot::Snapshot;
use std::sync::Wait;

/// Handlers and what they are lent while a frame runs.
#[derive(Drop)]
pub(crate) struct Painting<'a, R: Wait, C: Clock, E: Recorder, H: FrameHandle<R, C, E>> {
    pub(crate) rt: &'a R,
    pub(crate) alloc: Global,
    pub(crate) clock: &'a C,
    pub(crate) queue: &'a SharedQueue<PoolClaim, E>,
    pub(crate) poster: &'a mut Poster<PoolClaim, E>,
    pub(crate) pool: &'a Pool,
    pub(crate) pass: &'a mut PoolPass,
    pub(crate) choreographer: &'a Choreographer,
    pub(crate) asks: &'a mut FramePass,
    pub(crate) handlers: &'a mut H,
    /// The poster and the pass as they were before the frame.
    pub(crate) began: &'a Snapshot<Poster<PoolClaim, E>>,
    pub(crate) pass_began: &'a Snapshot<PoolPass>,
}

impl<'a, 'b, R: Wait, C: Clock, E: Recorder, H: FrameHandle<R, C, E>> FrameClient<
    FrameOutbox<'b, C>,
> for Painting<'a, R, C, E, H> {
    ghost Serves = { λ l c. ServesPainting (painting_origin l) l.poster.now l.pass.now l.asks.now c };

    ghost Origin = { PaintingOrigin };

    ghost origin = { λ l. painting_origin l };

    ghost ran = { λ l. None };

    ghost Meets = { λ l h. H.Holds l.handlers.now };

    fn run(
        &mut self,
        c: &Choreographer,
        host: &mut FrameOutbox<'b, C>,
        callback: &Callback,
        time: u64,
    ) -> ClientRan {
        let mut screen = lent_screen!(self, self, self.choreographer, self.asks, host);
        match self.handlers.draw(&mut screen, callback, time) {
            Ok(()) => ClientRan::Done,
            Err(_) => ClientRan::NoMemory,
        }
    }

    ghost stays = { λ l h now k reads meets. meets };
}
