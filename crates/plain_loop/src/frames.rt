//! A host that keeps what it is to send, and a client over drawing code that states nothing.
ghost use Rattle.std.specs.Prelude.{◌≡◌, ◌==◌, [], IsTrue, true, None};

use choreographer::{
    Choreographer, ClientRan, FrameClient, FrameHost, HostSent, Sending, keep_sent,
};
use frame_phases::Callback;
use loop_model::NoMemory;
use std::alloc::Global;

/// A host whose clock the caller sets, and which keeps the messages that its looper is to be sent, in order.
#[derive(Drop)]
pub struct Outbox {
    /// The uptime, in nanoseconds.
    pub now_nanos: u64,
    /// What was sent.
    pub sent: Vec<Sending>,
}

impl Outbox {
    /// Nothing was sent. It takes no memory.
    pub fn new(alloc: Global, now_nanos: u64) -> Outbox
        ensures { (result.now_nanos ≡ now_nanos) × (result.sent.items ≡ []) }
    {
        Outbox {
            now_nanos,
            sent: Vec::new(alloc),
        }
    }
}

impl FrameHost for Outbox {
    ghost Ready = { λ h. IsTrue true };

    ghost Origin = { Unit {0} };

    ghost origin = { λ h. tt };

    ghost is_moment = { λ h n. n == h.now_nanos };

    ghost sends = { λ h. h.sent.items };

    ghost Reads = { λ h n k. k ≡ h };

    fn now_nanos(&mut self) -> u64 {
        self.now_nanos
    }

    fn send(&mut self, what: u32, arg: u32, when: u64) -> HostSent {
        keep_sent(&mut self.sent, what, arg, when)
    }
}

/// The code of frame callbacks, as `doFrame` of the Android API reference's `Choreographer.FrameCallback`. After NoMemory the frame
/// is given up.
pub trait Draw {
    /// Runs a callback with its frame time, in nanoseconds.
    fn draw(&mut self, callback: &Callback, time: u64) -> Result<(), NoMemory>;
}

/// A client that leaves all to this code, and states nothing.
#[derive(Drop)]
pub struct Drawing<D: Draw> {
    /// The code.
    pub drawing: D,
}

impl<H: FrameHost, D: Draw> FrameClient<H> for Drawing<D> {
    ghost Serves = { λ l c. IsTrue true };

    ghost Origin = { Unit {0} };

    ghost origin = { λ l. tt };

    ghost ran = { λ l. None };

    ghost Meets = { λ l h. IsTrue true };

    fn run(
        &mut self,
        c: &Choreographer,
        host: &mut H,
        callback: &Callback,
        time: u64,
    ) -> ClientRan {
        match self.drawing.draw(callback, time) {
            Ok(()) => ClientRan::Done,
            Err(_) => ClientRan::NoMemory,
        }
    }

    ghost stays = { λ l h now k reads meets. meets };
}
