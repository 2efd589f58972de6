// The rings that a waiting looper hears.
ghost use Rattle.std.specs.Prelude.{◌≡◌};
ghost use Rattle.shared_queue.specs.Waiting.{MaySleep};

use crate::owing::Owing;
use crate::poster::Poster;
use message_slot::Claim;
use queue_state::Recorder;
use std::snapshot::Snapshot;
use std::sync::{Condvar, Mutex, Wait};
use std::time::{Clock, Duration};

/// How many rings there were, wrapping, and who waits for the next one.
#[derive(Drop)]
pub(crate) struct Rings {
    count: Mutex<u64>,
    rung: Condvar,
}

/// That a ring was made. Only `ring` makes one.
#[derive(Drop)]
pub(crate) struct Rung {
    count: u64,
}

/// The number of rings, read when the poster was so, for a wait with this cap. Only `heard` makes one.
#[derive(Drop)]
pub(crate) struct Heard<K: Claim, E: Recorder> {
    count: u64,
    pub(crate) cap: Option<u64>,
    pub(crate) poster: Snapshot<Poster<K, E>>,
}

impl Rings {
    pub(crate) fn new() -> Rings {
        Rings {
            count: Mutex::new(0),
            rung: Condvar::new(),
        }
    }

    // One ring more, which ends all waits. It is made for an answer that stands behind its turn.
    pub(crate) fn ring<R: Wait, A>(&self, rt: &R, _owing: &Owing<A>) -> Rung {
        let mut count = self.count.lock(rt);
        *count = count.wrapping_add(1);
        let rung = Rung { count: *count };
        drop(count);
        self.rung.notify_all();
        rung
    }

    // Reads the number of rings so far.
    pub(crate) fn heard<R: Wait, K: Claim, E: Recorder>(
        &self,
        rt: &R,
        poster: &Poster<K, E>,
        cap: Option<u64>,
    ) -> Heard<K, E>
        ensures poster { result.poster.value ≡ poster.now }
        ensures cap { result.cap ≡ cap }
    {
        Heard {
            count: *self.count.lock(rt),
            cap,
            poster: Snapshot::of(poster),
        }
    }

    // Waits for a ring after those that were heard before the poster's last look, at most so many milliseconds or without limit:
    // until what that look waits for is due, or the cap, whichever comes first. It may end for no reason.
    pub(crate) fn wait<R: Wait + Clock, K: Claim, E: Recorder>(
        &self,
        rt: &R,
        poster: &Poster<K, E>,
        heard: Heard<K, E>,
        limit: Option<u64>,
    )
        requires { MaySleep heard.poster.value poster.now heard.cap limit }
    {
        let count = self.count.lock(rt);
        if *count != heard.count {
            return;
        }
        match limit {
            Some(millis) => {
                self.rung
                    .wait_timeout(rt, count, Duration::from_millis(millis));
            }
            None => {
                self.rung.wait(rt, count);
            }
        }
    }
}
