//! A looper over a dispatcher that records its calls.
ghost use Rattle.std.specs.Prelude.{◌≡◌, ℕ, IfOk, IsTrue, Option, Some, None, true, false, [], ◌∷◌, ◌++◌};
ghost use Rattle.std.specs.List.{filter_map};
ghost use Rattle.loop_model.specs.Items.{is_barrier};
ghost use Rattle.shared_queue.specs.Known.{IsOf};
ghost use Rattle.looper_run.specs.declared.dispatcher.Did.TheVariants as did;
ghost use Rattle.loop_tests.specs.declared.loopers.Noted.{Noted};
ghost use Rattle.loop_tests.specs.declared.loopers.Noted.TheVariants as noted;
ghost use Rattle.looper_run.specs.Holding.{IsAt};
ghost use Rattle.looper_run.specs.Asked.{Asked, Pulse, Listen};
ghost use Rattle.looper_run.specs.Tests.{Unless};

use loop_io::StepClock;
use loop_model::{Act, NoMemory, Post, Route};
use loop_sources::{FdTable, IdleSet};
use looper_run::{ByClock, Did, Dispatcher, Loop, Looper, Own, Round, Sources};
use message_list::new_node;
use message_pool::{Pool, PoolClaim, PoolNode};
use message_slot::Message;
use queue_state::{Kept, Posted, Quitting};
use shared_queue::{Poster, SharedQueue};
use std::alloc::Global;
use std::sync::{Mutex, Wait};
use std::test::Fail;

#[derive(Clone, Copy, Debug, PartialEq, Eq)]
enum Noted {
    Pulse {
        now: u64,
    },
    Before {
        number: u64,
    },
    Listen {
        fd: u32,
        events: u32,
        listener: u32,
        mask: u32,
    },
    Callback {
        id: u64,
        now: u64,
        told: usize,
    },
    Intercept {
        what: u32,
        now: u64,
        told: usize,
    },
    Handle {
        what: u32,
        now: u64,
        told: usize,
    },
}

/// It notes how many acts were told when it was called. It intercepts the messages whose `what` is 2, and its listeners answer their identity as the new mask.
#[derive(Drop)]
struct Noter {
    calls: Vec<Noted>,
}

impl Noter {
    fn note(&mut self, call: Noted) -> Did
        ensures noted { Unless result (self.new.calls.items ≡ self.old.calls.items ++ call ∷ []) }
        ensures lost { result ≡ did.NoMemory → self.new.calls.items ≡ self.old.calls.items }
    {
        match self.calls.push(call) {
            Ok(()) => Did::Yes,
            Err(_) => Did::NoMemory,
        }
    }
}

impl Dispatcher for Noter {
    type Record = Kept;

    type Value = ();

    ghost Serves = { λ d w. IsTrue true };

    ghost Origin = { ℕ };

    ghost origin = { λ d. 0 };

    ghost nudges = { λ d. 0 };

    ghost asked = { λ d. Some (filter_map (λ (c : Noted). elim c as (λ x. Option Asked) [
      | noted.Pulse now ↦ Some (Pulse now)
      | noted.Before number ↦ None
      | noted.Listen fd events listener mask ↦ Some (Listen (record { fd = fd; events = events; listener = listener; mask = mask }))
      | noted.Callback id now told ↦ None
      | noted.Intercept what now told ↦ None
      | noted.Handle what now told ↦ None
    ]) d.calls.items) };

    ghost Meets = { λ d s es acts. IsTrue true };

    ghost Awaits = { λ d awaited. IsTrue true };

    fn before(&mut self, number: u64, m: &mut Message<PoolClaim>) {
        self.note(Noted::Before { number });
    }

    fn pulse(&mut self, own: &mut Own, now: u64) -> Did {
        self.note(Noted::Pulse { now })
    }

    fn listen(&mut self, fd: u32, events: u32, listener: u32) -> Option<u32> {
        let mask = listener.min(7);
        let noted = self.note(Noted::Listen {
            fd,
            events,
            listener,
            mask,
        });
        match noted {
            Did::Yes => Some(mask),
            Did::No => Some(mask),
            Did::NoMemory => None,
        }
    }

    fn idle(&mut self, id: u32, keep: bool) -> Option<bool> {
        Some(keep)
    }

    fn run_callback(&mut self, own: &mut Own, id: u64, m: &Message<PoolClaim>, now: u64) -> Did {
        let told = own.journal.acts.len();
        self.note(Noted::Callback { id, now, told })
    }

    fn intercept(&mut self, own: &mut Own, m: &Message<PoolClaim>, now: u64) -> Did {
        let what = m.what();
        let told = own.journal.acts.len();
        if self.note(Noted::Intercept { what, now, told }) == Did::NoMemory {
            return Did::NoMemory;
        }
        if what == 2 { Did::Yes } else { Did::No }
    }

    fn handle(&mut self, own: &mut Own, m: &Message<PoolClaim>, now: u64) -> Did {
        let what = m.what();
        let told = own.journal.acts.len();
        self.note(Noted::Handle { what, now, told })
    }

    ghost others = { λ d s es e acts apart meets. meets };

    ghost disposal = { λ d s es e now acts own call reply meets. meets };

    ghost quiet = { λ d s es a acts is meets. meets };
}

// A queue of two senders, the second of which is the looper.
#[derive(Drop)]
struct Opened {
    queue: SharedQueue<PoolClaim>,
    poster: Poster<PoolClaim>,
    pool: Pool,
    looper: Looper,
}

fn set_up(alloc: Global) -> Result<Opened, NoMemory>
    ensures { IfOk result (λ o. IsOf o.poster o.queue × IsAt o.queue o.pool o.looper.held × (o.looper.ended ≡ false)
        × (o.queue.constants.setting.lockstep ≡ false)) }
{
    let (pool, pass) = Pool::new(alloc)?;
    let (queue, mut posters) = SharedQueue::make(alloc, pool.home(), 0, false, false, 2)?;
    let second = posters.pop().unwrap();
    let poster = posters.pop().unwrap();
    let looper = Looper::make(alloc, 0, second, pass);
    Ok(Opened {
        queue,
        poster,
        pool,
        looper,
    })
}

fn message(alloc: Global, what: u32, callback: Option<u64>, when: u64) -> Result<PoolNode, NoMemory>
    ensures { IfOk result (λ m. (is_barrier m.item ≡ false) × (m.claim ≡ None)) }
{
    let mut message = Message::blank();
    message.set_post(&Post {
        handler: 0,
        what,
        arg: 0,
        obj: None,
        callback,
        when,
        asynchronous: false,
        slot: None,
    });
    match new_node(alloc, message) {
        Ok(node) => Ok(node),
        Err(_) => Err(NoMemory),
    }
}

// Posts a message: its number, and whether a waiting looper has to look again; none where it was not accepted.
fn post<R: Wait>(
    rt: &R,
    alloc: Global,
    queue: &SharedQueue<PoolClaim>,
    poster: &mut Poster<PoolClaim>,
    what: u32,
    callback: Option<u64>,
    when: u64,
) -> Option<(u64, bool)>
    requires { IsOf poster.old queue.now }
    ensures { IsOf poster.new queue.now }
{
    let Ok(node) = message(alloc, what, callback, when) else {
        return None
    };
    match poster.post(rt, queue, node) {
        Posted::Accepted { number, wake } => Some((number, wake)),
        Posted::Refused { .. } => None,
        Posted::NoMemory(_) => None,
    }
}

fn nothing_watched(alloc: Global) -> Mutex<Sources> {
    Mutex::new(Sources {
        idle: IdleSet::empty(alloc),
        fds: FdTable::empty(alloc),
    })
}

#[test]
fn each_message_goes_its_way_once(rt: HostRuntime) -> Result<(), Fail> {
    let alloc = rt.alloc();
    let mut o = set_up(alloc)?;
    assert!(rt; post(&rt, alloc, &o.queue, &mut o.poster, 1, None, 5) == Some((0, false)));
    assert!(rt; post(&rt, alloc, &o.queue, &mut o.poster, 7, Some(9), 5) == Some((1, false)));
    assert!(rt; post(&rt, alloc, &o.queue, &mut o.poster, 2, None, 5) == Some((2, false)));
    assert!(rt; post(&rt, alloc, &o.queue, &mut o.poster, 1, None, 20) == Some((3, false)));
    let sources = nothing_watched(alloc);
    let mut d = Noter {
        calls: Vec::new(alloc),
    };
    let round = o
        .looper
        .run_round(&rt, &o.queue, &o.pool, &sources, &mut d, 10);
    assert!(rt;
        round
            == Round::Drained {
                dispatched: 3,
                until: Some(20)
            }
    );
    let calls = [
        Noted::Pulse { now: 10 },
        Noted::Before { number: 0 },
        Noted::Intercept {
            what: 1,
            now: 10,
            told: 0,
        },
        Noted::Handle {
            what: 1,
            now: 10,
            told: 0,
        },
        Noted::Before { number: 1 },
        Noted::Callback {
            id: 9,
            now: 10,
            told: 1,
        },
        Noted::Before { number: 2 },
        Noted::Intercept {
            what: 2,
            now: 10,
            told: 2,
        },
    ];
    assert!(rt; d.calls.as_slice() == calls.as_slice());
    let (_, _, journal) = o.looper.into_parts();
    let acts = [
        Act::Dispatch {
            number: 0,
            now: 10,
            route: Route::Handled,
        },
        Act::Dispatch {
            number: 1,
            now: 10,
            route: Route::Callback { id: 9 },
        },
        Act::Dispatch {
            number: 2,
            now: 10,
            route: Route::Intercepted,
        },
    ];
    assert!(rt; journal.acts.as_slice() == acts.as_slice());
    Ok(())
}

#[test]
fn idle_handlers_run_once_between_messages(rt: HostRuntime) -> Result<(), Fail> {
    let alloc = rt.alloc();
    let mut o = set_up(alloc)?;
    let sources = nothing_watched(alloc);
    assert!(rt; sources.lock(&rt).idle.add(3, true) == Ok(0));
    assert!(rt; sources.lock(&rt).idle.add(4, false) == Ok(1));
    let mut d = Noter {
        calls: Vec::new(alloc),
    };
    let drained = Round::Drained {
        dispatched: 0,
        until: None,
    };
    assert!(rt;
        o.looper
            .run_round(&rt, &o.queue, &o.pool, &sources, &mut d, 1)
            == drained
    );
    assert!(rt; post(&rt, alloc, &o.queue, &mut o.poster, 1, None, 0) == Some((0, true)));
    let round = o
        .looper
        .run_round(&rt, &o.queue, &o.pool, &sources, &mut d, 2);
    assert!(rt;
        round
            == Round::Drained {
                dispatched: 1,
                until: None
            }
    );
    assert!(rt;
        o.looper
            .run_round(&rt, &o.queue, &o.pool, &sources, &mut d, 3)
            == drained
    );
    let (_, _, journal) = o.looper.into_parts();
    let acts = [
        Act::Idle { id: 3, kept: true },
        Act::Idle { id: 4, kept: false },
        Act::Dispatch {
            number: 0,
            now: 2,
            route: Route::Handled,
        },
        Act::Idle { id: 3, kept: true },
    ];
    assert!(rt; journal.acts.as_slice() == acts.as_slice());
    Ok(())
}

#[test]
fn listeners_answer_what_is_watched(rt: HostRuntime) -> Result<(), Fail> {
    let alloc = rt.alloc();
    let mut o = set_up(alloc)?;
    let sources = nothing_watched(alloc);
    sources.lock(&rt).fds.set(5, 1, 2)?;
    sources.lock(&rt).fds.set(6, 1, 0)?;
    for fd in [5, 5, 6, 6] {
        sources.lock(&rt).fds.hand_in(fd, 3)?;
    }
    let mut d = Noter {
        calls: Vec::new(alloc),
    };
    o.looper
        .run_round(&rt, &o.queue, &o.pool, &sources, &mut d, 1);
    assert!(rt; sources.lock(&rt).fds.watched(5) == Some(6));
    assert!(rt; sources.lock(&rt).fds.watched(6).is_none());
    let calls = [
        Noted::Pulse { now: 1 },
        Noted::Listen {
            fd: 5,
            events: 1,
            listener: 2,
            mask: 2,
        },
        Noted::Listen {
            fd: 5,
            events: 2,
            listener: 2,
            mask: 2,
        },
        Noted::Listen {
            fd: 6,
            events: 1,
            listener: 0,
            mask: 0,
        },
    ];
    assert!(rt; d.calls.as_slice() == calls.as_slice());
    let (_, _, journal) = o.looper.into_parts();
    let acts = [
        Act::Event {
            fd: 5,
            events: 1,
            mask: 2,
        },
        Act::Event {
            fd: 5,
            events: 2,
            mask: 2,
        },
        Act::Event {
            fd: 6,
            events: 1,
            mask: 0,
        },
    ];
    assert!(rt; journal.acts.as_slice() == acts.as_slice());
    Ok(())
}

// What a message whose `what` is 1 makes: two calls and an act.
fn intercept(now: u64, told: usize) -> Noted {
    Noted::Intercept { what: 1, now, told }
}

fn handle(now: u64, told: usize) -> Noted {
    Noted::Handle { what: 1, now, told }
}

fn handled(number: u64, now: u64) -> Act {
    let route = Route::Handled;
    Act::Dispatch { number, now, route }
}

#[test]
fn a_loop_waits_by_a_clock(rt: HostRuntime) -> Result<(), Fail> {
    let alloc = rt.alloc();
    let mut o = set_up(alloc)?;
    assert!(rt; post(&rt, alloc, &o.queue, &mut o.poster, 1, None, 5) == Some((0, false)));
    assert!(rt; post(&rt, alloc, &o.queue, &mut o.poster, 1, None, 8) == Some((1, false)));
    let sources = nothing_watched(alloc);
    let clock = StepClock::new(1);
    let mut d = Noter {
        calls: Vec::new(alloc),
    };
    let by = ByClock {
        clock: &clock,
        start: 0,
        cap: Some(20),
    };
    let how = o
        .looper
        .run_loop(&rt, &o.queue, &o.pool, &sources, &mut d, &by);
    assert!(rt; how == Loop::Cap { now: 20 });
    let calls = [
        Noted::Pulse { now: 0 },
        Noted::Before { number: 0 },
        intercept(5, 0),
        handle(5, 0),
        Noted::Before { number: 1 },
        intercept(8, 1),
        handle(8, 1),
    ];
    assert!(rt; d.calls.as_slice() == calls.as_slice());
    o.poster.nudge(&rt, &o.queue);
    let by = ByClock {
        clock: &clock,
        start: 0,
        cap: None,
    };
    let how = o
        .looper
        .run_loop(&rt, &o.queue, &o.pool, &sources, &mut d, &by);
    assert!(rt; how == Loop::Nudged);
    let quit = o.poster.quit(&rt, &o.queue, true, 5);
    assert!(rt; matches!(quit, Quitting::Done(_)));
    let how = o
        .looper
        .run_loop(&rt, &o.queue, &o.pool, &sources, &mut d, &by);
    assert!(rt; how == Loop::Ended);
    let (_, _, journal) = o.looper.into_parts();
    assert!(rt; journal.acts.as_slice() == [handled(0, 5), handled(1, 8)].as_slice());
    Ok(())
}
