//! The forms of a handler, over a queue and a pool of fifty slots.
ghost use Rattle.std.specs.Prelude.{◌≡◌, IfOk};
ghost use Rattle.shared_queue.specs.Known.{IsOf};
ghost use Rattle.handler_post.specs.Ways.{IsReady};

use handler_post::{Erased, Handler, Quit, Sent, Way};
use loop_model::NoMemory;
use message_pool::{Pool, PoolClaim, PoolPass};
use queue_state::Nexted;
use shared_queue::{Poster, SharedQueue};
use std::alloc::Global;
use std::sync::Wait;
use std::test::Fail;

const HANDLER: Handler = Handler {
    id: 7,
    asynchronous: false,
};

// A queue in lockstep with one poster, and a pool with one pass.
#[derive(Drop)]
struct Opened {
    queue: SharedQueue<PoolClaim>,
    poster: Poster<PoolClaim>,
    pool: Pool,
    pass: PoolPass,
}

fn set_up(alloc: Global) -> Result<Opened, NoMemory>
    ensures { IfOk result (λ o. IsOf o.poster o.queue × (o.pass.home ≡ o.pool) × (o.queue.constants.home ≡ o.pool)) }
{
    let (pool, pass) = Pool::new(alloc)?;
    let (queue, mut posters) = SharedQueue::make(alloc, pool.home(), 0, false, true, 1)?;
    let poster = posters.pop().unwrap();
    Ok(Opened {
        queue,
        poster,
        pool,
        pass,
    })
}

fn send_many<R: Wait>(rt: &R, alloc: Global, way: &mut Way, count: u32)
    requires { IsReady way.old }
    ensures { IsReady way.new }
{
    for what in 0..count {
        HANDLER.send_at(rt, alloc, way, what, 0, None, 0);
    }
}

// The slots of so many messages from the head on, as a set with a bit for each, and how many have none.
fn slots_of<R: Wait>(rt: &R, way: &mut Way, count: u32) -> (u64, u32)
    requires { IsReady way.old }
{
    let mut slots: u64 = 0;
    let mut without: u32 = 0;
    for _ in 0..count {
        if let Nexted::Taken { node, .. } = way.poster.next(rt, way.queue, 0, false) {
            match node.item().slot() {
                Some(slot) => slots |= 1_u64.wrapping_shl(slot),
                None => without = without.wrapping_add(1),
            }
        }
    }
    (slots, without)
}

#[test]
fn the_fifty_first_post_has_no_slot(rt: HostRuntime) -> Result<(), Fail> {
    let mut opened = set_up(rt.alloc())?;
    let mut way = Way {
        queue: &opened.queue,
        poster: &mut opened.poster,
        pool: &opened.pool,
        pass: &mut opened.pass,
    };
    send_many(&rt, rt.alloc(), &mut way, 51);
    assert!(rt; slots_of(&rt, &mut way, 51) == ((1 << 50) - 1, 1));
    Ok(())
}

// How the post of this number is answered where no looper waits.
fn accepted(number: u64) -> Sent {
    Sent::Accepted {
        number,
        wake: false,
    }
}

#[test]
fn each_form_is_accepted(rt: HostRuntime) -> Result<(), Fail> {
    let alloc = rt.alloc();
    let mut opened = set_up(alloc)?;
    let mut way = Way {
        queue: &opened.queue,
        poster: &mut opened.poster,
        pool: &opened.pool,
        pass: &mut opened.pass,
    };
    let messages = [
        HANDLER.send_message(&rt, alloc, &mut way, 1, 2, None, 3),
        HANDLER.send_async_at(&rt, alloc, &mut way, 1, 2, 3),
        HANDLER.send_async_delayed(&rt, alloc, &mut way, 1, 2, 3, 4),
        HANDLER.send_delayed(&rt, alloc, &mut way, 1, 2, None, 3, 4),
        HANDLER.send_front(&rt, alloc, &mut way, 1, 2, None),
    ];
    assert!(rt;
        messages
            == [
                accepted(0),
                accepted(1),
                accepted(2),
                accepted(3),
                accepted(4)
            ]
    );
    let callbacks = [
        HANDLER.post_callback(&rt, alloc, &mut way, 5, 6),
        HANDLER.post_callback_delayed(&rt, alloc, &mut way, 5, 6, 7),
        HANDLER.post_at_front(&rt, alloc, &mut way, 6),
    ];
    assert!(rt; callbacks == [accepted(5), accepted(6), accepted(7)]);
    let erased = HANDLER.remove_all(&rt, &mut way, None);
    assert!(rt; erased == Erased::Removed { count: 8 });
    Ok(())
}

#[test]
fn what_is_removed_goes_by_its_object(rt: HostRuntime) -> Result<(), Fail> {
    let alloc = rt.alloc();
    let mut opened = set_up(alloc)?;
    let mut way = Way {
        queue: &opened.queue,
        poster: &mut opened.poster,
        pool: &opened.pool,
        pass: &mut opened.pass,
    };
    let sent = [
        HANDLER.send_at(&rt, alloc, &mut way, 3, 0, Some(9), 5),
        HANDLER.post_at_time(&rt, alloc, &mut way, 5, Some(9), 6),
        HANDLER.post_delayed_with(&rt, alloc, &mut way, 5, Some(8), 6, 1),
    ];
    assert!(rt; sent == [accepted(0), accepted(1), accepted(2)]);
    assert!(rt; HANDLER.has_messages(&rt, &mut way, 3, Some(9)));
    let erased = [
        HANDLER.remove_messages(&rt, &mut way, 3, None),
        HANDLER.remove_callbacks(&rt, &mut way, 5, Some(9)),
    ];
    assert!(rt; erased == [Erased::Removed { count: 1 }, Erased::Removed { count: 1 }]);
    let stand = [
        HANDLER.has_messages(&rt, &mut way, 3, None),
        HANDLER.has_callbacks(&rt, &mut way, 5, Some(9)),
        HANDLER.has_callbacks(&rt, &mut way, 5, Some(8)),
        HANDLER.has_any(&rt, &mut way, None),
    ];
    assert!(rt; stand == [false, false, true, true]);
    Ok(())
}

#[test]
fn a_barrier_is_removed_once_and_a_quit_is_done_once(rt: HostRuntime) -> Result<(), Fail> {
    let alloc = rt.alloc();
    let mut opened = set_up(alloc)?;
    let mut way = Way {
        queue: &opened.queue,
        poster: &mut opened.poster,
        pool: &opened.pool,
        pass: &mut opened.pass,
    };
    let token = way.post_barrier(&rt, alloc, 0)?;
    let removed = [
        way.remove_barrier(&rt, token)?,
        way.remove_barrier(&rt, token)?,
    ];
    assert!(rt; removed == [true, false]);
    let sent = way.send(&rt, alloc, &HANDLER.obtain(1, 2));
    assert!(rt; sent == accepted(0) && way.has(&rt, &HANDLER.messages(1)));
    let erased = way.remove(&rt, &HANDLER.all());
    assert!(rt; erased == Erased::Removed { count: 1 });
    let quits = [way.quit(&rt, true, 0), way.quit(&rt, true, 0)];
    assert!(rt; quits == [Quit::Done { dropped: 0 }, Quit::AlreadyQuit { place: 5 }]);
    let sent = way.send(&rt, alloc, &HANDLER.obtain(1, 2));
    assert!(rt; sent == Sent::Refused { place: 5 });
    Ok(())
}
