// Worked examples on one queue, as tables of what is asked and what is said. The plain queue of `loop_model` says the same.

ghost use Rattle.std.specs.Prelude.{◌≡◌, ◌<◌, true, false, IfOk};
ghost use Rattle.loop_model.specs.Answers.{Setting};

use crate::rows::{self, Example, PLAIN, Row, Said};
use fate_ledger::fates;
use loop_model::{Base, Call, Filter, Kind, NoMemory, Post, Reply, Segment, plain};
use message_list::new_node;
use message_slot::{Message, NoClaim};
use queue_state::{
    Advancing, BarrierGone, BarrierPosted, Halting, Nexted, Posted, QueueState, Quitting, Recorder,
    Taking, Unkept,
};
use std::alloc::Global;
use std::process::Abort;
use std::test::Fail;
use when_queue::MsgNode;

// The senders of the queues that are tried.
const THREAD: u32 = 0;

const LOOPER: u32 = 1;

const CONTROLLER: u32 = 2;

fn node(alloc: Global, message: Message<NoClaim>) -> Result<MsgNode<NoClaim>, NoMemory>
    ensures { IfOk result (λ n. n ≡ message) }
{
    match new_node(alloc, message) {
        Ok(node) => Ok(node),
        Err(_) => Err(NoMemory),
    }
}

/// What is said by this reply where the call wakes or not.
const fn said(reply: Reply, wake: bool) -> Said {
    if wake {
        Said::Wakes(reply)
    } else {
        Said::Quiet(reply)
    }
}

#[tactic(auto, using(queue_state::proofs::Stays::posts_stays))]
fn post<R: Recorder>(
    alloc: Global,
    state: &mut QueueState<NoClaim, R>,
    post: &Post,
) -> Result<Said, NoMemory>
    requires { 1 < state.old.setting.senders }
    ensures { state.new.setting ≡ state.old.setting }
{
    let mut message = Message::blank();
    message.set_post(post);
    match state.post(THREAD, node(alloc, message)?) {
        Posted::Accepted { number, wake } => Ok(said(Reply::Accepted { number }, wake)),
        Posted::Refused { place, node: _ } => Ok(Said::Quiet(Reply::Refused { place })),
        Posted::NoMemory(_) => Err(NoMemory),
    }
}

#[tactic(auto, using(queue_state::proofs::Stays::bars_stays))]
fn post_barrier(alloc: Global, state: &mut QueueState<NoClaim>, now: u64) -> Result<Said, NoMemory>
    requires { 1 < state.old.setting.senders }
    ensures { state.new.setting ≡ state.old.setting }
{
    match state.post_barrier(THREAD, now, node(alloc, Message::blank())?) {
        BarrierPosted::Token { token } => Ok(Said::Quiet(Reply::Token { token })),
        BarrierPosted::NoMemory(_) => Err(NoMemory),
    }
}

#[tactic(auto, using(queue_state::proofs::Stays::unbars_stays))]
fn remove_barrier(state: &mut QueueState<NoClaim>, token: u64) -> Result<Said, NoMemory>
    requires { 1 < state.old.setting.senders }
    ensures { state.new.setting ≡ state.old.setting }
{
    match state.remove_barrier(THREAD, token) {
        BarrierGone::Unbarriered { node: _, wake } => Ok(said(Reply::Unbarriered, wake)),
        BarrierGone::NotPosted => Ok(Said::Quiet(Reply::NotPosted)),
        BarrierGone::NoMemory => Err(NoMemory),
    }
}

#[tactic(auto, using(queue_state::proofs::Stays::takes_stays))]
fn remove(state: &mut QueueState<NoClaim>, filter: &Filter) -> Result<Said, NoMemory>
    requires { 1 < state.old.setting.senders }
    ensures { state.new.setting ≡ state.old.setting }
{
    match state.remove(THREAD, filter) {
        Taking::Removed(list) => {
            let count = list.len() as u64;
            Ok(Said::Quiet(Reply::Removed { count }))
        }
        Taking::NoMemory => Err(NoMemory),
    }
}

#[tactic(auto, using(queue_state::proofs::Stays::quits_stays))]
fn quit<R: Recorder>(
    state: &mut QueueState<NoClaim, R>,
    safe: bool,
    now: u64,
) -> Result<Said, NoMemory>
    requires { 1 < state.old.setting.senders }
    ensures { state.new.setting ≡ state.old.setting }
{
    match state.quit(THREAD, safe, now) {
        Quitting::Done(list) => Ok(Said::Quits(list.len())),
        Quitting::AlreadyQuit { place } => Ok(Said::Quiet(Reply::AlreadyQuit { place })),
        Quitting::NotAllowed => Ok(Said::Quiet(Reply::NotAllowed)),
        Quitting::NoMemory => Err(NoMemory),
    }
}

/// Looks for a message, where an idle turn is owed or not.
#[tactic(auto, using(queue_state::proofs::Stays::looks_stays))]
fn look<R: Recorder>(state: &mut QueueState<NoClaim, R>, now: u64, idle: bool) -> Said
    requires { 1 < state.old.setting.senders }
    ensures { state.new.setting ≡ state.old.setting }
{
    match state.next(LOOPER, now, idle) {
        Nexted::Taken { number, .. } => Said::Quiet(Reply::Dispatched { number }),
        Nexted::Idle => Said::Idle,
        Nexted::Wait { until } => Said::Waits(until),
        Nexted::End(list) => Said::Ends(list.len()),
        Nexted::Over => Said::Over,
    }
}

#[tactic(auto, using(queue_state::proofs::Stays::advances_stays))]
fn advance(state: &mut QueueState<NoClaim>, now: u64) -> Result<Said, NoMemory>
    requires senders { state.old.setting.senders ≡ 3 }
    requires lockstep { state.old.setting.lockstep ≡ true }
    ensures { state.new.setting ≡ state.old.setting }
{
    match state.advance(CONTROLLER, now) {
        Advancing::Advanced => Ok(Said::Quiet(Reply::Advanced)),
        Advancing::Over => Ok(Said::Over),
        Advancing::Reached { time } => Ok(Said::Reached(time)),
        Advancing::NotDrained { number } => Ok(Said::NotDrained(number)),
        Advancing::NoMemory => Err(NoMemory),
    }
}

#[tactic(auto, using(queue_state::proofs::Stays::halts_stays))]
fn halt(state: &mut QueueState<NoClaim>, now: u64) -> Said
    requires senders { state.old.setting.senders ≡ 3 }
    requires main { state.old.setting.main ≡ true }
    ensures { state.new.setting ≡ state.old.setting }
{
    match state.halt(CONTROLLER, now) {
        Halting::Halted => Said::Quiet(Reply::Halted),
        Halting::Over => Said::Over,
        Halting::NotDrained { number } => Said::NotDrained(number),
    }
}

#[tactic(auto, using(queue_state::proofs::Stays::seals_stays))]
fn seal(state: &mut QueueState<NoClaim>) -> Result<Segment, NoMemory>
    ensures { state.new.setting ≡ state.old.setting }
{
    state.seal()
}

/// Makes the call on a queue that is main or not, and in lockstep or not; a look with an idle turn that is owed or not.
fn act(
    alloc: Global,
    state: &mut QueueState<NoClaim>,
    main: bool,
    lockstep: bool,
    call: &Call,
    idle: bool,
) -> Result<Said, NoMemory>
    requires { state.old.setting ≡ record { main = main; lockstep = lockstep; senders = 3 } }
    ensures { state.new.setting ≡ state.old.setting }
{
    match call {
        Call::Post(message) => post(alloc, state, message),
        Call::Barrier { now } => post_barrier(alloc, state, *now),
        Call::Unbarrier { token } => remove_barrier(state, *token),
        Call::Remove(filter) => remove(state, filter),
        Call::Quit { safe, now } => quit(state, *safe, *now),
        Call::Next { now } => Ok(look(state, *now, idle)),
        Call::Advance { now } if lockstep => advance(state, *now),
        Call::Halt { now } if main => Ok(halt(state, *now)),
        _ => Ok(Said::Over),
    }
}

/// Tries the example on a new queue, and on the plain one.
fn agree(rt: &impl Abort, alloc: Global, example: &Example) -> Result<(), NoMemory> {
    let main = example.main;
    let lockstep = example.lockstep;
    let mut state = QueueState::new(alloc, (), main, lockstep, 3)?;
    let mut blocked = false;
    for row in example.rows {
        let (ask, wanted) = *row;
        let call = ask.call();
        let plain = plain::answer(alloc, main, lockstep, state.entries(), &call)?;
        let came = act(alloc, &mut state, main, lockstep, &call, ask.is_idling())?;
        assert!(rt;
            came == wanted && plain == wanted.reply(),
            "said {came:?} and not {wanted:?}"
        );
        if let [before @ .., last] = state.entries() {
            let woken = plain::wakes(alloc, blocked, before, last)?;
            assert!(rt; plain.is_none() || woken == wanted.wakes());
        }
        if let Call::Next { .. } = call {
            blocked = matches!(came, Said::Waits(_));
        }
    }
    let plain = plain::fates(alloc, state.entries())?;
    assert!(rt; plain.as_slice() == example.fates);
    Ok(())
}

/// Tries the example on a new queue that is sealed behind each call. Its parts together have the same fates.
fn agree_sealed(rt: &impl Abort, alloc: Global, example: &Example) -> Result<(), NoMemory> {
    let main = example.main;
    let lockstep = example.lockstep;
    let mut state = QueueState::new(alloc, (), main, lockstep, 3)?;
    let mut parts = Vec::new(alloc);
    for row in example.rows {
        let (ask, wanted) = *row;
        let came = act(
            alloc,
            &mut state,
            main,
            lockstep,
            &ask.call(),
            ask.is_idling(),
        )?;
        let part = seal(&mut state)?;
        let kept = part.entries.len() == usize::from(wanted.reply().is_some());
        assert!(rt; came == wanted && kept && state.entries().is_empty());
        parts.push(part)?;
    }
    let found = fates(alloc, parts.as_slice())?;
    assert!(rt; found.list.as_slice() == example.fates);
    Ok(())
}

#[test]
fn says_the_same_as_the_plain_queue_and_where_it_is_sealed(rt: HostRuntime) -> Result<(), Fail> {
    let alloc = rt.alloc();
    for example in &rows::EXAMPLES {
        agree(&rt, alloc, example)?;
        agree_sealed(&rt, alloc, example)?;
    }
    Ok(())
}

/// Takes the rows on a queue in free time, and hands out what they record.
fn part_of(
    rt: &impl Abort,
    alloc: Global,
    state: &mut QueueState<NoClaim>,
    rows: &[Row],
) -> Result<Segment, NoMemory>
    requires { state.old.setting ≡ record { main = false; lockstep = false; senders = 3 } }
    ensures { state.new.setting ≡ state.old.setting }
{
    for row in rows {
        let (ask, wanted) = *row;
        let came = act(alloc, state, false, false, &ask.call(), ask.is_idling())?;
        assert!(rt; came == wanted);
    }
    seal(state)
}

/// Whether the base has these numbers, and none that quit.
fn has_counts(base: &Base, length: u64, time: u64, made: [u64; 3]) -> bool {
    base.length == length
        && base.time == time
        && base.accepted == 3
        && base.barriers == 1
        && base.made.as_slice() == made.as_slice()
        && base.quit.is_none()
}

#[test]
fn goes_on_from_what_it_sealed(rt: HostRuntime) -> Result<(), Fail> {
    let alloc = rt.alloc();
    let mut state = QueueState::new(alloc, (), false, false, 3)?;
    let first = part_of(&rt, alloc, &mut state, &rows::FILLED)?;
    let live = plain::live_in_order(alloc, first.entries.as_slice())?;
    assert!(rt; live.as_slice() == rows::LEFT.as_slice());
    let base = state.base();
    let counts = has_counts(base, 4, 5, [4, 0, 0]);
    assert!(rt; counts && base.items.as_slice() == rows::LEFT.as_slice());
    let rest = part_of(&rt, alloc, &mut state, &rows::EMPTIED)?;
    let base = state.base();
    let counts = has_counts(base, 8, 10, [5, 3, 0]);
    assert!(rt; counts && base.items.is_empty());
    let last = part_of(&rt, alloc, &mut state, &rows::QUIT)?;
    assert!(rt; first.base.length == 0 && rest.base.length == 4 && last.base.length == 8);
    Ok(())
}

/// One more message, posted and taken.
fn pass_one<R: Recorder>(
    alloc: Global,
    state: &mut QueueState<NoClaim, R>,
    when: u64,
) -> Result<(), NoMemory>
    requires { 1 < state.old.setting.senders }
    ensures { state.new.setting ≡ state.old.setting }
{
    post(alloc, state, &Post { when, ..PLAIN })?;
    look(state, when, false);
    Ok(())
}

/// What came of messages that a queue has passed on: the greatest room that its entries took, and the length of its history.
#[derive(Drop)]
struct Passed {
    room: usize,
    length: u64,
}

/// Posts and takes so many messages, one by one, where the queue hands out so many entries at a time.
fn pass_all(alloc: Global, count: u64, many: usize) -> Result<Passed, NoMemory> {
    let mut state = QueueState::new(alloc, (), false, false, 2)?;
    let mut room = 0;
    for when in 0..count {
        pass_one(alloc, &mut state, when)?;
        room = state.room().max(room);
        if state.entries().len() >= many {
            seal(&mut state)?;
        }
    }
    let since = state.entries().len() as u64;
    let length = state.base().length.saturating_add(since);
    Ok(Passed { room, length })
}

/// A queue that hands its entries out keeps room for those alone; one that doesn't, for all of its history. Each message makes two.
#[test]
fn keeps_no_more_than_it_must(rt: HostRuntime) -> Result<(), Fail> {
    let sealed = pass_all(rt.alloc(), 1_000_000, 4_096)?;
    let whole = pass_all(rt.alloc(), 10_000, 30_000)?;
    assert!(rt; sealed.length == 2_000_000 && sealed.room <= 8_192);
    assert!(rt; whole.length == 20_000 && whole.room >= 8_192);
    Ok(())
}

/// What a queue says that keeps no record: a post, a safe quit, and a post behind it, whose refusal names the place of the quit; and how
/// many items it leaves.
fn passes_unkept(alloc: Global) -> Result<([Said; 3], usize), NoMemory> {
    let mut state: QueueState<NoClaim, Unkept> = QueueState::new(alloc, (), false, false, 2)?;
    pass_one(alloc, &mut state, 1)?;
    pass_one(alloc, &mut state, 2)?;
    let accepted = post(alloc, &mut state, &Post { when: 5, ..PLAIN })?;
    let quits = quit(&mut state, true, 9)?;
    let refused = post(alloc, &mut state, &Post { when: 5, ..PLAIN })?;
    let left = state.into_items();
    Ok(([accepted, quits, refused], left.len()))
}

/// Whether a message of handler 0 is there.
fn has_any(state: &QueueState<NoClaim>) -> bool {
    state.has(&Filter {
        handler: 0,
        kind: Kind::All,
        obj: None,
    })
}

#[test]
fn tells_what_it_keeps(rt: HostRuntime) -> Result<(), Fail> {
    let alloc = rt.alloc();
    let mut state = QueueState::new(alloc, (), false, true, 3)?;
    assert!(rt; !has_any(&state) && state.time() == 0 && state.room() >= 2);
    post(alloc, &mut state, &Post { when: 5, ..PLAIN })?;
    assert!(rt; has_any(&state) && state.room() >= 3 && state.len() == 1);
    advance(&mut state, 5)?;
    assert!(rt; state.time() == 5 && state.entries().len() == 2);
    let (part, left) = state.into_parts();
    assert!(rt; part.base.length == 0 && part.entries.len() == 2 && left.len() == 1);
    let without = [
        Said::Quiet(Reply::Accepted { number: 2 }),
        Said::Quits(0),
        Said::Quiet(Reply::Refused { place: 5 }),
    ];
    assert!(rt; passes_unkept(alloc)? == (without, 1), "without a record");
    Ok(())
}
