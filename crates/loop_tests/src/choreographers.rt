//! A choreographer over small hosts and clients.
ghost use Rattle.std.specs.Prelude.{◌≡◌, ◌≢◌, ◌==◌, ◌+◌, ◌<◌, ℕ, [], Some, None, IfOk, OnOk, IfSome, IsTrue, true};
ghost use Rattle.std.specs.Thread.{IsSync};
ghost use mathlib.Core.List.{IsPrefix};
ghost use Rattle.frame_phases.specs.Frames.{lawful};
ghost use Rattle.choreographer.specs.Known.{IsPassOf};
ghost use Rattle.choreographer.specs.Ends.{HasHandedOut, entries_in};

use choreographer::{
    Choreographer, ClientRan, Constants, DUE_MESSAGE, FRAME_MESSAGE, FrameClient, FrameHost,
    FramePass, Framed, HostSent, Placed, Pulse, Sending, keep_sent,
};
use frame_phases::{Callback, FrameEntry, FrameRecord};
use loop_model::{NoMemory, Sequence};
use std::alloc::Global;
use std::process::Abort;
use std::sync::Wait;
use std::test::Fail;
use std::thread;
use std::thread::Threads;

/// A host whose clock stands still.
#[derive(Drop)]
struct StillHost {
    now: u64,
    sent: Vec<Sending>,
}

impl FrameHost for StillHost {
    ghost Ready = { λ h. IsTrue true };

    ghost Origin = { ℕ };

    ghost origin = { λ h. h.now };

    ghost is_moment = { λ h n. n == h.now };

    ghost sends = { λ h. h.sent.items };

    ghost Reads = { λ h n k. k ≡ h };

    fn now_nanos(&mut self) -> u64 {
        self.now
    }

    fn send(&mut self, what: u32, arg: u32, when: u64) -> HostSent {
        keep_sent(&mut self.sent, what, arg, when)
    }
}

/// A host whose clock stands at this moment, in nanoseconds.
fn still(alloc: Global, now: u64) -> StillHost
    ensures { (result.now ≡ now) × (result.sent.items ≡ []) }
{
    StillHost {
        now,
        sent: Vec::new(alloc),
    }
}

/// A callback without a token.
const fn callback(number: u64, phase: u32, due: u64, id: u64) -> Callback {
    Callback {
        number,
        phase,
        due,
        id,
        token: None,
    }
}

/// A message that a host took.
const fn taken(what: u32, arg: u32, when: u64) -> Sending {
    Sending {
        what,
        arg,
        when,
        answer: HostSent::Accepted,
    }
}

/// A choreographer with a pulse each 10 milliseconds, and its two passes.
fn with_two_passes(alloc: Global) -> Result<(Choreographer, FramePass, FramePass), NoMemory>
    ensures passes { IfOk result (λ r. IsPassOf r.1 r.0 × IsPassOf r.2 r.0) }
    ensures phases { IfOk result (λ r. r.0.constants.phases ≡ 4) }
    ensures pulses { IfOk result (λ r. r.0.constants.pulses ≡ None) }
{
    let (c, mut passes) = Choreographer::make(alloc, 0, 10_000_000, 4, 2)?;
    let second = passes.pop().unwrap();
    let first = passes.pop().unwrap();
    Ok((c, first, second))
}

/// A client whose callback 5 posts 6 for its own phase and 7 for the next one, by a pass of its own.
#[derive(Drop)]
struct Relay<'a, R: Wait> {
    rt: &'a R,
    pass: FramePass,
    ran: Vec<(Callback, u64)>,
}

impl<'a, R: Wait> FrameClient<StillHost> for Relay<'a, R> {
    ghost Serves = { λ l c. IsPassOf l.pass c × (2 < c.constants.phases) };

    ghost Origin = { ℕ };

    ghost origin = { λ l. 0 };

    ghost ran = { λ l. Some l.ran.items };

    ghost Meets = { λ l h. IsTrue true };

    fn run(
        &mut self,
        c: &Choreographer,
        host: &mut StillHost,
        callback: &Callback,
        time: u64,
    ) -> ClientRan {
        if self.ran.push((*callback, time)).is_err() {
            return ClientRan::NoMemory;
        }
        if callback.id == 5 {
            c.post_callback(self.rt, &mut self.pass, host, 1, 6, None, 0);
            c.post_callback(self.rt, &mut self.pass, host, 2, 7, None, 0);
        }
        ClientRan::Done
    }

    ghost stays = { λ l h now k reads meets. meets };
}

// Posts 5 and 9, which is due in 15 milliseconds, and 8, which is removed again.
fn post_some<R: Wait + Abort>(rt: &R, c: &Choreographer, pass: &mut FramePass, host: &mut StillHost)
    requires { IsPassOf pass.old c.now × (2 < c.now.constants.phases) }
    ensures { IsPassOf pass.new c.now }
{
    let due = c.post_callback(rt, pass, host, 1, 5, None, 0);
    let again = c.post_callback(rt, pass, host, 1, 8, None, 0);
    let later = c.post_callback(rt, pass, host, 1, 9, None, 15);
    let removed = c.remove_callbacks(rt, pass, 1, 8, None);
    assert!(rt; due == Placed::Asked && again == Placed::Already && later == Placed::Sent);
    assert!(rt; removed == Ok(1) && host.sent.as_slice() == [taken(DUE_MESSAGE, 1, 35)].as_slice());
}

// Delivers the pulse that came by the host's moment, of a choreographer that names no pass for the pulses.
fn pulse_now<R: Wait>(
    rt: &R,
    c: &Choreographer,
    pass: &mut FramePass,
    host: &mut StillHost,
) -> Option<Pulse>
    requires pass { IsPassOf pass.old c.now }
    requires pulses { c.now.constants.pulses ≡ None }
    ensures { IsPassOf pass.new c.now }
{
    c.on_vsync(rt, pass, host)
}

// Delivers the pulse that came by this moment, and begins a frame.
fn frame_at<R: Wait>(
    rt: &R,
    c: &Choreographer,
    pass: &mut FramePass,
    host: &mut StillHost,
    client: &mut Relay<R>,
    now: u64,
) -> Framed
    requires passes { IsPassOf pass.old c.now × IsPassOf client.old.pass c.now × (2 < c.now.constants.phases) }
    requires pulses { c.now.constants.pulses ≡ None }
    ensures { IsPassOf pass.new c.now × IsPassOf client.new.pass c.now }
{
    host.now = now;
    pulse_now(rt, c, pass, host);
    c.do_frame(rt, pass, host, client)
}

#[test]
fn a_callback_for_a_later_phase_runs_at_once_and_one_for_its_own_waits(
    rt: HostRuntime,
) -> Result<(), Fail> {
    let (c, mut pass, other) = with_two_passes(rt.alloc())?;
    let mut host = still(rt.alloc(), 20_000_000);
    let mut client = Relay {
        rt: &rt,
        pass: other,
        ran: Vec::new(rt.alloc()),
    };
    post_some(&rt, &c, &mut pass, &mut host);
    let framed = frame_at(&rt, &c, &mut pass, &mut host, &mut client, 30_000_000);
    let first = [
        (callback(0, 1, 20, 5), 30_000_000),
        (callback(4, 2, 30, 7), 30_000_000),
    ];
    assert!(rt; framed == Framed::Done && client.ran.as_slice() == first.as_slice());
    let framed = frame_at(&rt, &c, &mut pass, &mut host, &mut client, 40_000_000);
    let all = [
        first[0],
        first[1],
        (callback(3, 1, 30, 6), 40_000_000),
        (callback(2, 1, 35, 9), 40_000_000),
    ];
    assert!(rt; framed == Framed::Done && client.ran.as_slice() == all.as_slice());
    let sent = [
        taken(DUE_MESSAGE, 1, 35),
        taken(FRAME_MESSAGE, 0, 30),
        taken(FRAME_MESSAGE, 0, 40),
    ];
    assert!(rt; host.sent.as_slice() == sent.as_slice());
    let framed = frame_at(&rt, &c, &mut pass, &mut host, &mut client, 50_000_000);
    assert!(rt; framed == Framed::Unscheduled);
    Ok(())
}

/// A host whose clock is 10 milliseconds later at each reading, and that has no memory for a message.
#[derive(Drop)]
struct HurryingHost {
    now: u64,
}

impl FrameHost for HurryingHost {
    ghost Ready = { λ h. IsTrue true };

    ghost Origin = { ℕ };

    ghost origin = { λ h. 0 };

    ghost is_moment = { λ h n. true };

    ghost sends = { λ h. [] };

    ghost Reads = { λ h n k. IsTrue true };

    fn now_nanos(&mut self) -> u64 {
        self.now = self.now.saturating_add(10_000_000);
        self.now
    }

    fn send(&mut self, what: u32, arg: u32, when: u64) -> HostSent {
        HostSent::NoMemory
    }
}

/// A client that keeps what ran.
#[derive(Drop)]
struct Keeper {
    ran: Vec<(Callback, u64)>,
}

impl FrameClient<HurryingHost> for Keeper {
    ghost Serves = { λ l c. IsTrue true };

    ghost Origin = { ℕ };

    ghost origin = { λ l. 0 };

    ghost ran = { λ l. Some l.ran.items };

    ghost Meets = { λ l h. IsTrue true };

    fn run(
        &mut self,
        c: &Choreographer,
        host: &mut HurryingHost,
        callback: &Callback,
        time: u64,
    ) -> ClientRan {
        if self.ran.push((*callback, time)).is_err() {
            return ClientRan::NoMemory;
        }
        ClientRan::Done
    }

    ghost stays = { λ l h now k reads meets. meets };
}

#[test]
#[tactic(auto, using(choreographer::proofs::Pulsing::any_begins))]
fn each_phase_reads_the_clock_and_a_late_commit_moves_the_time_on(
    rt: HostRuntime,
) -> Result<(), Fail> {
    let (c, mut pass, _) = with_two_passes(rt.alloc())?;
    let mut host = HurryingHost { now: 0 };
    let mut client = Keeper {
        ran: Vec::new(rt.alloc()),
    };
    let placed = c.post_callback(&rt, &mut pass, &mut host, 3, 5, None, 0);
    assert!(rt; placed == Placed::Asked);
    let framed = c.do_frame(&rt, &mut pass, &mut host, &mut client);
    assert!(rt; framed == Framed::Done);
    assert!(rt; client.ran.as_slice() == [(callback(0, 3, 10, 5), 50_000_000)].as_slice());
    Ok(())
}

/// A choreographer with a pulse each 10 milliseconds, the pass that alone delivers them, and two others.
fn with_its_pulses(
    alloc: Global,
) -> Result<(Choreographer, FramePass, FramePass, FramePass), NoMemory>
    ensures passes { IfOk result (λ r. IsPassOf r.1 r.0 × IsPassOf r.2 r.0 × IsPassOf r.3 r.0) }
    ensures phases { IfOk result (λ r. r.0.constants.phases ≡ 4) }
    ensures pulses { IfOk result (λ r. r.0.constants.pulses ≡ Some r.1.number) }
{
    let constants = Constants {
        looper: 0,
        interval: 10_000_000,
        phases: 4,
        passes: 3,
        seals: false,
        pulses: Some(0),
    };
    let (c, mut passes) = Choreographer::make_by(alloc, constants)?;
    let third = passes.pop().unwrap();
    let second = passes.pop().unwrap();
    let first = passes.pop().unwrap();
    Ok((c, first, second, third))
}

// Delivers the pulse that came by the host's moment and runs its frame, which is always scheduled. It answers the stamp, and how the
// frame went.
fn pulse_and_frame<R: Wait>(
    rt: &R,
    c: &Choreographer,
    pass: &mut FramePass,
    host: &mut StillHost,
    client: &mut Relay<R>,
) -> Option<(u64, Framed)>
    requires passes { IsPassOf pass.old c.now × IsPassOf client.old.pass c.now × (2 < c.now.constants.phases) }
    requires pulses { c.now.constants.pulses ≡ Some pass.old.number }
    ensures pass { IsPassOf pass.new c.now × (pass.new.number ≡ pass.old.number) }
    ensures client { IsPassOf client.new.pass c.now }
    ensures frame { IfSome result (λ r. r.1 ≢ Framed.Unscheduled) }
{
    let Some(pulse) = c.on_vsync(rt, pass, host) else {
        return None;
    };
    let framed = c.do_frame(rt, pass, host, client);
    Some((pulse.stamp, framed))
}

/// The moments of a posting and of the look for a pulse behind it; what the posting answers, and the stamp of the pulse that came, with
/// how its frame went.
type Look = (u64, u64, Placed, Option<(u64, Framed)>);

// One pass posts, and behind that the pass that alone delivers pulses looks for one, at the moments of each row.
fn look_at_each<R: Wait + Abort>(
    rt: &R,
    c: &Choreographer,
    pass: &mut FramePass,
    poster: &mut FramePass,
    client: &mut Relay<R>,
    rows: &[Look],
)
    requires passes { IsPassOf pass.old c.now × IsPassOf poster.old c.now × IsPassOf client.old.pass c.now × (2 < c.now.constants.phases) }
    requires pulses { c.now.constants.pulses ≡ Some pass.old.number }
{
    let mut host = still(*client.ran.allocator(), 0);
    for row in rows {
        let (posted, looked, wanted, came) = *row;
        host.now = posted;
        let placed = c.post_callback(rt, poster, &mut host, 1, looked, None, 0);
        host.now = looked;
        let pulse = pulse_and_frame(rt, c, pass, &mut host, client);
        assert!(rt; placed == wanted && pulse == came, "at {looked}");
    }
}

#[test]
fn each_pulse_has_its_frame_before_the_next_one(rt: HostRuntime) -> Result<(), Fail> {
    let (c, mut pass, other, mut poster) = with_its_pulses(rt.alloc())?;
    let mut client = Relay {
        rt: &rt,
        pass: other,
        ran: Vec::new(rt.alloc()),
    };
    let back = Some((40_000_000, Framed::Backwards { last: 70_000_000 }));
    let rows = [
        (25_000_000, 25_000_000, Placed::Asked, None),
        (
            26_000_000,
            78_000_000,
            Placed::Already,
            Some((30_000_000, Framed::Done)),
        ),
        (31_000_000, 40_000_000, Placed::Asked, back),
        (45_000_000, 45_000_000, Placed::Already, None),
        (
            50_000_000,
            80_000_000,
            Placed::Already,
            Some((50_000_000, Framed::Done)),
        ),
        (
            80_000_000,
            95_000_000,
            Placed::Asked,
            Some((90_000_000, Framed::Done)),
        ),
    ];
    look_at_each(
        &rt,
        &c,
        &mut pass,
        &mut poster,
        &mut client,
        rows.as_slice(),
    );
    let ran = [
        (callback(0, 1, 25, 25_000_000), 70_000_000),
        (callback(1, 1, 26, 78_000_000), 70_000_000),
        (callback(2, 1, 31, 40_000_000), 80_000_000),
        (callback(3, 1, 45, 45_000_000), 80_000_000),
        (callback(4, 1, 50, 80_000_000), 80_000_000),
        (callback(5, 1, 80, 95_000_000), 90_000_000),
    ];
    assert!(rt; client.ran.as_slice() == ran.as_slice());
    Ok(())
}

// Removes callbacks, one turn each, or until there is no memory.
fn remove_some<R: Wait>(rt: &R, c: &Choreographer, pass: &mut FramePass, count: u32)
    requires { IsPassOf pass.old c.now × (0 < c.now.constants.phases) }
    ensures { IsPassOf pass.new c.now × (pass.new.number ≡ pass.old.number) }
{
    for _ in 0..count {
        if c.remove_callbacks(rt, pass, 0, 7, None).is_err() {
            return;
        }
    }
}

// Each pass in a thread of its own.
fn record_of_many<R: Threads + Wait + Sync>(
    rt: &R,
    alloc: Global,
    passes: u32,
    count: u32,
) -> Result<FrameRecord, NoMemory>
    requires { 0 < passes }
    ensures { IfOk result (λ r. IsTrue (lawful r.interval r.phases r.entries)) }
{
    let (choreographer, mut all) = Choreographer::make(alloc, 0, 10, 4, passes)?;
    thread::for_each_mut(
        rt,
        all.as_mut_slice(),
        passes as usize,
        &|_, pass: &mut FramePass|
            requires { IsSync R.row × IsPassOf pass.old choreographer × (0 < choreographer.constants.phases) }
            ensures { IsPassOf pass.new choreographer × (pass.new.number ≡ pass.old.number) }
        { remove_some(rt, &choreographer, pass, count) },
    );
    Ok(choreographer.into_kept(all))
}

#[test]
fn eight_threads_take_turns(rt: HostRuntime) -> Result<(), Fail> {
    let Ok(record) = record_of_many(&rt, rt.alloc(), 8, 500) else {
        panic!(rt; "no memory")
    };
    let removed = FrameEntry::Removed {
        phase: 0,
        id: 7,
        token: None,
        count: 0,
    };
    assert!(rt; record.entries.len() == 4000);
    assert!(rt; record.entries.as_slice().iter().all(|e| *e == removed));
    Ok(())
}

// The last pass removes callbacks, and hands out what was recorded since its last part.
fn seal_one<R: Wait>(
    rt: &R,
    c: &Choreographer,
    last: &mut FramePass,
    parts: &mut Vec<Sequence<FrameEntry>>,
) -> Result<(), NoMemory>
    requires pass { IsPassOf last.old c.now × (last.old.number + 1 ≡ c.now.constants.passes) × (1 < c.now.constants.phases) }
    requires seals { c.now.constants.seals ≡ true }
    requires parts { HasHandedOut last.old (entries_in parts.old.items) }
    ensures pass { IsPassOf last.new c.now × (last.new.number ≡ last.old.number) }
    ensures parts { OnOk result (HasHandedOut last.new (entries_in parts.new.items)) }
{
    c.remove_callbacks(rt, last, 1, 8, None)?;
    let part = c.seal(rt, last)?;
    parts.push(part)?;
    Ok(())
}

// Two passes by turns, of which the last hears the other and hands out.
#[tactic(auto, using(crate::proofs::Passes::hears_same))]
fn seal_some<R: Wait>(
    rt: &R,
    c: &Choreographer,
    first: &mut FramePass,
    last: &mut FramePass,
    parts: &mut Vec<Sequence<FrameEntry>>,
    count: u32,
) -> Result<(), NoMemory>
    requires first { IsPassOf first.old c.now }
    requires last { IsPassOf last.old c.now × (last.old.number + 1 ≡ c.now.constants.passes) × (1 < c.now.constants.phases) }
    requires seals { c.now.constants.seals ≡ true }
    requires parts { HasHandedOut last.old (entries_in parts.old.items) }
    ensures first { IsPassOf first.new c.now × (first.new.number ≡ first.old.number) }
    ensures last { IsPassOf last.new c.now × (last.new.number ≡ last.old.number) }
    ensures parts { OnOk result (HasHandedOut last.new (entries_in parts.new.items)) }
    ensures heard { OnOk result (IsPrefix first.new.view.heard last.new.view.heard) }
{
    for _ in 0..count {
        c.remove_callbacks(rt, first, 0, 7, None)?;
        last.hear(c, first);
        seal_one(rt, c, last, parts)?;
    }
    c.remove_callbacks(rt, first, 0, 7, None)?;
    last.hear(c, first);
    Ok(())
}

// The record of a choreographer whose two passes recorded by turns, and which handed out so many parts.
fn record_in_parts<R: Wait>(rt: &R, alloc: Global, count: u32) -> Result<FrameRecord, NoMemory>
    ensures { IfOk result (λ r. IsTrue (lawful r.interval r.phases r.entries)) }
{
    let (c, mut passes) = Choreographer::make_sealing(alloc, 0, 10, 4, 2)?;
    let last = passes.pop().unwrap();
    let first = passes.pop().unwrap();
    record_of_two(rt, alloc, c, passes, first, last, count)
}

// The same of these two passes, which are all.
fn record_of_two<R: Wait>(
    rt: &R,
    alloc: Global,
    c: Choreographer,
    mut passes: Vec<FramePass>,
    mut first: FramePass,
    mut last: FramePass,
    count: u32,
) -> Result<FrameRecord, NoMemory>
    requires two { (c.constants.passes ≡ 2) × (c.constants.seals ≡ true) × (1 < c.constants.phases) }
    requires none { passes.items ≡ [] }
    requires first { IsPassOf first c × (first.number ≡ 0) }
    requires last { IsPassOf last c × (last.number ≡ 1) × (last.view.handed ≡ 0) }
    ensures { IfOk result (λ r. IsTrue (lawful r.interval r.phases r.entries)) }
{
    let mut parts = Vec::new(alloc);
    seal_some(rt, &c, &mut first, &mut last, &mut parts, count)?;
    passes.push(first)?;
    passes.push(last)?;
    c.into_whole(passes, parts)
}

/// What an entry tells of a removal: its phase.
fn removed_from(entry: &FrameEntry) -> Option<u32> {
    match entry {
        FrameEntry::Removed { phase, .. } => Some(*phase),
        _ => None,
    }
}

#[test]
fn parts_and_the_rest_are_the_record(rt: HostRuntime) -> Result<(), Fail> {
    for count in [0, 1, 3] {
        let Ok(record) = record_in_parts(&rt, rt.alloc(), count) else {
            panic!(rt; "no memory")
        };
        let phases = [0, 1, 0, 1, 0, 1, 0];
        let entries = record.entries.as_slice();
        let all = &phases[phases.len() - 2 * count as usize - 1..];
        assert!(rt; entries.len() == all.len());
        assert!(rt;
            entries
                .iter()
                .zip(all.iter())
                .all(|(entry, phase)| removed_from(entry) == Some(*phase))
        );
    }
    Ok(())
}
