//! What a message loop does next, and for how long it may wait, for C: `loop_next.h` says how each call is made, and looks at the
//! pointer before one. Nothing here keeps a state, takes memory, waits or reads a clock.
#![tactic(auto)]

ghost use Rattle.std.specs.Prelude.{◌≡◌, ◌≢◌, ◌==◌, ◌-◌, pos, negsuc, if◌then◌else◌};
ghost use Rattle.loop_next_c.specs.Actions.{next_action, afterwards};
ghost use Rattle.loop_next_c.specs.Waits.{never, until, milliseconds};

mod action;
pub mod laws;
mod situation;

pub use action::Action;
pub use situation::Situation;

/// The moment that never comes.
const NEVER: u64 = u64::MAX;

const NANOS_PER_MILLI: u64 = 1_000_000;

/// The most milliseconds of one wait.
const LONGEST: u64 = i32::MAX as u64;

/// What a message loop does next: the first row of a table that holds. Where none does it waits until the earlier of the time that
/// the queue waits for and the pulse that is asked for; each other action has 0 there (after AOSP's `MessageQueue.next` and
/// `Looper::pollInner`; the place of frames is this project's profile). It leaves the situation for the next call: a look stands for
/// one action, so the queue wasn't looked at, and an idle turn is owed after a message until one ran.
#[unsafe(no_mangle)]
pub extern "C" fn mloop_core_next(situation: &mut Situation) -> Action
    ensures kind { result.kind ≡ next_action situation.old }
    ensures until { result.until ≡ until (next_action situation.old) situation.old }
    ensures left { situation.new ≡ afterwards situation.old }
{
    let kind = situation.kind();
    let until = situation.until(kind);
    situation.go_on(kind);
    Action { until, kind }
}

/// How many nanoseconds are left at the moment `now` until the moment `until`: 0 where that has come, and of `u64::MAX`, which never
/// comes, that very number.
#[unsafe(no_mangle)]
pub extern "C" fn mloop_core_nanoseconds(until: u64, now: u64) -> u64
    ensures { result ≡ (if until == never then never else until - now) }
{
    if until == NEVER {
        return NEVER;
    }
    until.saturating_sub(now)
}

/// The same in milliseconds, rounded up, so that a wait of so many ends at that moment or in the millisecond after it, and never
/// before it. At most `i32::MAX`, 24 days; -1 without limit, as `poll` takes it.
#[unsafe(no_mangle)]
pub extern "C" fn mloop_core_milliseconds(until: u64, now: u64) -> i32
    ensures never { until ≡ never → result ≡ negsuc 0 }
    ensures rounded_up { until ≢ never → result ≡ pos (milliseconds (until - now)) }
{
    if until == NEVER {
        return -1;
    }
    let left = until.saturating_sub(now).div_ceil(NANOS_PER_MILLI);
    left.min(LONGEST) as i32
}

/// The number of this interface, which changes where a struct of it does.
#[unsafe(no_mangle)]
pub extern "C" fn mloop_core_next_interface() -> u32
    ensures { result ≡ 2 }
{
    2
}
