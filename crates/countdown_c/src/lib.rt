//! A countdown over frame time for C: `countdown.h` says how the call is made, and looks at the pointer before it.
#![tactic(auto)]

ghost use Rattle.std.specs.Prelude.{◌≡◌, ◌<◌};
ghost use Rattle.countdown_c.specs.Shown.{TellsAt, Takes, no_interval};

mod answers;
mod timer;

pub use answers::TickAnswer;
pub use timer::FrameTimer;

/// Tells the countdown the time of a frame, in nanoseconds, and answers what it tells at it, as `Countdown::on_frame` does for the
/// frame times that it was given. A countdown with an interval of 0 says so, and is left as it is.
#[unsafe(no_mangle)]
pub extern "C" fn mloop_core_countdown_frame(timer: &mut FrameTimer, time: u64) -> TickAnswer
    ensures answer { 0 < timer.old.interval → TellsAt timer.old time result }
    ensures given { 0 < timer.old.interval → Takes timer.old time timer.new }
    ensures total { timer.new.total ≡ timer.old.total }
    ensures interval { timer.new.interval ≡ timer.old.interval }
    ensures no_interval { timer.old.interval ≡ 0 → result ≡ no_interval }
    ensures left { timer.old.interval ≡ 0 → timer.new ≡ timer.old }
{
    if timer.interval == 0 {
        return answers::no_interval();
    }
    let mut countdown = timer.countdown();
    timer.give(time);
    answers::shown(countdown.on_frame(time))
}

/// The number of this interface, which changes where a struct of it does.
#[unsafe(no_mangle)]
pub extern "C" fn mloop_core_countdown_interface() -> u32
    ensures { result ≡ 1 }
{
    1
}
