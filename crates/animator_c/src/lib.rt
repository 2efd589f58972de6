//! An animator over frame time for C: `animator.h` says how the call is made, and looks at the pointer before it.
#![tactic(auto)]

ghost use Rattle.std.specs.Prelude.{◌≡◌};
ghost use Rattle.animator_c.specs.Shown.{HasPlan, TellsAt, Takes, IsSameBut, no_plan};

mod answers;
mod course;

pub use answers::ValueAnswer;
pub use course::FrameAnimator;

/// Tells the animator the time of a frame, in nanoseconds, and answers what it tells at it, as `Animator::on_frame` does for the
/// frame times that it was given. An animator whose plan is out of its limits says so, and is left as it is.
#[unsafe(no_mangle)]
pub extern "C" fn mloop_core_animator_frame(animator: &mut FrameAnimator, time: u64) -> ValueAnswer
    ensures answer { HasPlan animator.old → TellsAt animator.old time result }
    ensures given { HasPlan animator.old → Takes animator.old time animator.new }
    ensures same { IsSameBut animator.old animator.new }
    ensures no_plan { (HasPlan animator.old → ⊥) → result ≡ no_plan }
    ensures left { (HasPlan animator.old → ⊥) → animator.new ≡ animator.old }
{
    let Some(plan) = animator.plan() else {
        return answers::no_plan();
    };
    let mut teller = animator.animator(plan);
    animator.give(time);
    answers::shown(teller.on_frame(time))
}

/// The number of this interface, which changes where a struct of it does.
#[unsafe(no_mangle)]
pub extern "C" fn mloop_core_animator_interface() -> u32
    ensures { result ≡ 1 }
{
    1
}
