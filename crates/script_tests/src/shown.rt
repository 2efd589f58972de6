//! The pieces of code that the READMEs of countdown and animator show, with their answers.

use animator::{Animator, Key, Keys, Plan, Valued};
use countdown::{Countdown, Ticked};

#[test]
fn a_countdown_and_an_animator_over_frames(rt: HostRuntime) {
    let mut countdown = Countdown::new(100, 40);
    assert_eq!(rt; countdown.on_frame(16_666_667), Ticked::Tick { left: 100 });
    assert_eq!(rt; countdown.on_frame(33_333_334), Ticked::Quiet);
    assert_eq!(rt; countdown.on_frame(66_666_668), Ticked::Tick { left: 50 });
    assert_eq!(rt; countdown.on_frame(116_666_669), Ticked::Finished);
    assert_eq!(rt; countdown.on_frame(133_333_336), Ticked::Over);

    let mut keys = Keys::new();
    assert!(rt; keys.push(Key { at: 0, value: 0 }));
    assert!(rt;
        keys.push(Key {
            at: 1_000,
            value: 100
        })
    );
    let plan = Plan {
        delay: 0,
        duration: 50,
        repeats: 1,
        reverse: true,
        keys,
    };
    assert!(rt; plan.fits());
    let mut animator = Animator::new(plan);
    assert_eq!(rt; animator.on_frame(16_666_667), Valued::Value { value: 0 });
    assert_eq!(rt; animator.on_frame(33_333_334), Valued::Value { value: 32 });
    assert_eq!(rt; animator.on_frame(66_666_668), Valued::Value { value: 100 });
    assert_eq!(rt; animator.on_frame(116_666_669), Valued::End { value: 0 });
    assert_eq!(rt; animator.on_frame(133_333_336), Valued::Over);
}
