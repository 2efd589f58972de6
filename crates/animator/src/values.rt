//! The animator.
ghost use Rattle.std.specs.Prelude.{◌≡◌, ◌<◌, ◌≤◌, ◌*◌, ◌++◌, ◌∷◌, [], List, ℕ, All};
ghost use Rattle.animator.specs.Plans.{IsKey, IsPlan};
ghost use Rattle.animator.specs.Valuing.{animator_answer, end_of, end_value, is_around, value_between, position, value_among, value_at};
ghost use Rattle.animator.specs.Given.{WasGiven};

use crate::keys::Key;
use crate::plan::Plan;
use countdown::Span;
use std::marker::Model;

/// What an animator tells at a frame.
#[derive(Clone, Copy, Debug, PartialEq, Eq)]
pub enum Valued {
    /// The value at this frame (`onAnimationUpdate`).
    Value { value: u32 },
    /// The first frame at which all ways are done, with the value that stays (`onAnimationEnd`).
    End { value: u32 },
    /// The end was told at a frame before.
    Over,
}

/// An animator of one value, after Android's `ValueAnimator` with linear steps between its keys and whole numbers (this
/// project's profile). It starts at its first frame.
#[derive(Debug, Drop)]
pub struct Animator {
    plan: Plan,
    span: Span,
}

impl Model for Animator {
    ghost use Rattle.animator.specs.Plans.{IsPlan};
    ghost use Rattle.animator.specs.Given.{Animating};

    ghost Value = { Animating };

    ghost view = { λ s. record { plan = s.plan; span = s.span } };

    ghost invariant = { λ s. IsPlan s.plan };
}

/// When the last way ends, in milliseconds from the first frame.
fn end_of(plan: &Plan) -> u64
    requires { IsPlan plan.now }
    ensures { result ≡ end_of plan.now }
{
    plan.delay + plan.duration * (u64::from(plan.repeats) + 1)
}

/// The value that stays: that of the first key where the last way goes backwards, else that of the last key.
fn end_value(plan: &Plan) -> u32
    requires { IsPlan plan.now }
    ensures { result ≡ end_value plan.now }
{
    let keys = plan.keys.as_slice();
    if plan.reverse && plan.repeats % 2 == 1 {
        keys[0].value
    } else {
        keys[keys.len() - 1].value
    }
}

/// How far the animator is on its way, in milliseconds.
fn position(plan: &Plan, elapsed: u64) -> u64
    requires { IsPlan plan.now }
    ensures is { result ≡ position plan.now elapsed }
    ensures within { result ≤ plan.now.duration }
{
    if elapsed < plan.delay {
        return 0;
    }
    let running = elapsed - plan.delay;
    let way = running / plan.duration;
    let on_way = running % plan.duration;
    if plan.reverse && way % 2 == 1 {
        plan.duration - on_way
    } else {
        on_way
    }
}

/// Whether the position lies from one key on and before the other.
fn is_around(duration: u64, position: u64, from: &Key, to: &Key) -> bool
    requires from { IsKey from.now }
    requires to { IsKey to.now }
    requires duration { duration ≤ 60000 }
    requires position { position ≤ duration }
    ensures { result ≡ is_around duration position from.now to.now }
{
    u64::from(from.at) * duration <= 1000 * position
        && 1000 * position < u64::from(to.at) * duration
}

/// The value of one key, moved towards that of the next.
fn moved(duration: u64, position: u64, from: &Key, to: &Key) -> u32
    requires from { IsKey from.now }
    requires to { IsKey to.now }
    requires duration { duration ≤ 60000 }
    requires position { position ≤ duration }
    requires after { from.now.at * duration ≤ 1000 * position }
    requires before { 1000 * position < to.now.at * duration }
    ensures { result ≡ value_between duration position from.now to.now }
{
    let gone = 1000 * position - u64::from(from.at) * duration;
    let whole = u64::from(to.at - from.at) * duration;
    if from.value <= to.value {
        let distance = u64::from(to.value - from.value);
        from.value + (distance * gone / whole) as u32
    } else {
        let distance = u64::from(from.value - to.value);
        from.value - (distance * gone / whole) as u32
    }
}

/// The value between the two keys that follow each other around the position.
fn value_among(duration: u64, position: u64, keys: &[Key]) -> u32
    requires keys { All IsKey keys.now }
    requires duration { duration ≤ 60000 }
    requires position { position ≤ duration }
    ensures { result ≡ value_among duration position keys.now }
{
    let Some((first, rest)) = keys.split_first() else {
        return 0;
    };
    let mut from = first;
    for to in rest {
        if is_around(duration, position, from, to) {
            return moved(duration, position, from, to);
        }
        from = to;
    }
    0
}

/// The value at a position.
fn value_at(plan: &Plan, position: u64) -> u32
    requires plan { IsPlan plan.now }
    requires position { position ≤ plan.now.duration }
    ensures { result ≡ value_at plan.now position }
{
    let keys = plan.keys.as_slice();
    if position == plan.duration {
        keys[keys.len() - 1].value
    } else {
        value_among(plan.duration, position, keys)
    }
}

impl Animator {
    /// An animator that was given no frame yet. Its plan is within the limits of `Plan`.
    pub fn new(plan: Plan) -> Animator
        requires { IsPlan plan }
        ensures plan { result.plan ≡ plan }
        ensures given { WasGiven result [] }
    {
        Animator {
            plan,
            span: Span::new(),
        }
    }

    /// What the animator tells at a frame of this time, in nanoseconds of uptime. The time that has elapsed is counted in whole
    /// milliseconds from the first frame time to the greatest. `End` comes at the first frame at which the delay and all ways have
    /// elapsed, and `Over` at each frame after it; before that comes `Value`. Takes no memory.
    pub fn on_frame(&mut self, time: u64) -> Valued
        ensures answer { (times : List ℕ) → WasGiven self.old times → result ≡ animator_answer self.old.plan times time }
        ensures given { (times : List ℕ) → WasGiven self.old times → WasGiven self.new (times ++ time ∷ []) }
        ensures plan { self.new.plan ≡ self.old.plan }
    {
        let before = self.span.elapsed();
        let now = self.span.give(time);
        let end = end_of(&self.plan);
        if let Some(elapsed) = before {
            if elapsed >= end {
                return Valued::Over;
            }
        }
        if now >= end {
            return Valued::End {
                value: end_value(&self.plan),
            };
        }
        Valued::Value {
            value: value_at(&self.plan, position(&self.plan, now)),
        }
    }
}
