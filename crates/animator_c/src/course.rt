// An animator in the caller's memory.
ghost use Rattle.std.specs.Prelude.{◌≡◌, List, ℕ, MatchOption};
ghost use Rattle.animator.specs.Given.{WasGiven};
ghost use Rattle.animator_c.specs.Shown.{animating, plan_of, HasPlan, IsSameBut, Takes};

use animator::{Animator, Key, Keys, Plan};

/// How many keys count at most.
const MOST_KEYS: u32 = 16;

/// An animator: its plan, and the first and the greatest of the frame times that it was given.
#[repr(C)]
#[derive(Clone, Copy)]
pub struct FrameAnimator {
    /// Milliseconds from the first frame to the start of the way.
    pub delay: u64,
    /// How long one way takes, in milliseconds.
    pub duration: u64,
    /// How many ways follow the first one.
    pub repeats: u32,
    /// How many of the keys count.
    pub count: u32,
    /// The keys.
    pub keys: [Key; 16],
    /// The first frame time, in nanoseconds; counts only where `begun` is set.
    pub first: u64,
    /// The greatest frame time, in nanoseconds; counts only where `begun` is set.
    pub latest: u64,
    /// Whether each second way goes backwards.
    pub reverse: bool,
    /// Whether it was given a frame time.
    pub begun: bool,
}

impl FrameAnimator {
    /// Its plan, where it is within its limits.
    pub(crate) fn plan(&self) -> Option<Plan>
        ensures { MatchOption result (HasPlan self.now → ⊥) (λ p. (p ≡ plan_of self.now) × HasPlan self.now) }
    {
        let plan = Plan {
            delay: self.delay,
            duration: self.duration,
            repeats: self.repeats,
            reverse: self.reverse,
            keys: Keys::first_of(self.keys, self.count as usize),
        };
        if self.count <= MOST_KEYS && plan.fits() {
            return Some(plan);
        }
        None
    }

    /// An animator of this plan that was given the same times: those two tell all that it keeps of them.
    pub(crate) fn animator(&self, plan: Plan) -> Animator
        requires has_plan { HasPlan self.now }
        requires is { plan ≡ plan_of self.now }
        ensures plan { result.plan ≡ plan_of self.now }
        ensures given { (times : List ℕ) → WasGiven (animating self.now) times → WasGiven result times }
    {
        let mut animator = Animator::new(plan);
        if self.begun {
            animator.on_frame(self.first);
            animator.on_frame(self.latest);
        }
        animator
    }

    /// Takes one time more.
    pub(crate) fn give(&mut self, time: u64)
        ensures given { Takes self.old time self.new }
        ensures same { IsSameBut self.old self.new }
    {
        if self.begun {
            self.latest = self.latest.max(time);
            return;
        }
        self.first = time;
        self.latest = time;
        self.begun = true;
    }
}
