//! The gauges of a looper, and its traversals.
ghost use Rattle.std.specs.Prelude.{◌≡◌, ◌<◌, ◌≤◌, ◌++◌, [], ℕ, map, slice_get, slice_set, replicate, length, IfOk, OnOk, None, false};
ghost use Rattle.std.specs.List.{flat_map, enumerate_from};
ghost use Rattle.choreographer.specs.Known.{Pass};
ghost use Rattle.dash_hall.specs.Hosts.{IsHostNow, IsSameHost};
ghost use Rattle.dash_loopers.specs.Places.{ShowsOn, HasGauges, HasPainted, animated};
ghost use Rattle.dash_loopers.specs.Played.{standing, paint_of, paint_of_gauge};
ghost use Rattle.dash_script.specs.declared.script.Script.{Script as ScriptData};
ghost use Rattle.dash_script.specs.Reading.{HasText};
ghost use Rattle.run_model.specs.Planned.{traversal_phase};
ghost use Rattle.run_model.specs.Loopers.{object_set, traversal_requested, traversal_ran, callback_ran, and_posts_frame, paints, stepped_towards as moved_by};
ghost use Rattle.dash_loopers.specs.Steps.{ShowsBy, PostsByHost};

use choreographer::{Choreographer, FramePass};
use dash_hall::{Host, Uptime, looper_of};
use dash_script::Script;
use loop_model::NoMemory;
use std::alloc::Global;
use std::sync::Wait;

/// The phase of animations.
const ANIMATION: u32 = 1;

/// The phase of traversals.
const TRAVERSAL: u32 = 2;

/// The phase of traversals in edition 2, where insets animations stand before them.
const TRAVERSAL_BEHIND_INSETS: u32 = 3;

/// The callback of gauge 0's animation; the other gauges' follow.
const FIRST_ANIMATION: u64 = 1_000_000;

/// The callback of a looper's traversal.
const TRAVERSAL_CALLBACK: u64 = 1_000_016;

/// A gauge moves from its value to its target by frames, by at most its step.
#[derive(Clone, Copy, Debug, PartialEq, Eq)]
pub(crate) struct Gauge {
    /// It lives on this looper.
    own: bool,
    step: u32,
    value: u32,
    target: u32,
    animating: bool,
}

/// What a traversal painted.
#[derive(Clone, Copy, Debug, PartialEq, Eq)]
pub(crate) struct Painted {
    pub(crate) gauge: u32,
    pub(crate) value: u32,
}

/// The gauges of a script, of which the looper's own change, and the looper's traversal: while one is under way, a sync barrier
/// stands in the looper's queue, as AOSP's `ViewRootImpl` has it. It posts frame callbacks by the looper's pass.
#[derive(Drop)]
pub struct ViewRoot {
    /// The edition of the script.
    pub(crate) edition: u32,
    pub(crate) gauges: Vec<Gauge>,
    pub(crate) barrier: Option<u64>,
    pub(crate) painted: Vec<Painted>,
}

impl ViewRoot {
    /// Gauges that stand at 0, and no traversal.
    pub(crate) fn new(alloc: Global, script: &Script, looper: u32) -> Result<ViewRoot, NoMemory>
        ensures still { IfOk result (λ v. map standing v.gauges.items ≡ replicate (length script.now.gauges) (record { value = 0; target = 0; animating = false })) }
        ensures gauges { IfOk result (λ v. HasGauges script.now looper v) }
        ensures rest { IfOk result (λ v. (v.barrier ≡ None) × (v.painted.items ≡ []) × (v.edition ≡ script.now.edition)) }
    {
        let mut gauges = Vec::new(alloc);
        for line in script.gauges.as_slice() {
            gauges.push(Gauge {
                own: looper_of(script, line.handler) == looper,
                step: line.step,
                value: 0,
                target: 0,
                animating: false,
            })?;
        }
        Ok(ViewRoot {
            edition: script.edition,
            gauges,
            barrier: None,
            painted: Vec::new(alloc),
        })
    }

    /// A message sets the target of a gauge, where it is one of this looper. It begins to animate where its value is another.
    pub(crate) fn set_target<R: Wait, U: Uptime>(
        &mut self,
        c: &Choreographer,
        pass: &mut FramePass,
        host: &mut Host<R, U>,
        gauge: u64,
        target: u32,
    ) -> Result<(), NoMemory>
        requires by { ShowsBy c.now host.old pass.old }
        ensures keeps { PostsByHost host.old host.new pass.old pass.new }
        ensures shows { OnOk result (ShowsOn host.old host.new (λ s q at. object_set s q at gauge target) pass.old pass.new self.old self.new) }
    {
        let Some(x) = self.gauge(gauge) else {
            return Ok(());
        };
        if !x.own {
            return Ok(());
        }
        let starts = !(x.animating | (x.value == target));
        self.put(
            gauge,
            Gauge {
                target,
                animating: x.animating | starts,
                ..x
            },
        );
        if !starts {
            return Ok(());
        }
        self.post(
            c,
            pass,
            host,
            ANIMATION,
            FIRST_ANIMATION.saturating_add(gauge),
        )?;
        self.request_traversal(c, pass, host)
    }

    /// The gauge of this number, where there is one.
    fn gauge(&self, gauge: u64) -> Option<Gauge>
        ensures { result ≡ slice_get self.now.gauges.items gauge }
    {
        self.gauges.as_slice().get(gauge as usize).copied()
    }

    /// Puts a gauge in the place of the one of this number.
    fn put(&mut self, gauge: u64, x: Gauge)
        requires { gauge < length self.old.gauges.items }
        ensures gauges { self.new.gauges.items ≡ slice_set self.old.gauges.items gauge x }
        ensures same { (self.new.barrier ≡ self.old.barrier) × (self.new.painted ≡ self.old.painted) × (self.new.edition ≡ self.old.edition) }
    {
        self.gauges[gauge as usize] = x;
    }

    /// The phase of the looper's traversals.
    fn traversal(&self) -> u32
        ensures phase { (s : ScriptData) → self.now.edition ≡ s.edition → result ≡ traversal_phase s }
        ensures few { result ≤ 3 }
    {
        if self.edition == 2 {
            TRAVERSAL_BEHIND_INSETS
        } else {
            TRAVERSAL
        }
    }

    /// Posts a barrier and the traversal's callback, unless a traversal is under way.
    fn request_traversal<R: Wait, U: Uptime>(
        &mut self,
        c: &Choreographer,
        pass: &mut FramePass,
        host: &mut Host<R, U>,
    ) -> Result<(), NoMemory>
        requires by { ShowsBy c.now host.old pass.old }
        ensures keeps { PostsByHost host.old host.new pass.old pass.new }
        ensures shows { OnOk result (ShowsOn host.old host.new traversal_requested pass.old pass.new self.old self.new) }
    {
        if self.barrier.is_some() {
            return Ok(());
        }
        let token = host.post_barrier()?;
        self.barrier = Some(token);
        let phase = self.traversal();
        self.post(c, pass, host, phase, TRAVERSAL_CALLBACK)
    }

    /// The animation of a gauge moves it by a step, requests a traversal, and goes on until the target is reached.
    fn animate<R: Wait, U: Uptime>(
        &mut self,
        c: &Choreographer,
        pass: &mut FramePass,
        host: &mut Host<R, U>,
        gauge: u64,
    ) -> Result<(), NoMemory>
        requires by { ShowsBy c.now host.old pass.old }
        ensures keeps { PostsByHost host.old host.new pass.old pass.new }
        ensures shows { OnOk result (ShowsOn host.old host.new (λ s q at. animated s q at gauge) pass.old pass.new self.old self.new) }
    {
        let Some(x) = self.gauge(gauge) else {
            return Ok(());
        };
        if !x.animating {
            return Ok(());
        }
        let value = moved(x.step, x.target, x.value);
        let animating = value != x.target;
        self.put(
            gauge,
            Gauge {
                value,
                animating,
                ..x
            },
        );
        self.request_traversal(c, pass, host)?;
        if !animating {
            return Ok(());
        }
        self.post(
            c,
            pass,
            host,
            ANIMATION,
            FIRST_ANIMATION.saturating_add(gauge),
        )
    }

    /// The traversal removes its barrier, and paints each gauge of the looper.
    fn traverse<R: Wait, U: Uptime>(&mut self, host: &mut Host<R, U>) -> Result<(), NoMemory>
        requires { IsHostNow host.old }
        ensures ready { IsHostNow host.new }
        ensures origin { IsSameHost host.old host.new }
        ensures shows { (pass : Pass) → OnOk result (ShowsOn host.old host.new traversal_ran pass pass self.old self.new) }
    {
        let Some(token) = self.barrier else {
            return Ok(());
        };
        self.barrier = None;
        host.remove_barrier(token)?;
        self.paint()
    }

    /// Paints each gauge of the looper, by rising number.
    fn paint(&mut self) -> Result<(), NoMemory>
        ensures painted { (s : ScriptData) (q : ℕ) → HasText s → HasGauges s q self.old → OnOk result (HasPainted s q self.old self.new) }
        ensures same { (self.new.gauges ≡ self.old.gauges) × (self.new.barrier ≡ self.old.barrier) × (self.new.edition ≡ self.old.edition) }
    {
        paint_all(&mut self.painted, self.gauges.as_slice())
    }

    /// Posts a frame callback that is due at once.
    fn post<R: Wait, U: Uptime>(
        &mut self,
        c: &Choreographer,
        pass: &mut FramePass,
        host: &mut Host<R, U>,
        phase: u32,
        id: u64,
    ) -> Result<(), NoMemory>
        requires by { ShowsBy c.now host.old pass.old }
        requires phase { phase ≤ 3 }
        ensures keeps { PostsByHost host.old host.new pass.old pass.new }
        ensures shows { OnOk result (ShowsOn host.old host.new (λ s q at. and_posts_frame at phase id) pass.old pass.new self.old self.new) }
    {
        host.post_callback(c, pass, phase, id, 0)
    }

    /// Runs a frame callback, by its identity.
    pub(crate) fn run_callback<R: Wait, U: Uptime>(
        &mut self,
        c: &Choreographer,
        pass: &mut FramePass,
        host: &mut Host<R, U>,
        id: u64,
    ) -> Result<(), NoMemory>
        requires by { ShowsBy c.now host.old pass.old }
        ensures keeps { PostsByHost host.old host.new pass.old pass.new }
        ensures shows { OnOk result (ShowsOn host.old host.new (λ s q at a. callback_ran s q at a id) pass.old pass.new self.old self.new) }
    {
        if id == TRAVERSAL_CALLBACK {
            self.traverse(host)
        } else if id >= FIRST_ANIMATION {
            self.animate(c, pass, host, id - FIRST_ANIMATION)
        } else {
            Ok(())
        }
    }
}

/// Paints each of these gauges that is the looper's, by its place.
fn paint_all(painted: &mut Vec<Painted>, gauges: &[Gauge]) -> Result<(), NoMemory>
    ensures { length gauges.now ≤ 16
        → OnOk result (map paint_of painted.new.items ≡ map paint_of painted.old.items ++ flat_map paint_of_gauge (enumerate_from 0 gauges.now)) }
{
    let mut gauge: u32 = 0;
    for state in gauges {
        paint_gauge(painted, gauge, state)?;
        gauge = gauge.saturating_add(1);
    }
    Ok(())
}

/// Paints a gauge, where it is the looper's.
fn paint_gauge(painted: &mut Vec<Painted>, gauge: u32, state: &Gauge) -> Result<(), NoMemory>
    ensures { OnOk result (map paint_of painted.new.items ≡ map paint_of painted.old.items ++ paint_of_gauge (gauge, state.now)) }
{
    if state.own {
        painted.push(Painted {
            gauge,
            value: state.value,
        })?;
    }
    Ok(())
}

/// A value moved towards a target by a step, but not past it.
fn moved(step: u32, target: u32, value: u32) -> u32
    ensures { result ≡ moved_by step target value }
{
    if value <= target {
        value.saturating_add(step).min(target)
    } else {
        value - step.min(value - target)
    }
}
