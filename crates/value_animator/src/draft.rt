//! What the lines read so far hold.
ghost use Rattle.std.specs.Prelude.{◌≡◌, ◌≤◌, ◌<◌, ◌^◌, ◌+◌, ◌*◌, OnOk, IsTrue, length, slice_index};
ghost use Rattle.dash_script.specs.Causes.{each_number};
ghost use Rattle.value_animator.specs.Drafts.{so_far};
ghost use Rattle.value_animator.specs.Reading.{plan_stop_cause, row_cause, row_has_room, is_within_limits, may_be_placed, may_stand, numbers_fit, places_rise, keyless_plan, ways_fit, with_given_key, with_row};

use crate::plan::{Thing, Values};
use crate::row::{Row, RowKind, row_of};
use animator::{Key, Keys, Plan};
use dash_script::{Cause, Numbers, Role, Slot};
use line_words::{ByLines, Stop};
use loop_model::{NoMemory, Sequence};
use std::alloc::Global;

const MOST_THINGS: usize = 16;

const MOST_KEYS: usize = 16;

/// The place of an animator's last key.
const LAST_PLACE: u64 = 1_000;

/// When the last way of an animator ends at the latest, in milliseconds.
const LAST_END: u128 = 60_000;

/// How far the text has come.
#[derive(Clone, Copy, PartialEq, Eq)]
pub(crate) enum Stage {
    Start,
    Headed,
    Body,
    Ended,
}

/// What the lines so far hold.
#[derive(Drop)]
pub(crate) struct Draft {
    period: u64,
    things: Vec<Thing>,
    /// The animator whose last key is still to come.
    open: Option<Plan>,
    stage: Stage,
}

/// Whether a number is within the limits of its role.
fn is_within(role: Role, number: u64) -> bool
    ensures { result ≡ is_within_limits role number }
{
    match role {
        Role::Within { low, high } => low <= number && number <= high,
        _ => true,
    }
}

/// Whether each number of a line of this form is within its limits.
fn numbers_fit(form: &[Slot], numbers: &Numbers) -> bool
    requires { length form.now ≤ 9 }
    ensures { result ≡ each_number is_within_limits 0 form.now numbers.now }
{
    let mut place = 0;
    for slot in form {
        match slot {
            Slot::Word(_) => {}
            Slot::Number(role) => {
                if !is_within(*role, numbers.at(place)) {
                    return false;
                }
                place += 1;
            }
        }
    }
    true
}

/// When the last way of an animator ends.
fn last_end(delay: u64, duration: u64, repeats: u64) -> u128
    ensures { result ≡ delay + duration * (repeats + 1) }
{
    u128::from(delay) + u128::from(duration) * (u128::from(repeats) + 1)
}

fn ways_fit(row: &Row) -> bool
    ensures { result ≡ ways_fit row.now.kind row.now.numbers }
{
    let numbers = &row.numbers;
    match row.kind {
        RowKind::Restart => last_end(numbers.at(0), numbers.at(1), numbers.at(2)) <= LAST_END,
        RowKind::Reverse => last_end(numbers.at(0), numbers.at(1), numbers.at(2)) <= LAST_END,
        _ => true,
    }
}

/// Whether a key may stand at this place behind these.
fn may_be_placed(keys: &[Key], place: u64) -> bool
    ensures { result ≡ may_be_placed keys.now place }
{
    match keys.last() {
        None => place == 0,
        Some(key) => u64::from(key.at) < place,
    }
}

impl Draft {
    /// Whether a line of this kind may stand next.
    fn may_stand(&self, kind: RowKind) -> bool
        ensures { result ≡ may_stand self.now.stage self.now.open kind }
    {
        match self.stage {
            Stage::Start => matches!(kind, RowKind::Head),
            Stage::Headed => matches!(kind, RowKind::Period),
            Stage::Body => match &self.open {
                Some(_) => matches!(kind, RowKind::Key),
                None => {
                    matches!(
                        kind,
                        RowKind::Countdown | RowKind::Restart | RowKind::Reverse | RowKind::End
                    )
                }
            },
            Stage::Ended => false,
        }
    }

    fn places_rise(&self, row: &Row) -> bool
        ensures { result ≡ places_rise self.now.open row.now.kind row.now.numbers }
    {
        match row.kind {
            RowKind::Key => match &self.open {
                Some(plan) => may_be_placed(plan.keys.as_slice(), row.numbers.at(0)),
                None => true,
            },
            _ => true,
        }
    }

    fn has_room(&self, row: &Row) -> bool
        ensures { result ≡ row_has_room (so_far self.now) row.now.kind row.now.numbers }
    {
        match row.kind {
            RowKind::Countdown => self.things.len() < MOST_THINGS,
            RowKind::Restart => self.things.len() < MOST_THINGS,
            RowKind::Reverse => self.things.len() < MOST_THINGS,
            RowKind::Key => match &self.open {
                Some(plan) => {
                    plan.keys.as_slice().len() < MOST_KEYS - 1 || row.numbers.at(0) == LAST_PLACE
                }
                None => true,
            },
            _ => true,
        }
    }

    /// The first cause for which a line may not come next.
    #[tactic(auto, unfolding(crate::specs::Reading::row_cause))]
    fn cause(&self, row: &Row) -> Option<Cause>
        ensures { result ≡ row_cause (so_far self.now) row.now }
    {
        if !self.may_stand(row.kind) {
            return Some(Cause::Form);
        }
        if !numbers_fit(row.kind.form(), &row.numbers) {
            return Some(Cause::Range);
        }
        if !ways_fit(row) {
            return Some(Cause::Range);
        }
        if !self.places_rise(row) {
            return Some(Cause::Order);
        }
        if !self.has_room(row) {
            return Some(Cause::TooMany);
        }
        None
    }

    /// Adds a key to the animator that waits for it, which then may be whole.
    fn add_key(&mut self, key: Key) -> Result<(), NoMemory>
        ensures { OnOk result (so_far self.new ≡ with_given_key (so_far self.old) self.old.open key) }
    {
        let Some(mut plan) = self.open.take() else {
            return Ok(());
        };
        if !plan.keys.push(key) {
            return Err(NoMemory);
        }
        if u64::from(key.at) == LAST_PLACE {
            self.things.push(Thing::Animator(plan))?;
        } else {
            self.open = Some(plan);
        }
        Ok(())
    }

    /// Adds what a line says.
    fn add(&mut self, row: &Row) -> Result<(), NoMemory>
        requires { IsTrue (numbers_fit row.now.kind row.now.numbers) }
        ensures { OnOk result (so_far self.new ≡ with_row (so_far self.old) row.now.kind row.now.numbers) }
    {
        let numbers = &row.numbers;
        match row.kind {
            RowKind::Head => self.stage = Stage::Headed,
            RowKind::Period => {
                self.period = numbers.at(0);
                self.stage = Stage::Body;
            }
            RowKind::Countdown => {
                self.things.push(Thing::Countdown {
                    total: numbers.at(0),
                    interval: numbers.at(1),
                })?;
            }
            RowKind::Restart => {
                self.open = Some(plan_of(false, numbers));
            }
            RowKind::Reverse => {
                self.open = Some(plan_of(true, numbers));
            }
            RowKind::Key => {
                self.add_key(Key {
                    at: numbers.narrow_at(0),
                    value: numbers.narrow_at(1),
                })?;
            }
            RowKind::End => self.stage = Stage::Ended,
        }
        Ok(())
    }

    /// Why the text may not stop here, where these bytes without a line feed are left.
    fn stop(&self, bytes: &[u8]) -> Option<Cause>
        ensures { result ≡ plan_stop_cause (so_far self.now) bytes.now }
    {
        let is_whole = bytes.is_empty() & (self.stage == Stage::Ended);
        if is_whole {
            return None;
        }
        if bytes.is_empty() {
            Some(Cause::Missing)
        } else {
            Some(Cause::Form)
        }
    }
}

impl ByLines for Draft {
    type Whole = Values;

    type Cause = Cause;

    ghost use Rattle.value_animator.specs.declared.row.Row.{Row};
    ghost use Rattle.value_animator.specs.Drafts.{so_far};
    ghost use Rattle.value_animator.specs.Reading.{SoFar, plans};

    ghost Said = { Row };

    ghost Held = { SoFar };

    ghost language = { plans };

    ghost so_far = { so_far };

    fn new(alloc: Global) -> Result<Draft, NoMemory> {
        Ok(Draft {
            period: 0,
            things: Vec::new(alloc),
            open: None,
            stage: Stage::Start,
        })
    }

    fn take(&mut self, _alloc: Global, line: u64, bytes: &[u8]) -> Result<(), Stop<Cause>> {
        let Some(row) = row_of(bytes) else {
            return Err(Stop::Bad(line, Cause::Form));
        };
        if let Some(cause) = self.cause(&row) {
            return Err(Stop::Bad(line, cause));
        }
        self.add(&row)?;
        Ok(())
    }

    fn end(self, line: u64, bytes: &[u8]) -> Result<Values, Stop<Cause>> {
        if let Some(cause) = self.stop(bytes) {
            return Err(Stop::Bad(line, cause));
        }
        Ok(Values {
            period: self.period,
            things: Sequence::from_vec(self.things),
        })
    }
}

/// An animator without keys.
fn plan_of(reverse: bool, numbers: &Numbers) -> Plan
    requires { slice_index numbers.now 2 < 2 ^ 32 }
    ensures { result ≡ keyless_plan reverse numbers.now }
{
    Plan {
        delay: numbers.at(0),
        duration: numbers.at(1),
        repeats: numbers.narrow_at(2),
        reverse,
        keys: Keys::new(),
    }
}
