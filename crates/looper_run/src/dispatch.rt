//! One message: its route, its act and its way home.
ghost use Rattle.std.specs.Prelude.{◌≡◌, ◌<◌, ◌^◌, ◌++◌, [], ◌∷◌, length, OnOk, OnErr, IfSome, None};
ghost use Rattle.message_slot.specs.Fields.{callback_of};
ghost use Rattle.message_pool.specs.Values.{without_value};
ghost use Rattle.looper_run.specs.Holding.{held};
ghost use Rattle.looper_run.specs.Carried.{KeepsLent};
ghost use Rattle.looper_run.specs.Ready.{RestsBetween, HasToDispatch, HasToRoute, IsRouted};
ghost use Rattle.looper_run.specs.Going.{TookOfPool};
ghost use Rattle.looper_run.specs.Tests.{IsSameLooper, IsLent};
ghost use Rattle.looper_run.specs.Told.{IsTold, Dispatches, GivesBack};

use crate::dispatcher::{Did, Dispatcher};
use crate::own::Own;
use loop_model::{Act, Journal, NoMemory, Route};
use message_pool::{Pool, PoolClaim, PoolNode};
use message_slot::Message;

// Appends one act.
pub(crate) fn tell(journal: &mut Journal, act: Act) -> Result<(), NoMemory>
    ensures looper { journal.new.looper ≡ journal.old.looper }
    ensures ok { OnOk result ((journal.new.acts ≡ journal.old.acts ++ act ∷ []) × (length journal.new.acts < 2 ^ 64)) }
    ensures err { OnErr result (journal.new.acts ≡ journal.old.acts) }
{
    journal.acts.push(act)?;
    let _told = journal.acts.len();
    Ok(())
}

// The handler's callback object, or else the handler. None where memory ran out.
fn offer<D: Dispatcher>(
    d: &mut D,
    own: &mut Own<D::Record, D::Value>,
    m: &Message<PoolClaim<D::Value>>,
    now: u64,
) -> Option<Route>
    requires ready { HasToRoute D.Serves D.Awaits D.Took D.Meets d.old (held own.old) m.now now None }
    ensures keeps { KeepsLent D.Serves D.origin D.nudges D.asked IsLent d.old d.new own.old own.new }
    ensures gone { IfSome result (IsRouted D.Awaits D.Meets d.new (held own.new) m.now now None) }
{
    match d.intercept(own, m, now) {
        Did::NoMemory => None,
        Did::Yes => Some(Route::Intercepted),
        Did::No => match d.handle(own, m, now) {
            Did::NoMemory => None,
            Did::Yes | Did::No => Some(Route::Handled),
        },
    }
}

// The callback of the message where it has one, else the handler with its callback object. None where memory ran out.
fn route<D: Dispatcher>(
    d: &mut D,
    own: &mut Own<D::Record, D::Value>,
    m: &Message<PoolClaim<D::Value>>,
    now: u64,
) -> Option<Route>
    requires ready { HasToRoute D.Serves D.Awaits D.Took D.Meets d.old (held own.old) m.now now (callback_of m.now.item) }
    ensures keeps { KeepsLent D.Serves D.origin D.nudges D.asked IsLent d.old d.new own.old own.new }
    ensures gone { IfSome result (IsRouted D.Awaits D.Meets d.new (held own.new) m.now now (callback_of m.now.item)) }
{
    match m.callback() {
        Some(id) => match d.run_callback(own, id, m, now) {
            Did::NoMemory => None,
            Did::Yes | Did::No => Some(Route::Callback { id }),
        },
        None => offer(d, own, m, now),
    }
}

// Dispatches a message that was taken, and tells it.
fn dispatch_one<D: Dispatcher>(
    d: &mut D,
    own: &mut Own<D::Record, D::Value>,
    number: u64,
    now: u64,
    m: &mut Message<PoolClaim<D::Value>>,
) -> Result<(), NoMemory>
    requires ready { HasToDispatch D.Serves D.Awaits D.Meets d.old (held own.old) number m.old now }
    ensures keeps { KeepsLent D.Serves D.origin D.nudges D.asked IsSameLooper d.old d.new own.old own.new }
    ensures rest { without_value m.new ≡ without_value m.old }
    ensures told { OnOk result (IsTold (held own.old) (held own.new) m.old now) }
    ensures given_up { OnErr result (IsLent (held own.old) (held own.new)) }
    ensures rests { OnOk result (RestsBetween D.Awaits D.Meets d.new (held own.new)) }
{
    d.before(number, m);
    match route(d, own, m, now) {
        Some(route) => tell(own.journal, Act::Dispatch { number, now, route }),
        None => Err(NoMemory),
    }
}

// Dispatches a message that was taken, tells it and recycles it.
pub(crate) fn dispatch<D: Dispatcher>(
    d: &mut D,
    pool: &Pool<D::Value>,
    own: &mut Own<D::Record, D::Value>,
    number: u64,
    now: u64,
    mut node: PoolNode<D::Value>,
) -> Result<(), NoMemory>
    requires may { TookOfPool D.Serves D.Awaits D.Meets d.old pool.now (held own.old) number node now }
    ensures keeps { KeepsLent D.Serves D.origin D.nudges D.asked IsSameLooper d.old d.new own.old own.new }
    ensures done { OnOk result (Dispatches (held own.old) (held own.new) node now) }
    ensures given_up { OnErr result (GivesBack (held own.old) (held own.new) node) }
    ensures rests { OnOk result (RestsBetween D.Awaits D.Meets d.new (held own.new)) }
{
    let told = dispatch_one(d, own, number, now, node.item_mut());
    pool.recycle(own.pass, node);
    told
}
