// The inbox: how it is made and closed.
ghost use Rattle.std.specs.Prelude.{◌≡◌, ◌<◌, ◌++◌, [], length, IfOk, replicate, None};
ghost use Rattle.crossbeam_queue.specs.SegTies.{IsSegPassOf};
ghost use Rattle.inbox_queue.specs.declared.known.Known.TheVariants.{Admits};
ghost use Rattle.inbox_queue.specs.Carried.{Accounts, taken_of, admitted_of};
ghost use Rattle.inbox_queue.specs.Passes.{known};
ghost use Rattle.inbox_queue.specs.Handed.{AreManyNew, AreNewSenders, IsNewAdmitter, AreAllTakenIn, AccountsForAll};

use crate::admitter::Admitter;
use crate::known::Known;
use crate::parcel::Parcel;
use crate::rule::{Deal, Takes, Whole};
use crate::sender::InboxSender;
use crossbeam_queue::{RuledSegQueue, SegPass};
use loop_model::{NoMemory, Sequence};
use std::alloc::Global;
use std::marker::Model;
use std::sync::Wait;

pub(crate) type InboxQueue = RuledSegQueue<Parcel, Known, Whole>;

pub(crate) type InboxPass = SegPass<Parcel, Known>;

/// What is left of an inbox that was closed.
#[derive(Debug, Drop)]
pub struct InboxEnd {
    /// The admitted parcels, in the order of their admission.
    pub admitted: Sequence<Parcel>,
    /// The parcels that still lay in the inbox, in its order.
    pub left: Sequence<Parcel>,
}

/// An inbox that threads share (this project's profile). It is ended by `close`.
pub struct Inbox {
    pub(crate) queue: InboxQueue,
    alloc: Global,
}

impl Model for Inbox {
    ghost use Rattle.inbox_queue.specs.Handed.{InboxId, inbox_id_coded};

    ghost Value = { InboxId };

    ghost coded = { inbox_id_coded };

    ghost view = { λ i. i.queue.web };
}

// Makes the senders, and puts them into the list.
fn deal(
    queue: &InboxQueue,
    pass: &mut InboxPass,
    senders: u32,
    list: &mut Vec<InboxSender>,
) -> Result<(), NoMemory>
    requires { IsSegPassOf queue.now pass.old × (known pass.old ≡ Admits [] []) × (list.old.items ≡ []) }
    ensures pass { IsSegPassOf queue.now pass.new }
    ensures ok { IfOk result (λ _. (known pass.new ≡ Admits (replicate senders None) []) × AreManyNew queue.now.web senders list.new.items) }
{
    for number in 0..senders {
        list.reserve(1)?;
        let pass = queue.another::<Deal>(pass);
        list.push_reserved(InboxSender {
            pass,
            number,
            count: 0,
        });
    }
    Ok(())
}

// Takes out what is left in the queue.
fn take_rest<R: Wait>(
    rt: &R,
    alloc: Global,
    queue: &InboxQueue,
    pass: &mut InboxPass,
) -> Result<Vec<Parcel>, NoMemory>
    requires pass { IsSegPassOf queue.now pass.old }
    requires admits { known pass.old ≡ Admits (taken_of (known pass.old)) (admitted_of (known pass.old)) }
    ensures { IfOk result (λ left. Accounts (Admits (taken_of (known pass.old)) (admitted_of (known pass.old) ++ left.items)) []) }
{
    let mut left = Vec::new(alloc);
    for _ in rt.forever() {
        left.reserve(1)?;
        let Some(parcel) = queue.pop_as::<Takes, R>(rt, pass) else {
            return Ok(left);
        };
        left.push_reserved(parcel);
    }
    unreachable!()
}

impl Inbox {
    /// An inbox with so many senders, at least one, in the order of their numbers, and its admitter (this project's profile).
    /// NoMemory where none was found.
    pub fn make(
        alloc: Global,
        senders: u32,
    ) -> Result<(Inbox, Vec<InboxSender>, Admitter), NoMemory>
        requires { 0 < senders }
        ensures { IfOk result (λ r. (length r.1.items ≡ senders) × AreNewSenders r.0 r.1.items × IsNewAdmitter r.0 senders r.2) }
    {
        let (queue, mut pass) = InboxQueue::with_rule(alloc)?;
        let mut list = Vec::new(alloc);
        if deal(&queue, &mut pass, senders, &mut list).is_err() {
            queue.destroy();
            return Err(NoMemory);
        }
        let admitter = Admitter {
            pass,
            admitted: Vec::new(alloc),
        };
        Ok((Inbox { queue, alloc }, list, admitter))
    }

    /// Ends the inbox, and answers what was admitted and what is left. Every sender must have been taken in (this project's
    /// profile). NoMemory where none was found: then the inbox and all parcels are freed.
    ///
    /// Of each sender, the admitted parcels and then those that are left are what it put, each once and in its order.
    pub fn close<R: Wait>(self, rt: &R, admitter: Admitter) -> Result<InboxEnd, NoMemory>
        requires inbox { admitter.inbox ≡ self }
        requires senders { AreAllTakenIn admitter }
        ensures { IfOk result (λ end. (end.admitted ≡ admitter.admitted) × AccountsForAll admitter end.left) }
    {
        let Inbox { queue, alloc } = self;
        let Admitter { mut pass, admitted } = admitter;
        let rest = take_rest(rt, alloc, &queue, &mut pass);
        queue.destroy();
        Ok(InboxEnd {
            admitted: Sequence::from_vec(admitted),
            left: Sequence::from_vec(rest?),
        })
    }
}
