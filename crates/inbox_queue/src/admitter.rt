// The admitter of an inbox.
ghost use Rattle.std.specs.Prelude.{◌≡◌, ⊤};
ghost use Rattle.inbox_queue.specs.Handed.{with_sender, with_parcel, AreAllTakenIn, IsAllAdmitted, AdmitsPrefixes, IsNextOfItsSender, MatchAdmit};

use crate::inbox::{Inbox, InboxPass};
use crate::parcel::Parcel;
use crate::rule::{TakeIn, Takes};
use crate::sender::InboxSender;
use std::marker::Model;
use std::sync::Wait;

/// What the admitter is answered.
#[derive(Clone, Copy, Debug, PartialEq, Eq)]
pub enum Admit {
    /// The next parcel of its sender.
    Parcel(Parcel),
    /// Everything that was put is admitted.
    Empty,
    /// No memory was found, and nothing was taken out.
    NoMemory,
}

/// The one that takes parcels out of an inbox. Contracts see its inbox, what each sender had put that was taken in, and the
/// admitted parcels in order.
#[derive(Drop)]
pub struct Admitter {
    pub(crate) pass: InboxPass,
    pub(crate) admitted: Vec<Parcel>,
}

impl Model for Admitter {
    ghost use Rattle.inbox_queue.specs.Carried.{taken_of};
    ghost use Rattle.inbox_queue.specs.Passes.{known, home, AdmitsBy};
    ghost use Rattle.inbox_queue.specs.Handed.{Admitting};

    ghost Value = { Admitting };

    ghost view = { λ a. record { inbox = home a.pass; taken = taken_of (known a.pass); admitted = a.admitted.items } };

    ghost invariant = { λ a. AdmitsBy a.pass a.admitted.items };
}

impl Admitter {
    /// Takes the next parcel out of the inbox. Every sender must have been taken in (this project's profile).
    ///
    /// Of each sender, what was admitted is a beginning of what it put, each once and in its order. Empty comes exactly where
    /// everything that was put is admitted. NoMemory where none was found: then nothing is taken out.
    pub fn admit<R: Wait>(&mut self, rt: &R, inbox: &Inbox) -> Admit
        requires inbox { self.old.inbox ≡ inbox.now }
        requires senders { AreAllTakenIn self.old }
        ensures answer { MatchAdmit result (λ parcel. self.new ≡ with_parcel self.old parcel) (self.new ≡ self.old) (self.new ≡ self.old) }
        ensures next { MatchAdmit result (λ parcel. IsNextOfItsSender self.old parcel × AdmitsPrefixes self.new) (AdmitsPrefixes self.new) ⊤ }
        ensures empty { MatchAdmit result (λ parcel. ¬ (IsAllAdmitted self.old)) (IsAllAdmitted self.old) ⊤ }
    {
        if self.admitted.reserve(1).is_err() {
            return Admit::NoMemory;
        }
        match inbox.queue.pop_as::<Takes, R>(rt, &mut self.pass) {
            Some(parcel) => {
                self.admitted.push_reserved(parcel);
                Admit::Parcel(parcel)
            }
            None => Admit::Empty,
        }
    }

    /// Ends a sender of the inbox, and keeps what it put (this project's profile).
    pub fn take_in(&mut self, inbox: &Inbox, sender: InboxSender)
        requires { (self.old.inbox ≡ inbox.now) × (sender.inbox ≡ inbox.now) }
        ensures { self.new ≡ with_sender self.old sender }
    {
        let InboxSender {
            pass,
            number: _,
            count: _,
        } = sender;
        inbox.queue.absorb::<TakeIn>(&mut self.pass, pass);
    }
}
