//! Messages that carry a value: it comes to the handlers with its message's number, or back to whoever sent it.
ghost use Rattle.std.specs.Prelude.{◌<◌, [], ◌∷◌, length};
ghost use Rattle.handler_post.specs.Ways.{IsReady};
ghost use Rattle.plain_loop.specs.Lines.{way_of};
ghost use Rattle.plain_loop.specs.Senders.{AreSenders};

use handler_post::{Handler, SentWith};
use loop_io::{Clock, StepClock};
use loop_model::Post;
use message_pool::{Payload, take_value};
use plain_loop::{
    HandleValues, Handled, Line, Mailbox, Msg, Opened, Senders, Settings, open_for_values,
    run_value_looper,
};
use queue_state::Unkept;
use std::sync::Wait;
use std::test::Fail;

/// Whoever the messages are sent to.
const READER: Handler = Handler {
    id: 3,
    asynchronous: false,
};

/// A value of one digit, which contracts see.
#[derive(Drop)]
struct Note {
    digit: u64,
}

impl Payload for Note {
    ghost content = { λ n. n.digit ∷ [] };
}

/// The numbers of the messages that came, each with the digit of its value behind it.
#[derive(Drop)]
struct Reader {
    told: u64,
}

impl Reader {
    fn note(&mut self, number: u64, value: &mut Option<Note>) {
        let digit = match value.take() {
            Some(note) => note.digit,
            None => 0,
        };
        let came = number.saturating_mul(10).saturating_add(digit);
        self.told = self.told.saturating_mul(100).saturating_add(came);
    }
}

impl<R: Wait, C: Clock> HandleValues<R, C> for Reader {
    type Value = Note;

    fn take_out(message: &mut Msg<Note>) -> Option<Note> {
        take_value(message)
    }

    fn handle(
        &mut self,
        line: &mut Line<R, C, Unkept, Note>,
        number: u64,
        post: &Post,
        value: &mut Option<Note>,
        now: u64,
    ) -> Handled {
        self.note(number, value);
        Ok(())
    }

    fn run_callback(
        &mut self,
        line: &mut Line<R, C, Unkept, Note>,
        number: u64,
        id: u64,
        value: &mut Option<Note>,
        now: u64,
    ) -> Handled {
        self.note(number, value);
        Ok(())
    }
}

// Messages 0 to 3: a note for the moment 30, one for 10, one with a callback between them, and one without a note behind them. Then it quits
// safely at 100.
fn begin<R: Wait, C: Clock>(
    mailbox: &Mailbox<R, C, Unkept, Note>,
    mut senders: Senders<Unkept, Note>,
)
    requires { AreSenders mailbox.now.queue.now mailbox.now.pool.now senders × (0 < length senders.posters.items) }
{
    let mut sender = senders.next(mailbox);
    let mut line = sender.line(mailbox);
    line.send_value_delayed(READER.obtain(0, 0), Note { digit: 7 }, 30);
    line.send_value_at(READER.obtain(0, 0), Note { digit: 8 }, 10);
    line.send_value_at(READER.runnable(5), Note { digit: 9 }, 20);
    line.send_at(READER.obtain(0, 0), 40);
    line.quit_safely();
}

#[test]
fn a_value_comes_with_the_number_of_its_message(rt: HostRuntime) -> Result<(), Fail> {
    let alloc = rt.alloc();
    let clock = StepClock::new(100);
    let Opened {
        parts,
        mut looper,
        senders,
    } = open_for_values(alloc, Settings::new(1))?;
    let mailbox = parts.mailbox(&rt, alloc, &clock);
    begin(&mailbox, senders);
    let reader = run_value_looper(&mailbox, &mut looper, Reader { told: 0 })?;
    assert!(rt; reader.told == 18290730);
    Ok(())
}

// Sends a note for later, and takes it back. Its digit, where it comes back.
fn removed<R: Wait, C: Clock>(line: &mut Line<R, C, Unkept, Note>) -> u64
    requires { IsReady (way_of line.old) }
    ensures { IsReady (way_of line.new) }
{
    line.send_value_delayed(READER.obtain(1, 0), Note { digit: 4 }, 900);
    let Ok(mut values) = line.remove_values(READER.messages(1)) else {
        return 0;
    };
    match line.next_value(&mut values) {
        Some(note) => note.digit,
        None => 0,
    }
}

// Quits, and sends a note. Its digit, where it is handed back.
fn refused<R: Wait, C: Clock>(line: &mut Line<R, C, Unkept, Note>) -> u64
    requires { IsReady (way_of line.old) }
{
    line.quit();
    match line.send_value(READER.obtain(0, 0), Note { digit: 6 }) {
        SentWith::Refused { place: _, value } => value.digit,
        SentWith::Accepted { number: _, wake: _ } => 0,
        SentWith::Full { value: _ } => 0,
        SentWith::NoMemory { value: _ } => 0,
    }
}

// Takes a note back, and has one refused. The digits of what comes back.
fn handed_back<R: Wait, C: Clock>(
    mailbox: &Mailbox<R, C, Unkept, Note>,
    mut senders: Senders<Unkept, Note>,
) -> (u64, u64)
    requires { AreSenders mailbox.now.queue.now mailbox.now.pool.now senders × (0 < length senders.posters.items) }
{
    let mut sender = senders.next(mailbox);
    let mut line = sender.line(mailbox);
    let first = removed(&mut line);
    let second = refused(&mut line);
    (first, second)
}

#[test]
fn a_value_that_is_removed_or_refused_comes_back(rt: HostRuntime) -> Result<(), Fail> {
    let alloc = rt.alloc();
    let clock = StepClock::new(1);
    let Opened {
        parts,
        looper,
        senders,
    } = open_for_values(alloc, Settings::new(1))?;
    let mailbox = parts.mailbox(&rt, alloc, &clock);
    assert!(rt; handed_back(&mailbox, senders) == (4, 6));
    Ok(())
}
