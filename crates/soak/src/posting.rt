//! What the posting threads do, and the handler.
ghost use Rattle.handler_post.specs.Ways.{IsReady};
ghost use Rattle.plain_loop.specs.Lines.{KeepsLine, way_of};
ghost use Rattle.plain_loop.specs.Senders.{IsSender};

use crate::calls::{Soaked, Window, begin};
use handler_post::{Erased, Handler, Sent};
use loop_io::Clock;
use loop_model::NoMemory;
use plain_loop::{Handle, Handled, Line, Mailbox, Msg, Sender};
use queue_state::Recorder;
use std::sync::Wait;
use std::time;

/// The one handler.
const POSTS: Handler = Handler {
    id: 0,
    asynchronous: false,
};

/// The `what` of a message that the handler posts itself, of one of a thread, and one that is never posted.
pub const OWN: u32 = 1;

pub const THEIRS: u32 = 2;

const NEVER: u32 = 3;

/// A removal that matches nothing comes with each so many posts.
const POSTS_A_REMOVAL: u64 = 16;

/// A handler that posts its message again, due at once, each time that it comes.
#[derive(Drop)]
pub struct Again<'a> {
    pub window: &'a Window,
    pub soaked: Soaked,
}

impl<'a, R: Wait + time::Clock, C: Clock, E: Recorder> Handle<R, C, E> for Again<'a> {
    fn handle(&mut self, line: &mut Line<R, C, E>, message: &Msg, now: u64) -> Handled {
        self.soaked.handled = self.soaked.handled.saturating_add(1);
        if message.what() == OWN {
            return post(line, OWN, &mut self.soaked);
        }
        self.window.leave(line.rt);
        Ok(())
    }
}

/// Posts a message that is due at once, and counts it where it is refused.
pub fn post<R: Wait + time::Clock, C: Clock, E: Recorder>(
    line: &mut Line<R, C, E>,
    what: u32,
    soaked: &mut Soaked,
) -> Handled
    requires { IsReady (way_of line.old) }
    ensures keeps { KeepsLine (way_of line.old) (way_of line.new) }
{
    let began = begin(line.rt);
    let sent = line.send(POSTS.obtain(what, 0));
    soaked.hear(line.rt, began);
    match sent {
        Sent::Accepted { .. } => Ok(()),
        Sent::Refused { .. } => {
            soaked.refused = soaked.refused.saturating_add(1);
            Ok(())
        }
        Sent::NoMemory => Err(NoMemory),
    }
}

/// Makes a removal that matches nothing.
fn remove<R: Wait + time::Clock, C: Clock, E: Recorder>(
    line: &mut Line<R, C, E>,
    soaked: &mut Soaked,
) -> Handled
    requires { IsReady (way_of line.old) }
    ensures keeps { KeepsLine (way_of line.old) (way_of line.new) }
{
    let began = begin(line.rt);
    let erased = line.remove(POSTS.messages(NEVER));
    soaked.hear(line.rt, began);
    soaked.removals = soaked.removals.saturating_add(1);
    match erased {
        Erased::Removed { .. } => Ok(()),
        Erased::NoMemory => Err(NoMemory),
    }
}

/// Posts so many messages, each as soon as there is room, and now and then removes nothing. Answers what it did.
pub fn post_many<R: Wait + time::Clock, C: Clock, E: Recorder>(
    mailbox: &Mailbox<R, C, E>,
    window: &Window,
    mut sender: Sender<E>,
    posts: u64,
) -> Result<Soaked, NoMemory>
    requires { IsSender mailbox.now.queue.now mailbox.now.pool.now sender }
{
    let mut line = sender.line(mailbox);
    let mut soaked = Soaked::none();
    for number in 0..posts {
        window.enter(mailbox.rt);
        post(&mut line, THEIRS, &mut soaked)?;
        if number % POSTS_A_REMOVAL == 0 {
            remove(&mut line, &mut soaked)?;
        }
    }
    Ok(soaked)
}

/// Quits, and then makes so many posts, each with a removal. Answers what it did.
pub fn post_in_vain<R: Wait + time::Clock, C: Clock, E: Recorder>(
    mailbox: &Mailbox<R, C, E>,
    mut sender: Sender<E>,
    posts: u64,
) -> Result<Soaked, NoMemory>
    requires { IsSender mailbox.now.queue.now mailbox.now.pool.now sender }
{
    let mut line = sender.line(mailbox);
    let mut soaked = Soaked::none();
    line.quit();
    for _ in 0..posts {
        post(&mut line, THEIRS, &mut soaked)?;
        remove(&mut line, &mut soaked)?;
    }
    Ok(soaked)
}
