//! Sends of messages that carry a value.
ghost use Rattle.std.specs.Prelude.{◌≡◌, IfOk, IfErr};
ghost use Rattle.message_pool.specs.Obtain.{IsNodeOf, IsReturned};
ghost use Rattle.message_pool.specs.Values.{content_of, content_in};
ghost use Rattle.handler_post.specs.Ways.{IsReady, ByWay};
ghost use Rattle.handler_post.specs.Supply.{NoneWasFree};
ghost use Rattle.handler_post.specs.Values.{IsLoaded, SendsWith};

use crate::way::Way;
use loop_model::Post;
use message_pool::{Obtained, Payload, Pool, PoolNode, PoolPass, put_value, take_value};
use queue_state::{Posted, Recorder};
use std::alloc::Global;
use std::sync::Wait;

/// How a sending with a value ended.
#[derive(Debug, Drop)]
pub enum SentWith<P: Payload> {
    /// It is the accepted message of this number, counted from 0. Where `wake` is true a waiting looper has to look again.
    Accepted { number: u64, wake: bool },
    /// The queue was quitting, by the entry at this place of its history. The message was recycled, and the value is handed back.
    Refused { place: u64, value: P },
    /// No slot of the pool was free, or fifty claims were lost: as many messages with a slot are under way as there are slots. The value
    /// is handed back.
    Full { value: P },
    /// The entry found no memory. The message was recycled, no entry was made, and the value is handed back.
    NoMemory { value: P },
}

// A message of a slot with these fields and this value; the value itself where no slot was to be had.
fn message_with<P: Payload>(
    alloc: Global,
    pool: &Pool<P>,
    pass: &mut PoolPass<P>,
    post: &Post,
    value: P,
) -> Result<PoolNode<P>, P>
    requires { pass.old.home ≡ pool.now }
    ensures home { pass.new.home ≡ pool.now }
    ensures node { IfOk result (IsLoaded pool.now post.now (P.content value) pass.old pass.new) }
    ensures back { IfErr result (λ v. NoneWasFree pass.old pass.new × (v ≡ value)) }
{
    let Obtained::Pooled(mut node) = pool.obtain(alloc, pass) else {
        return Err(value);
    };
    match put_value(node.item_mut(), value) {
        Ok(()) => {
            node.item_mut().set_post(post);
            Ok(node)
        }
        Err(value) => Err(value),
    }
}

/// Takes the value out of a message of the pool, and recycles the message; None where it carries none. So what was removed or dropped can
/// be handed back (this project's profile).
pub fn recycle_with<P: Payload>(
    pool: &Pool<P>,
    pass: &mut PoolPass<P>,
    mut node: PoolNode<P>,
) -> Option<P>
    requires pass { pass.old.home ≡ pool.now }
    requires node { IsNodeOf pool.now node }
    ensures home { pass.new.home ≡ pool.now }
    ensures value { content_of P.content result ≡ content_in node.claim }
    ensures back { IsReturned node.claim pass.old pass.new }
{
    let value = take_value(node.item_mut());
    pool.recycle(pass, node);
    value
}

impl<'a, E: Recorder, P: Payload> Way<'a, E, P> {
    /// Posts this with a value, which moves into the message, whatever handler it names. It is handed back where the queue doesn't keep
    /// the message (`sendMessage` of a `Message` with an `obj`; that it takes a slot of the pool is this project's profile).
    pub fn send_with<R: Wait>(
        &mut self,
        rt: &R,
        alloc: Global,
        post: &Post,
        value: P,
    ) -> SentWith<P>
        requires { IsReady self.old }
        ensures { ByWay (SendsWith P.content post.now value) self.old self.new result }
    {
        let node = match message_with(alloc, self.pool, self.pass, post, value) {
            Ok(node) => node,
            Err(value) => return SentWith::Full { value },
        };
        match self.poster.post(rt, self.queue, node) {
            Posted::Accepted { number, wake } => SentWith::Accepted { number, wake },
            Posted::Refused { place, node } => {
                let Some(value) = recycle_with(self.pool, self.pass, node) else {
                    unreachable!()
                };
                SentWith::Refused { place, value }
            }
            Posted::NoMemory(node) => {
                let Some(value) = recycle_with(self.pool, self.pass, node) else {
                    unreachable!()
                };
                SentWith::NoMemory { value }
            }
        }
    }
}
