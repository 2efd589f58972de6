//! Messages from a pool, and back to it.
ghost use Rattle.std.specs.Prelude.{◌≡◌, All, MatchOption};
ghost use Rattle.message_pool.specs.Obtain.{IsNodeOf};
ghost use Rattle.handler_post.specs.Supply.{IsObtained, NoneWasFree, BringsBack};

use loop_model::Post;
use message_list::NodeList;
use message_pool::{Obtained, Payload, Pool, PoolClaim, PoolNode, PoolPass};
use message_slot::Message;
use std::alloc::Global;

/// A message with these fields, and a slot if one is to be had; `None` where a new one found no memory.
pub(crate) fn message_of<P: Payload>(
    alloc: Global,
    pool: &Pool<P>,
    pass: &mut PoolPass<P>,
    post: &Post,
) -> Option<PoolNode<P>>
    requires { pass.old.home ≡ pool.now }
    ensures home { pass.new.home ≡ pool.now }
    ensures node { MatchOption result (NoneWasFree pass.old pass.new) (IsObtained pool.now post.now pass.old pass.new) }
{
    let mut node = match pool.obtain(alloc, pass) {
        Obtained::Pooled(node) => node,
        Obtained::Fresh { node, .. } => node,
        Obtained::NoMemory => return None,
    };
    node.item_mut().set_post(post);
    Some(node)
}

/// Recycles all these messages, which are of the pool (`recycle` of AOSP's `Message`).
pub fn recycle_all<P: Payload>(
    pool: &Pool<P>,
    pass: &mut PoolPass<P>,
    mut nodes: NodeList<Message<PoolClaim<P>>>,
)
    requires pass { pass.old.home ≡ pool.now }
    requires nodes { All (IsNodeOf pool.now) nodes }
    ensures home { pass.new.home ≡ pool.now }
    ensures back { BringsBack nodes pass.old pass.new }
{
    while let Some(node) = nodes.pop_front() {
        pool.recycle(pass, node);
    }
}
