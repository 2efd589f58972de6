// Blocks that are kept for messages and barriers to come.
ghost use Rattle.std.specs.Prelude.{◌≡◌, ◌≤◌, ◌+◌, ◌<◌, ◌^◌, true, MatchResult};
ghost use Rattle.message_queue_c.specs.Blocks.{no_blocks, with_one, without_one, Uses};

use message_list::{NodeList, new_node};
use message_slot::{Message, NoClaim};
use std::alloc::Global;
use std::marker::Model;
use std::mem;
use when_queue::{MsgList, MsgNode};

/// Nodes of messages that went, up to so many as are wanted.
#[derive(Drop)]
pub(crate) struct Spares {
    nodes: MsgList<NoClaim>,
    wanted: usize,
}

impl Model for Spares {
    ghost use Rattle.std.specs.Prelude.{length};
    ghost use Rattle.message_queue_c.specs.Blocks.{Blocks};

    ghost Value = { Blocks };

    ghost view = { λ s. record { kept = length s.nodes; wanted = s.wanted } };
}

impl Spares {
    pub(crate) fn none(alloc: Global) -> Spares
        ensures { result ≡ no_blocks }
    {
        Spares {
            nodes: NodeList::empty(alloc),
            wanted: 0,
        }
    }

    /// A node with this letter: one that was kept, or else a new one. When out of memory the letter comes back.
    #[inline(never)]
    pub(crate) fn node(
        &mut self,
        alloc: Global,
        letter: Message<NoClaim>,
    ) -> Result<MsgNode<NoClaim>, Message<NoClaim>>
        ensures letter { MatchResult result (λ n. n ≡ letter) (λ x. x ≡ letter) }
        ensures blocks { self.new ≡ without_one self.old }
    {
        match self.nodes.pop_front() {
            Some(mut node) => {
                drop(mem::replace(node.item_mut(), letter));
                Ok(node)
            }
            None => new_node(alloc, letter),
        }
    }

    /// Keeps the node, or lets go of it where so many as are wanted are kept.
    pub(crate) fn keep(&mut self, node: MsgNode<NoClaim>)
        ensures kept { self.new ≡ with_one self.old }
        ensures blocks { Uses 0 self.old self.new }
    {
        if self.nodes.len() < self.wanted {
            self.put(node);
        }
    }

    #[inline(never)]
    fn put(&mut self, node: MsgNode<NoClaim>)
        requires { self.old.kept + 1 < 2 ^ 64 }
        ensures { self.new ≡ record self.old { kept = self.old.kept + 1 } }
    {
        self.nodes.insert_at(0, node);
    }

    /// So many are wanted, and are made. False where there is no memory for all.
    pub(crate) fn reserve(&mut self, alloc: Global, count: u64) -> bool
        ensures wanted { self.new.wanted ≡ count }
        ensures kept { result ≡ true → count ≤ self.new.kept }
    {
        self.wanted = count as usize;
        for _ in 0..count {
            if self.nodes.len() >= self.wanted {
                break;
            }
            match new_node(alloc, Message::blank()) {
                Ok(node) => self.keep(node),
                Err(_) => break,
            }
        }
        self.nodes.len() as u64 >= count
    }

    /// None are kept any more.
    pub(crate) fn free(&mut self, alloc: Global)
        ensures { self.new ≡ no_blocks }
    {
        drop(mem::replace(self, Spares::none(alloc)));
    }
}
