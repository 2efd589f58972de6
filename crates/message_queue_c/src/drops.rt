// Lists of messages that were dropped.
ghost use Rattle.std.specs.Prelude.{◌≡◌, ◌+◌, ◌<◌, ◌^◌, ◌++◌, [], length};
ghost use Rattle.message_queue_c.specs.Joined.{joined};

use message_list::NodeList;
use message_slot::NoClaim;
use std::alloc::Global;
use std::mem;
use when_queue::MsgList;

/// Puts these behind those.
pub(crate) fn join(those: &mut MsgList<NoClaim>, these: MsgList<NoClaim>)
    ensures { those.new ≡ joined those.old these }
{
    if those.len() == 0 || those.len().checked_add(these.len()).is_none() {
        drop(mem::replace(those, these));
        return;
    }
    append(those, these);
}

/// Puts these behind those, one by one.
fn append(those: &mut MsgList<NoClaim>, mut these: MsgList<NoClaim>)
    requires { length those.old + length these < 2 ^ 64 }
    ensures { those.new ≡ those.old ++ these }
{
    while let Some(node) = these.pop_front() {
        those.insert_at(those.len(), node);
    }
}

/// Lets go of all.
pub(crate) fn emptied(alloc: Global, those: &mut MsgList<NoClaim>)
    ensures { those.new ≡ [] }
{
    drop(mem::replace(those, NodeList::empty(alloc)));
}
