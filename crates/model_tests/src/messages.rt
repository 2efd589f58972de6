ghost use Rattle.std.specs.Prelude.{◌≡◌, ℕ, Some};
ghost use Rattle.message_slot.specs.Letter.{IsAtHome};

use loop_model::Post;
use message_slot::{Claim, Message};
use std::test::Fail;

// A claim on a slot, which tells nothing of a pool.
#[derive(Drop)]
struct Ticket(u32);

impl Claim for Ticket {
    type Home = ();

    ghost use Rattle.std.specs.Prelude.{Some};

    ghost home = { λ _. tt };

    ghost number = { λ t. Some t.0 };

    fn slot(&self) -> Option<u32> {
        Some(self.0)
    }
}

const POST: Post = Post {
    handler: 3,
    what: 4,
    arg: 5,
    obj: Some(6),
    callback: Some(7),
    when: 8,
    asynchronous: true,
    slot: Some(9),
};

#[test]
fn a_post_has_the_slot_of_its_claim_and_a_barrier_no_handler(rt: HostRuntime) -> Result<(), Fail> {
    let mut m = Message::blank();
    m.set_post(&POST);
    assert!(rt; m.handler() == Some(3) && m.what() == 4 && m.arg() == 5);
    assert!(rt; m.obj() == Some(6) && m.callback() == Some(7));
    assert!(rt; m.when() == 8 && m.asynchronous() && m.token() == 0);
    assert!(rt; m.slot().is_none());
    assert!(rt; m.put_claim(Ticket(2)).is_none());
    assert!(rt; m.slot() == Some(2));
    assert!(rt;
        m.as_post()
            == Post {
                slot: Some(2),
                ..POST
            }
    );
    m.set_number(4);
    assert!(rt; m.number() == 4 && m.slot() == Some(2));
    let before = m.put_claim(Ticket(1));
    assert!(rt; before.is_some_and(|t| t.0 == 2));
    m.clear();
    assert!(rt; m.slot() == Some(1) && m.handler().is_none() && m.number() == 0);
    let taken = m.take_claim();
    assert!(rt; taken.is_some_and(|t| t.0 == 1));
    m.set_barrier(11, 12);
    assert!(rt; m.handler().is_none() && m.when() == 11 && m.token() == 12 && m.slot().is_none());
    Ok(())
}

// A cleared message is of each home, and so is a post of a message without a claim.
fn posted<K: Claim + Drop>(home: K::Home, p: &Post) -> (Message<K>, K::Home)
    ensures { IsAtHome K.home result.1 result.0 × (result.1 ≡ home) }
{
    let mut m = Message::blank();
    m.set_post(p);
    (m, home)
}
