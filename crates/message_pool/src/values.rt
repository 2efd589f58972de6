//! The value that a message of a pool carries.
ghost use Rattle.std.specs.Prelude.{◌≡◌, Some, None, OnOk, OnErr, IfErr, is_some, true};
ghost use Rattle.message_pool.specs.Values.{content_of, content_in, with_content, without_value};

use crate::claim::PoolClaim;
use crate::payload::Payload;
use message_slot::Message;

/// Puts a value into a message that has a slot; one that stood there before is dropped. A message without a slot carries no value:
/// then the value is handed back, and the message stays as it is (this project's profile).
pub fn put_value<P: Payload>(message: &mut Message<PoolClaim<P>>, value: P) -> Result<(), P>
    ensures put { OnOk result (message.new ≡ with_content (Some (P.content value)) message.old) }
    ensures slot { OnOk result (is_some message.old.claim ≡ true) }
    ensures back { IfErr result (λ v. v ≡ value) }
    ensures same { OnErr result ((message.old.claim ≡ None) × (message.new ≡ message.old)) }
{
    let _slot = message.slot();
    let Some(mut claim) = message.take_claim() else {
        return Err(value);
    };
    claim.value = Some(value);
    message.put_claim(claim);
    Ok(())
}

/// Takes the value out of a message, and leaves all else of it as it is. None where it carries none (this project's profile).
pub fn take_value<P: Payload>(message: &mut Message<PoolClaim<P>>) -> Option<P>
    ensures value { content_of P.content result ≡ content_in message.old.claim }
    ensures gone { content_in message.new.claim ≡ None }
    ensures rest { without_value message.new ≡ without_value message.old }
{
    let _slot = message.slot();
    let Some(mut claim) = message.take_claim() else {
        return None;
    };
    let value = claim.value.take();
    message.put_claim(claim);
    value
}
