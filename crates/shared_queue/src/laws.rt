// A law of posters, for whoever builds on them. The function does nothing; its contract is the law.
ghost use Rattle.shared_queue.specs.Laws.{TakenIsPosted};

use message_slot::Claim;

/// A message that is taken out with a number holds the claim of the message that was accepted with that number, whichever
/// posters posted it and took it out (this project's profile).
pub fn taken_is_posted<K: Claim>()
    ensures { TakenIsPosted K.Home K }
{}
