//! What the words of a line say.
ghost use Rattle.std.specs.Prelude.{◌≡◌};
ghost use Rattle.line_words.specs.Taking.{read};
ghost use Rattle.line_words.specs.Words.{words};
ghost use Rattle.trace_check.specs.Reading.{call, call_by, entry, filter, head, kind, kind_by, line_of, post, quit, reply, reply_by, title};

use crate::line::{Head, TraceLine};
use line_words::Words;
use loop_model::{Call, Entry, Filter, Kind, Post, Reply};

#[tactic(auto, unfolding(crate::specs::Reading::post))]
fn post(words: &mut Words) -> Option<Post>
    ensures { read result words.new ≡ post words.old }
{
    let handler = words.short()?;
    let what = words.short()?;
    let arg = words.short()?;
    let obj = words.maybe_long()?;
    let callback = words.maybe_long()?;
    let when = words.long()?;
    let asynchronous = words.either(b"a", b"s")?;
    let slot = words.maybe_short()?;
    Some(Post {
        handler,
        what,
        arg,
        obj,
        callback,
        when,
        asynchronous,
        slot,
    })
}

/// Which messages a removal takes, behind the word that names their kind.
fn kind_by(word: &[u8], words: &mut Words) -> Option<Kind>
    ensures { read result words.new ≡ kind_by word.now words.old }
{
    if word == b"what".as_slice() {
        return Some(Kind::What(words.short()?));
    }
    if word == b"callback".as_slice() {
        return Some(Kind::Callback(words.long()?));
    }
    if word == b"all".as_slice() {
        return Some(Kind::All);
    }
    None
}

#[tactic(auto, unfolding(crate::specs::Reading::filter, crate::specs::Reading::kind))]
fn filter(words: &mut Words) -> Option<Filter>
    ensures { read result words.new ≡ filter words.old }
{
    let handler = words.short()?;
    let kind = words.next()?;
    let kind = kind_by(kind, words)?;
    let obj = words.maybe_long()?;
    Some(Filter { handler, kind, obj })
}

#[tactic(auto, unfolding(crate::specs::Reading::quit))]
fn quit(words: &mut Words) -> Option<Call>
    ensures { read result words.new ≡ quit words.old }
{
    let safe = words.either(b"safe", b"plain")?;
    let now = words.long()?;
    Some(Call::Quit { safe, now })
}

/// The call that this word names.
fn call_by(word: &[u8], words: &mut Words) -> Option<Call>
    ensures { read result words.new ≡ call_by word.now words.old }
{
    if word == b"post".as_slice() {
        return Some(Call::Post(post(words)?));
    }
    if word == b"barrier".as_slice() {
        let now = words.long()?;
        return Some(Call::Barrier { now });
    }
    if word == b"unbarrier".as_slice() {
        let token = words.long()?;
        return Some(Call::Unbarrier { token });
    }
    if word == b"remove".as_slice() {
        return Some(Call::Remove(filter(words)?));
    }
    if word == b"quit".as_slice() {
        return quit(words);
    }
    if word == b"next".as_slice() {
        let now = words.long()?;
        return Some(Call::Next { now });
    }
    if word == b"advance".as_slice() {
        let now = words.long()?;
        return Some(Call::Advance { now });
    }
    if word == b"halt".as_slice() {
        let now = words.long()?;
        return Some(Call::Halt { now });
    }
    None
}

/// The reply that this word names.
fn reply_by(word: &[u8], words: &mut Words) -> Option<Reply>
    ensures { read result words.new ≡ reply_by word.now words.old }
{
    if word == b"accepted".as_slice() {
        let number = words.long()?;
        return Some(Reply::Accepted { number });
    }
    if word == b"refused".as_slice() {
        let place = words.long()?;
        return Some(Reply::Refused { place });
    }
    if word == b"token".as_slice() {
        let token = words.long()?;
        return Some(Reply::Token { token });
    }
    if word == b"unbarriered".as_slice() {
        return Some(Reply::Unbarriered);
    }
    if word == b"not-posted".as_slice() {
        return Some(Reply::NotPosted);
    }
    if word == b"removed".as_slice() {
        let count = words.long()?;
        return Some(Reply::Removed { count });
    }
    if word == b"quit-done".as_slice() {
        return Some(Reply::QuitDone);
    }
    if word == b"already-quit".as_slice() {
        let place = words.long()?;
        return Some(Reply::AlreadyQuit { place });
    }
    if word == b"not-allowed".as_slice() {
        return Some(Reply::NotAllowed);
    }
    if word == b"dispatched".as_slice() {
        let number = words.long()?;
        return Some(Reply::Dispatched { number });
    }
    if word == b"disposed".as_slice() {
        return Some(Reply::Disposed);
    }
    if word == b"advanced".as_slice() {
        return Some(Reply::Advanced);
    }
    if word == b"halted".as_slice() {
        return Some(Reply::Halted);
    }
    None
}

#[tactic(auto, unfolding(crate::specs::Reading::entry, crate::specs::Reading::call, crate::specs::Reading::reply))]
fn entry(words: &mut Words) -> Option<Entry>
    ensures { read result words.new ≡ entry words.old }
{
    let sender = words.short()?;
    let seq = words.long()?;
    let call = words.next()?;
    let call = call_by(call, words)?;
    let reply = words.next()?;
    let reply = reply_by(reply, words)?;
    Some(Entry {
        sender,
        seq,
        call,
        reply,
    })
}

#[tactic(auto, unfolding(crate::specs::Reading::head))]
fn head(words: &mut Words) -> Option<Head>
    ensures { read result words.new ≡ head words.old }
{
    let looper = words.short()?;
    let main = words.either(b"main", b"side")?;
    let lockstep = words.either(b"lockstep", b"free")?;
    let senders = words.short()?;
    let count = words.long()?;
    Some(Head {
        looper,
        main,
        lockstep,
        senders,
        count,
    })
}

/// The first line, which names edition 1.
#[tactic(auto, unfolding(crate::specs::Reading::title))]
fn title(words: &mut Words) -> Option<TraceLine>
    ensures { read result words.new ≡ title words.old }
{
    let edition = words.long()?;
    if edition == 1 {
        Some(TraceLine::Title)
    } else {
        None
    }
}

/// What a line says, without its line feed: one that begins with none of these words is that of an entry.
#[tactic(auto, unfolding(crate::specs::Reading::line_of))]
pub(crate) fn line_of(bytes: &[u8]) -> Option<TraceLine>
    ensures { result ≡ line_of (words bytes.now) }
{
    let mut words = Words::new(bytes);
    let first = words.next()?;
    if first == b"trace".as_slice() {
        let title = title(&mut words)?;
        return words.whole(title);
    }
    if first == b"queue".as_slice() {
        let head = head(&mut words)?;
        return words.whole(TraceLine::Queue(head));
    }
    if first == b"end".as_slice() {
        return words.whole(TraceLine::End);
    }
    let mut words = Words::new(bytes);
    let entry = entry(&mut words)?;
    words.whole(TraceLine::Entry(entry))
}
