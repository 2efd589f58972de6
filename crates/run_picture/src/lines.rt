//! What the words of a line say, by its first word.
ghost use Rattle.std.specs.Prelude.{◌≡◌};
ghost use Rattle.line_words.specs.Words.{words};
ghost use Rattle.line_words.specs.Taking.{by_word, read};
ghost use Rattle.run_picture.specs.Reading.{callback, subject};
ghost use Rattle.run_picture.specs.Lines as says;
ghost use Rattle.run_picture.specs.Lines.{line_of, rows, fates_of};

use crate::line::ReportLine;
use crate::report::{Act, Fates, Past, Run, Subject};
use line_words::{Words, number};

/// A callback's number behind the word `callback`, which was taken.
fn callback(word: &[u8], words: &mut Words) -> Option<Subject>
    ensures { read result words.new ≡ callback word.now words.old }
{
    if word == b"callback".as_slice() {
        Some(Subject::Callback(words.long()?))
    } else {
        None
    }
}

/// A message by its `what`, or by its callback.
#[tactic(auto, unfolding(crate::specs::Reading::subject))]
fn subject(words: &mut Words) -> Option<Subject>
    ensures { read result words.new ≡ subject words.old }
{
    let word = words.next()?;
    match number(word) {
        Some(what) => match u32::try_from(what) {
            Ok(what) => Some(Subject::What(what)),
            Err(_) => None,
        },
        None => callback(word, words),
    }
}

/// The line of a dispatch at this time.
#[tactic(auto, unfolding(crate::specs::Lines::dispatch))]
fn dispatch(now: u64, words: &mut Words) -> Option<ReportLine>
    ensures { result ≡ says.dispatch now words.old }
{
    let number = words.counted(b"dispatch")?;
    let handler = words.short()?;
    let subject = subject(words)?;
    words.whole(ReportLine::Past(Past::Dispatch {
        now,
        number,
        handler,
        subject,
    }))
}

#[tactic(auto, unfolding(crate::specs::Lines::refused_line))]
fn refused(words: &mut Words) -> Option<ReportLine>
    ensures { result ≡ says.refused_line words.old }
{
    let handler = words.short()?;
    let subject = subject(words)?;
    let place = words.counted(b"quit")?;
    words.whole(ReportLine::Past(Past::Refused {
        handler,
        subject,
        place,
    }))
}

/// The counts of the fates, whether or not they add up.
#[tactic(auto, unfolding(crate::specs::Lines::fates_of))]
fn fates_of(words: &mut Words) -> Option<Fates>
    ensures { read result words.new ≡ fates_of words.old }
{
    let accepted = words.counted(b"accepted")?;
    let dispatched = words.counted(b"dispatched")?;
    let removed = words.counted(b"removed")?;
    let dropped = words.counted(b"dropped")?;
    let stranded = words.counted(b"stranded")?;
    let queued = words.counted(b"queued")?;
    Some(Fates {
        accepted,
        dispatched,
        removed,
        dropped,
        stranded,
        queued,
    })
}

/// Whether the accepted posts are the sum of the others.
fn adds_up(fates: &Fates) -> bool
    ensures { result ≡ says.adds_up fates.now }
{
    let sum = u128::from(fates.dispatched)
        + u128::from(fates.removed)
        + u128::from(fates.dropped)
        + u128::from(fates.stranded)
        + u128::from(fates.queued);
    u128::from(fates.accepted) == sum
}

#[tactic(auto, unfolding(crate::specs::Lines::fates_said))]
fn fates(words: &mut Words) -> Option<ReportLine>
    ensures { result ≡ says.fates_said words.old }
{
    let fates = fates_of(words)?;
    if adds_up(&fates) {
        words.whole(ReportLine::Fates(fates))
    } else {
        None
    }
}

#[tactic(auto, unfolding(crate::specs::Lines::title))]
fn title(words: &mut Words) -> Option<ReportLine>
    ensures { result ≡ says.title words.old }
{
    let edition = words.short()?;
    if edition == 1 {
        return words.whole(ReportLine::Title(edition));
    }
    if edition == 2 {
        return words.whole(ReportLine::Title(edition));
    }
    None
}

/// A line that begins with this word.
fn named(word: &[u8], words: &mut Words) -> Option<ReportLine>
    ensures { result ≡ by_word rows word.now words.old }
{
    if word == b"refused".as_slice() {
        return refused(words);
    }
    if word == b"not-posted".as_slice() {
        let token = words.long()?;
        return words.whole(ReportLine::Past(Past::NotPosted { token }));
    }
    if word == b"not-allowed".as_slice() {
        return words.whole(ReportLine::Past(Past::NotAllowed));
    }
    if word == b"already-quit".as_slice() {
        let place = words.long()?;
        return words.whole(ReportLine::Past(Past::AlreadyQuit { place }));
    }
    if word == b"fates".as_slice() {
        return fates(words);
    }
    if word == b"idle".as_slice() {
        let id = words.short()?;
        return words.whole(ReportLine::Act(Act::Idle { id }));
    }
    if word == b"event".as_slice() {
        let fd = words.short()?;
        let events = words.short()?;
        return words.whole(ReportLine::Act(Act::Event { fd, events }));
    }
    if word == b"paint".as_slice() {
        let gauge = words.short()?;
        let value = words.short()?;
        return words.whole(ReportLine::Act(Act::Paint { gauge, value }));
    }
    if word == b"frame".as_slice() {
        let time = words.long()?;
        return words.whole(ReportLine::Frame(time));
    }
    if word == b"run".as_slice() {
        let phase = words.short()?;
        let id = words.long()?;
        return words.whole(ReportLine::Run(Run { phase, id }));
    }
    if word == b"looper".as_slice() {
        let number = words.long()?;
        return words.whole(ReportLine::Looper(number));
    }
    if word == b"report".as_slice() {
        return title(words);
    }
    if word == b"end".as_slice() {
        return words.whole(ReportLine::End);
    }
    None
}

/// What a line says, without its line feed. Only that of a dispatch begins with a number.
#[tactic(auto, unfolding(crate::specs::Lines::line_of))]
pub(crate) fn line_of(line: &[u8]) -> Option<ReportLine>
    ensures { result ≡ line_of (words line.now) }
{
    let mut words = Words::new(line);
    let first = words.next()?;
    match number(first) {
        Some(now) => dispatch(now, &mut words),
        None => named(first, &mut words),
    }
}
