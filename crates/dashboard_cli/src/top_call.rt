// The top call: the words, then the reading, then the work, then the writing.
ghost use Rattle.std.specs.Prelude.{◌≡◌, ◌≢◌, IsTrue, None};
ghost use Rattle.loop_io.specs.Causes.{Rose};
ghost use Rattle.dashboard_cli.specs.Answers.{is_refusal, writes_nothing, AllOf, Completes, CountsReads, CountsWrites, IsCommandWith, IsRefused, IsTooLong};
ghost use Rattle.dashboard_cli.specs.Answers.{ReadsAtMost, WritesWholeAtOk, WritesFrontAtFault, returned};
ghost use Rattle.dashboard_cli.specs.Words.{work, texts, IsListed};
ghost use Rattle.dashboard_cli.specs.Works.{nothing_returned};

use crate::making::{Returned, produce};
use crate::status::Status;
use crate::words::read_words;
use crate::writing::write_whole;
use frame_phases::FrameRecord;
use inbox_queue::InboxReport;
use loop_io::{Clock, Failed, Gate, Sink, Source};
use loop_model::NoMemory;
use run_model::Report;
use std::alloc::Global;
use std::sync::Wait;
use std::thread::Threads;
use std::time;

/// How the program ended, and the report or the frames of a run whose text was made.
#[derive(Debug, Drop)]
pub struct Outcome {
    /// How it ended.
    pub status: Status,
    /// It is there for `run`, with `--free` or without, for `trace`, and for `make` with `--run`, at `Ok` and at `WriteFault`.
    pub report: Option<Report>,
    /// The frames in which values were told. They are there for `animate`, at `Ok` and at `WriteFault`.
    pub frames: Option<FrameRecord>,
    /// What came of a run through an inbox. It is there for `inbox`, at `Ok` and at `WriteFault`.
    pub inbox: Option<InboxReport>,
}

/// Does all that the program does. The words are those after the program's name.
///
/// | Words | What it does |
/// |---|---|
/// | `run` | reads a script, runs it in lockstep, writes the report |
/// | `run --free` | reads a script, runs it by the clock, writes the report |
/// | `text` | reads a script, writes it |
/// | `text --to 2` | reads a script, writes it as one of edition 2 |
/// | `make N` | writes the script that the generator makes from N |
/// | `make N --run`, `make --run N` | makes it, runs it in lockstep, writes the summary |
/// | `trace` | reads a script, runs it in lockstep, writes the histories of its queues |
/// | `check` | reads histories of queues, writes `legal`, or the first queue that isn't and its first bad entry |
/// | `animate` | reads a plan of values, runs it over frames, writes what is told |
/// | `inbox` | reads a script, runs it with an inbox between the threads and the main looper, writes what came of it |
///
/// N is a decimal below 2 to the 32 without leading zeros. It looks for faults in this order: the words (`Usage`), the
/// reading (`ReadFault`, `TooLong`), the script or the plan (`Script`) or the histories (`Trace`), the writing (`WriteFault`).
/// `NoMemory` comes where it is met. The text is made whole before the first write.
pub fn dashboard<
    R: Threads + Wait + time::Clock + Sync,
    S: Source,
    K: Sink,
    C: Clock + Sync,
    G: Gate + Sync,
>(
    rt: &R,
    alloc: Global,
    words: &[String],
    source: &mut S,
    sink: &mut K,
    clock: &C,
    gate: &G,
) -> Outcome
    // The words are a command, unless they are refused.
    ensures usage { result.status ≡ Status.Usage → ¬ (IsListed (texts words.now)) }
    ensures listed { result.status ≢ Status.Usage → result.status ≢ Status.NoMemory → IsListed (texts words.now) }

    // Nothing is read unless the command is one that reads.
    ensures unread { ¬ (IsCommandWith (texts words.now) (λ command. (work command).reads.most ≢ None)) → source.new ≡ source.old }

    // The text is written whole at Ok, and a front of it at WriteFault. At every other status nothing is written.
    ensures ok { WritesWholeAtOk (C.shows clock.now) (texts words.now)
        (S.left source.old) (S.left source.new) (K.holds sink.old) (K.holds sink.new) result }
    ensures broken_off { WritesFrontAtFault (C.shows clock.now) (texts words.now)
        (S.left source.old) (S.left source.new) (K.holds sink.old) (K.holds sink.new) result }
    ensures nothing { IsTrue (writes_nothing result.status) → sink.new ≡ sink.old }
    ensures none_returned { IsTrue (writes_nothing result.status) → returned result ≡ nothing_returned }

    // A fault is answered exactly where the object has counted one in this call.
    ensures reads { CountsReads result.status (S.faults source.old) (S.faults source.new) }
    ensures writes { CountsWrites result.status (K.faults sink.old) (K.faults sink.new) }

    // The input is too long exactly where more bytes were read than the command's input may have.
    ensures too_long { result.status ≡ Status.TooLong
        → IsCommandWith (texts words.now) (λ command. IsTooLong (work command).reads.most (S.left source.old) (S.left source.new)) }
    ensures within { result.status ≢ Status.TooLong
        → AllOf (texts words.now) (λ command. ReadsAtMost (work command).reads.most (S.left source.old) (S.left source.new)) }

    // A refused input was read whole, and it is none that the command takes.
    ensures refused { IsTrue (is_refusal result.status)
        → IsCommandWith (texts words.now) (λ command. IsRefused (work command).reads (S.left source.old) (S.left source.new) result.status) }

    // It doesn't give up by itself.
    ensures complete { ¬ (Rose (K.faults sink.old) (K.faults sink.new))
        → Completes (texts words.now) (S.left source.old) (S.faults source.old) (S.faults source.new) result.status }
{
    let command = match read_words(alloc, words) {
        Ok(Some(command)) => command,
        Ok(None) => return ended(Status::Usage, Returned::nothing()),
        Err(NoMemory) => return ended(Status::NoMemory, Returned::nothing()),
    };
    let product = match produce(rt, alloc, command, source, clock, gate) {
        Ok(product) => product,
        Err(status) => return ended(status, Returned::nothing()),
    };
    let status = match write_whole(sink, product.text.as_slice()) {
        Ok(()) => Status::Ok,
        Err(Failed) => Status::WriteFault,
    };
    ended(status, product.returned)
}

/// The outcome with this status.
fn ended(status: Status, returned: Returned) -> Outcome
    ensures { result ≡ record { status = status; report = returned.report; frames = returned.frames; inbox = returned.inbox } }
{
    Outcome {
        status,
        report: returned.report,
        frames: returned.frames,
        inbox: returned.inbox,
    }
}
