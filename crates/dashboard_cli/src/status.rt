// The answer of the top call, its code and its text.
ghost use Rattle.std.specs.Prelude.{◌≡◌, IfOk, string_bytes};
ghost use Rattle.dashboard_cli.specs.Status.{cause_word, status_line, text_word};

use dash_script::Cause;
use loop_model::NoMemory;
use std::alloc::Global;
use std::fmt;

/// Why a line is refused.
#[derive(Clone, Copy, Debug, PartialEq, Eq)]
pub enum LineCause {
    /// It may not stand there in the text of a script or of a plan.
    Text(Cause),
    /// It is a line of a script that a run through an inbox doesn't know.
    Inbox,
}

/// How the program ended.
#[derive(Clone, Copy, Debug, PartialEq, Eq)]
pub enum Status {
    /// The whole text was written.
    Ok,
    /// The words are no command.
    Usage,
    /// The input is refused: its least bad line, counted from 1, and why that line is bad.
    Script { line: u64, cause: LineCause },
    /// The source failed.
    ReadFault,
    /// The sink failed.
    WriteFault,
    /// There was no memory.
    NoMemory,
    /// The input has more bytes than are read.
    TooLong,
    /// The input is the text of no trace: its least bad line, counted from 1.
    Trace { line: u64 },
}

impl Status {
    ghost use Rattle.std.specs.Prelude.{◌≡◌};
    ghost use Rattle.dashboard_cli.specs.Status.{code_of};

    /// The code that the process ends with (this project's profile).
    pub fn code(&self) -> u8
        ensures { result ≡ code_of self.now }
    {
        match self {
            Status::Ok => 0,
            Status::Usage => 2,
            Status::Script { .. } => 3,
            Status::ReadFault => 4,
            Status::WriteFault => 5,
            Status::NoMemory => 6,
            Status::TooLong => 7,
            Status::Trace { .. } => 8,
        }
    }
}

/// The word for what is wrong with a line of a text.
fn text_word(cause: Cause) -> &'static str
    ensures { result.now ≡ text_word cause }
{
    match cause {
        Cause::Form => "form",
        Cause::Range => "range",
        Cause::Unknown => "unknown",
        Cause::Order => "order",
        Cause::TooMany => "toomany",
        Cause::Missing => "missing",
    }
}

/// The word for why a line is refused.
fn cause_word(cause: LineCause) -> &'static str
    ensures { result.now ≡ cause_word cause }
{
    match cause {
        LineCause::Text(cause) => text_word(cause),
        LineCause::Inbox => "inbox",
    }
}

impl fmt::Display for Status {
    ghost use Rattle.std.specs.Prelude.{Some};
    ghost use Rattle.dashboard_cli.specs.Status.{status_line};

    ghost output = { λ status. Some (status_line status) };

    fn fmt<W: fmt::Write>(&self, f: &mut fmt::Formatter<W>) -> fmt::Result {
        match self {
            Status::Ok => Ok(()),
            Status::Usage => write!(f, "dashboard: usage"),
            Status::Script { line, cause } => {
                let word = cause_word(*cause);
                write!(f, "dashboard: script line {line}: {word}")
            }
            Status::ReadFault => write!(f, "dashboard: read fault"),
            Status::WriteFault => write!(f, "dashboard: write fault"),
            Status::NoMemory => write!(f, "dashboard: no memory"),
            Status::TooLong => write!(f, "dashboard: too long"),
            Status::Trace { line } => write!(f, "dashboard: trace line {line}"),
        }
    }
}

/// The line on standard error, without its line feed. At `Ok` it is empty. NoMemory where it found none (this project's profile).
pub fn status_text(alloc: Global, status: &Status) -> Result<String, NoMemory>
    ensures { IfOk result (λ text. string_bytes text ≡ status_line status.now) }
{
    Ok(status.to_string(alloc)?)
}
