//! What an explanation says.
use dash_script::Cause;
use trace_check::Fault;

/// What is said of a script, a plan of values or a report.
#[derive(Debug, Drop)]
pub enum Said {
    /// The reader takes the input; the text is one line of counts.
    Good {
        text: String,
    },
    /// The reader refuses this line, counted from 1, for this cause, where it tells one; the text says what was found and what
    /// could stand there.
    Bad {
        line: u64,
        cause: Option<Cause>,
        text: String,
    },
    /// No memory was found.
    NoMemory,
}

/// What is said of a trace.
#[derive(Debug, Drop)]
pub enum SaidOfTrace {
    /// It is a trace, and each history is one that a queue could have.
    Good {
        text: String,
    },
    /// It is no trace by this line, counted from 1.
    Bad {
        line: u64,
        text: String,
    },
    /// It is a trace, and of its first queue (counted from 0) with a history that no queue could have, this entry, counted
    /// from 0, is the first bad one.
    Illegal {
        queue: u64,
        place: u64,
        fault: Fault,
        text: String,
    },
    /// No memory was found.
    NoMemory,
}
