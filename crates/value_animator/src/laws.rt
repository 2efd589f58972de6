//! What holds of every text of values, and of every run of them.
ghost use Rattle.value_animator.specs.Laws.{OneText, ReadsRefusals, ReadsTexts, RunsAreLawful, RunsBegin, TextsAreTheirs};

/// Stands for the law that a text is one of values exactly where it is the text that they are written as, and they are within the limits.
pub fn texts_are_theirs()
    ensures { TextsAreTheirs }
{}

/// Stands for the law that a text is read as values exactly where it is their text.
pub fn texts_are_read()
    ensures { ReadsTexts }
{}

/// Stands for the law that a text is read as a refusal exactly where that is the text's refusal: its least line that has a cause, and
/// its first cause.
pub fn refusals_are_read()
    ensures { ReadsRefusals }
{}

/// Stands for the law that the text of values is the text of no others.
pub fn values_have_one_text()
    ensures { OneText }
{}

/// Stands for the law that the frames of a run begin at the multiples of the period, up to the first at which all things have ended.
pub fn runs_begin()
    ensures { RunsBegin }
{}

/// Stands for the law that the frame record of a run is lawful.
pub fn runs_are_lawful()
    ensures { RunsAreLawful }
{}
