//! The lines of a plan of values: their forms, and what one says.
ghost use Rattle.std.specs.Prelude.{◌≡◌, ◌≤◌, length};
ghost use Rattle.line_words.specs.Words.{words};
ghost use Rattle.dash_script.specs.Form.{said_among};
ghost use Rattle.value_animator.specs.Reading.{all_row_kinds, row_form, row_of, say_row};

use dash_script::{Keyword, Numbers, Role, Slot, numbers_in};

/// The kinds of line.
#[derive(Clone, Copy)]
pub enum RowKind {
    /// `animate 1`, the first line.
    Head,
    /// The period between pulses.
    Period,
    /// A countdown, with its total and its interval.
    Countdown,
    /// An animator that begins anew at each repeat.
    Restart,
    /// An animator that turns at each repeat.
    Reverse,
    /// A key value of the animator above.
    Key,
    /// The last line.
    End,
}

/// What one line says.
#[derive(Drop)]
pub struct Row {
    /// Which form the line has.
    pub kind: RowKind,
    /// The numbers of the line, in order.
    pub numbers: Numbers,
}

const PERIOD: Slot = Slot::Number(Role::Within {
    low: 1000000,
    high: 1000000000,
});

const MILLIS: Slot = Slot::Number(Role::Within {
    low: 0,
    high: 60000,
});

const SOME_MILLIS: Slot = Slot::Number(Role::Within {
    low: 1,
    high: 60000,
});

const REPEATS: Slot = Slot::Number(Role::Within { low: 0, high: 99 });

const PLACE: Slot = Slot::Number(Role::Within { low: 0, high: 1000 });

const VALUE: Slot = Slot::Number(Role::Within {
    low: 0,
    high: 1000000,
});

const KINDS: [RowKind; 7] = [
    RowKind::Head,
    RowKind::Period,
    RowKind::Countdown,
    RowKind::Restart,
    RowKind::Reverse,
    RowKind::Key,
    RowKind::End,
];

/// Every kind of line.
fn kinds() -> &'static [RowKind]
    ensures { result.now ≡ all_row_kinds }
{
    &KINDS
}

impl RowKind {
    /// The words of such a line.
    pub(crate) fn form(self) -> &'static [Slot]
        ensures form { result.now ≡ row_form self }
        ensures short { length result.now ≤ 9 }
    {
        match self {
            RowKind::Head => &[Slot::Word(Keyword::Animate), Slot::Word(Keyword::One)],
            RowKind::Period => &[Slot::Word(Keyword::Period), PERIOD],
            RowKind::Countdown => &[Slot::Word(Keyword::Countdown), MILLIS, SOME_MILLIS],
            RowKind::Restart => &[
                Slot::Word(Keyword::Animator),
                MILLIS,
                SOME_MILLIS,
                REPEATS,
                Slot::Word(Keyword::Restart),
            ],
            RowKind::Reverse => &[
                Slot::Word(Keyword::Animator),
                MILLIS,
                SOME_MILLIS,
                REPEATS,
                Slot::Word(Keyword::Reverse),
            ],
            RowKind::Key => &[Slot::Word(Keyword::Key), PLACE, VALUE],
            RowKind::End => &[Slot::Word(Keyword::End)],
        }
    }
}

/// What a line of one of the kinds says.
fn row_among(kinds: &[RowKind], line: &[u8]) -> Option<Row>
    ensures { result ≡ said_among row_form say_row kinds.now (words line.now) }
{
    for kind in kinds {
        if let Some(numbers) = numbers_in(kind.form(), line) {
            return Some(Row {
                kind: *kind,
                numbers,
            });
        }
    }
    None
}

/// What a line says, where it has the form of some kind.
pub(crate) fn row_of(line: &[u8]) -> Option<Row>
    ensures { result ≡ row_of line.now }
{
    row_among(kinds(), line)
}
