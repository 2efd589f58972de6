// The words of the program: a mode, a count, and `time` where times are wanted.

ghost use Rattle.std.specs.Prelude.{◌≤◌, IfSome};

/// What is measured.
#[derive(Clone, Copy, PartialEq, Eq)]
pub(crate) enum Mode {
    Chain,
    Burst,
    Sealed,
    Late,
    Rising,
    Scatter,
    Fenced,
    Barrier,
    Removals,
    RemoveAll,
    SafeQuit,
    Handled,
    HandledBurst,
}

/// All modes, in the order in which they are printed.
pub(crate) const ALL: [Mode; 13] = [
    Mode::Chain,
    Mode::Burst,
    Mode::Sealed,
    Mode::Late,
    Mode::Rising,
    Mode::Scatter,
    Mode::Fenced,
    Mode::Barrier,
    Mode::Removals,
    Mode::RemoveAll,
    Mode::SafeQuit,
    Mode::Handled,
    Mode::HandledBurst,
];

/// The word of a mode.
pub(crate) fn word(mode: Mode) -> &'static str {
    match mode {
        Mode::Chain => "chain",
        Mode::Burst => "burst",
        Mode::Sealed => "sealed",
        Mode::Late => "late",
        Mode::Rising => "rising",
        Mode::Scatter => "scatter",
        Mode::Fenced => "fenced",
        Mode::Barrier => "barrier",
        Mode::Removals => "removals",
        Mode::RemoveAll => "remove_all",
        Mode::SafeQuit => "safe_quit",
        Mode::Handled => "handled",
        Mode::HandledBurst => "handled_burst",
    }
}

/// The greatest count that is taken.
pub(crate) const MOST: u64 = 10_000_000;

/// What the program is asked to measure: these modes, with this many messages each, and whether it prints times.
#[derive(Drop)]
pub(crate) struct Asked {
    /// The one mode that is named, or all.
    pub(crate) mode: Option<Mode>,
    pub(crate) count: u64,
    pub(crate) timed: bool,
}

/// What the words ask for: a mode or `all`, a count up to ten million, and `time` or nothing. None for all other words.
pub(crate) fn asked_by(words: &[String]) -> Option<Asked>
    ensures { IfSome result (λ a. a.count ≤ 10000000) }
{
    let mode = match mode_named(words.get(0)?) {
        Some(mode) => Some(mode),
        None if words.get(0)?.as_str() == "all" => None,
        None => return None,
    };
    let count = count_of(words.get(1)?.as_str())?;
    let timed = match words.get(2) {
        Some(word) if word.as_str() == "time" => true,
        Some(_) => return None,
        None => false,
    };
    if words.len() > 3 {
        return None;
    }
    Some(Asked { mode, count, timed })
}

/// The mode of the word.
fn mode_named(name: &String) -> Option<Mode> {
    for mode in &ALL {
        if word(*mode) == name.as_str() {
            return Some(*mode);
        }
    }
    None
}

/// The count that the word spells, where it isn't too great.
fn count_of(word: &str) -> Option<u64>
    ensures { IfSome result (λ n. n ≤ 10000000) }
{
    match word.parse::<u64>() {
        Ok(count) if count <= MOST => Some(count),
        _ => None,
    }
}
