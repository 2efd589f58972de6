//! The words of the command line.
use line_words::number;
use run_picture::{USUAL_WIDTH, View, Window};

/// What stands above a picture where nobody says it.
const USUAL_TITLE: &str = "A run of the dashboard";

/// A picture is at least so many pixels wide, and at most so many.
pub(crate) const LEAST_WIDTH: u32 = 700;

pub(crate) const MOST_WIDTH: u32 = 30_000;

/// In which form the picture is written.
#[derive(Clone, Copy, Debug, PartialEq, Eq)]
pub(crate) enum Asked {
    Svg(View),
    Html,
    Perfetto,
    Flows,
}

/// What the program is asked for.
#[derive(Clone, Copy, Debug)]
pub(crate) struct Request<'a> {
    pub(crate) asked: Asked,
    pub(crate) title: &'a str,
}

/// The options of a picture.
#[derive(Clone, Copy)]
struct Options<'a> {
    width: Option<u32>,
    title: Option<&'a str>,
}

/// A width within the limits.
fn width_of(word: &str) -> Option<u32> {
    let width = u32::try_from(number(word.as_bytes())?).ok()?;
    if width < LEAST_WIDTH || width > MOST_WIDTH {
        return None;
    }
    Some(width)
}

/// The options with one more, which may not be given twice.
fn with_option<'a>(options: Options<'a>, name: &str, value: &'a str) -> Option<Options<'a>> {
    if name == "--title" {
        if options.title.is_some() {
            return None;
        }
        return Some(Options {
            width: options.width,
            title: Some(value),
        });
    }
    if name == "--width" {
        if options.width.is_some() {
            return None;
        }
        return Some(Options {
            width: Some(width_of(value)?),
            title: options.title,
        });
    }
    None
}

/// Options, each a name and a value.
fn options_of(words: &[String]) -> Option<Options> {
    let mut options = Options {
        width: None,
        title: None,
    };
    for pair in words.chunks(2) {
        let name = pair.first()?;
        let value = pair.get(1)?;
        options = with_option(options, name.as_str(), value.as_str())?;
    }
    Some(options)
}

/// Whether the words begin with a window.
fn has_window(words: &[String]) -> bool {
    match words.first() {
        Some(word) => number(word.as_bytes()).is_some(),
        None => false,
    }
}

/// The window of two words: the first millisecond, and the one before which it ends.
fn window_of(words: &[String]) -> Option<Window> {
    let from = number(words.first()?.as_bytes())?;
    let to = number(words.get(1)?.as_bytes())?;
    if from < to {
        Some(Window { from, to })
    } else {
        None
    }
}

fn svg_of(words: &[String]) -> Option<Request> {
    let mut window = None;
    let mut rest = words;
    if has_window(words) {
        window = Some(window_of(words)?);
        rest = words.get(2..)?;
    }
    let options = options_of(rest)?;
    let view = View {
        window,
        width: options.width.unwrap_or(USUAL_WIDTH),
    };
    Some(Request {
        asked: Asked::Svg(view),
        title: options.title.unwrap_or(USUAL_TITLE),
    })
}

fn html_of(words: &[String]) -> Option<Request> {
    let options = options_of(words)?;
    if options.width.is_some() {
        return None;
    }
    Some(Request {
        asked: Asked::Html,
        title: options.title.unwrap_or(USUAL_TITLE),
    })
}

/// A form that takes no words.
fn plain(asked: Asked, words: &[String]) -> Option<Request> {
    if words.is_empty() {
        Some(Request {
            asked,
            title: USUAL_TITLE,
        })
    } else {
        None
    }
}

/// What the words behind the program's name ask for; nothing where they are none of the forms.
pub(crate) fn read_words(words: &[String]) -> Option<Request> {
    let (first, rest) = words.split_first()?;
    match first.as_str() {
        "svg" => svg_of(rest),
        "html" => html_of(rest),
        "perfetto" => plain(Asked::Perfetto, rest),
        "flows" => plain(Asked::Flows, rest),
        _ => None,
    }
}
