// The words of the command line.
ghost use Rattle.std.specs.Prelude.{◌≡◌, ◌≢◌, ◌↔◌, IfOk, IfNone, IfSome, IsTrue, map, codes, Some, None, false, true};
ghost use Rattle.clap.specs.Words.{app_of, found_of, kind_of, rows_of, subcommand_rows_of};
ghost use Rattle.clap.specs.declared.builder.command.Command.TheViews.{out-Command};
ghost use Rattle.dashboard_cli.specs.CommandLine.{dashboard_app, run_app, make_app, text_app, name_of, HasRows, IsCommandFound};
ghost use Rattle.dashboard_cli.specs.Words.{IsInRange, IsAsked, IsListed, IsSpelled, texts};

use clap::error::ErrorKind;
use clap::{Arg, ArgAction, ArgMatches};
use loop_model::NoMemory;
use std::alloc::{AllocError, Global};

/// What the program is asked to do.
#[derive(Clone, Copy, Debug, PartialEq, Eq)]
pub enum Subcommand {
    /// Reads a script, runs it in lockstep and writes the report.
    Run,
    /// Reads a script, runs it by the clock and writes the report.
    RunFree,
    /// Reads a script and writes it.
    Text,
    /// Reads a script and writes it as one of edition 2.
    Migrate,
    /// Writes the script that the generator makes from the number.
    Make { number: u32 },
    /// Makes that script, runs it in lockstep and writes the summary.
    MakeRun { number: u32 },
    /// Reads a script, runs it in lockstep and writes the histories of its queues.
    Trace,
    /// Reads the histories of queues and writes whether each is legal.
    Check,
    /// Reads a plan of values, runs it over frames and writes what is told.
    Animate,
    /// Reads a script, runs it in lockstep with an inbox between the threads and the main looper, and writes what came of it.
    Inbox,
}

/// Reads the words: a command exactly where they are a spelling of one, else None. NoMemory where it found none. The spellings
/// are this project's profile.
pub fn read_words(alloc: Global, words: &[String]) -> Result<Option<Subcommand>, NoMemory>
    ensures command { IfOk result (λ found. IfSome found (IsAsked (texts words.now))) }
    ensures none { IfOk result (λ found. IfNone found (¬ (IsListed (texts words.now)))) }
{
    let line = command_line(alloc)?;
    let matches = match line.try_get_matches_from(words) {
        Ok(matches) => matches,
        Err(error) => return refused(&error),
    };
    let Some(command) = command_found(&matches) else {
        return Ok(None);
    };
    // The parser takes more spellings than these, as `--` before the number.
    if is_spelled(alloc, command, words)? {
        Ok(Some(command))
    } else {
        Ok(None)
    }
}

/// The answer where the parser refuses the words.
fn refused(error: &clap::Error) -> Result<Option<Subcommand>, NoMemory>
    ensures { IfOk result (λ found. (found ≡ None) × (kind_of error.now ≢ ErrorKind.OutOfMemory)) }
{
    match error.kind() {
        ErrorKind::OutOfMemory => Err(NoMemory),
        _ => Ok(None),
    }
}

/// The command line of the program. It has no help, since the words for it are none of its spellings.
fn command_line<'a>(alloc: Global) -> Result<clap::Command<'a>, AllocError>
    ensures { IfOk result (λ line. app_of line ≡ dashboard_app) }
{
    let run = run_line(alloc)?;
    let text = text_line(alloc)?;
    let make = make_line(alloc)?;
    let trace = clap::Command::new(alloc, "trace");
    let check = clap::Command::new(alloc, "check");
    let animate = clap::Command::new(alloc, "animate");
    let inbox = clap::Command::new(alloc, "inbox");
    clap::Command::new(alloc, "dashboard")
        .no_binary_name(true)
        .disable_help_flag(true)
        .disable_help_subcommand(true)
        .subcommand(run)?
        .subcommand(text)?
        .subcommand(make)?
        .subcommand(trace)?
        .subcommand(check)?
        .subcommand(animate)?
        .subcommand(inbox)
}

/// The line of `text`: perhaps an edition.
fn text_line<'a>(alloc: Global) -> Result<clap::Command<'a>, AllocError>
    ensures app { IfOk result (λ line. app_of line ≡ text_app) }
    ensures local { IfOk result (λ line. (out-Command line).has_globals ≡ false) }
{
    let to = Arg::new(alloc, "to").long("to");
    clap::Command::new(alloc, "text").arg(to)
}

/// The line of `run`, with perhaps its flag.
fn run_line<'a>(alloc: Global) -> Result<clap::Command<'a>, AllocError>
    ensures app { IfOk result (λ line. app_of line ≡ run_app) }
    ensures local { IfOk result (λ line. (out-Command line).has_globals ≡ false) }
{
    let free = Arg::new(alloc, "free")
        .long("free")
        .action(ArgAction::SetTrue);
    clap::Command::new(alloc, "run").arg(free)
}

/// The line of `make`: a number, and perhaps the flag.
fn make_line<'a>(alloc: Global) -> Result<clap::Command<'a>, AllocError>
    ensures app { IfOk result (λ line. app_of line ≡ make_app) }
    ensures local { IfOk result (λ line. (out-Command line).has_globals ≡ false) }
{
    let number = Arg::new(alloc, "number");
    let run = Arg::new(alloc, "run")
        .long("run")
        .action(ArgAction::SetTrue);
    clap::Command::new(alloc, "make").arg(number)?.arg(run)
}

/// The command that the parser found.
fn command_found(matches: &ArgMatches<'_>) -> Option<Subcommand>
    ensures { (command : Subcommand) → IsInRange command → IsCommandFound command (subcommand_rows_of matches.now) → result ≡ Some command }
{
    let (name, inner) = matches.subcommand()?;
    match name {
        "run" => Some(run_found(inner)),
        "text" => text_found(inner),
        "make" => make_found(inner),
        "trace" => Some(Subcommand::Trace),
        "check" => Some(Subcommand::Check),
        "animate" => Some(Subcommand::Animate),
        "inbox" => Some(Subcommand::Inbox),
        _ => None,
    }
}

/// The command that the parser found behind `run`.
fn run_found(matches: &ArgMatches<'_>) -> Subcommand
    ensures { (command : Subcommand) → IsInRange command → name_of command ≡ codes "run"
        → HasRows command (rows_of (found_of matches.now)) → result ≡ command }
{
    if matches.get_flag("free") {
        Subcommand::RunFree
    } else {
        Subcommand::Run
    }
}

/// The command that the parser found behind `text`.
fn text_found(matches: &ArgMatches<'_>) -> Option<Subcommand>
    ensures { (command : Subcommand) → name_of command ≡ codes "text"
        → HasRows command (rows_of (found_of matches.now)) → result ≡ Some command }
{
    let Some(edition) = matches.get_str("to") else {
        return Some(Subcommand::Text);
    };
    if edition == "2" {
        Some(Subcommand::Migrate)
    } else {
        None
    }
}

/// The command that the parser found behind `make`.
fn make_found(matches: &ArgMatches<'_>) -> Option<Subcommand>
    ensures { (command : Subcommand) → IsInRange command → name_of command ≡ codes "make"
        → HasRows command (rows_of (found_of matches.now)) → result ≡ Some command }
{
    let number = matches.get_str("number")?.parse::<u32>().ok()?;
    if matches.get_flag("run") {
        Some(Subcommand::MakeRun { number })
    } else {
        Some(Subcommand::Make { number })
    }
}

/// Whether the words are a spelling of the command.
fn is_spelled(alloc: Global, command: Subcommand, words: &[String]) -> Result<bool, AllocError>
    ensures { IfOk result (λ same. IsTrue same ↔ IsSpelled command (texts words.now)) }
{
    Ok(match command {
        Subcommand::Run => are_same(words, &["run"]),
        Subcommand::RunFree => are_same(words, &["run", "--free"]),
        Subcommand::Text => are_same(words, &["text"]),
        Subcommand::Migrate => are_same(words, &["text", "--to", "2"]),
        Subcommand::Trace => are_same(words, &["trace"]),
        Subcommand::Check => are_same(words, &["check"]),
        Subcommand::Animate => are_same(words, &["animate"]),
        Subcommand::Inbox => are_same(words, &["inbox"]),
        Subcommand::Make { number } => {
            let digits = number.to_string(alloc)?;
            are_same(words, &["make", digits.as_str()])
        }
        Subcommand::MakeRun { number } => {
            let digits = number.to_string(alloc)?;
            are_same(words, &["make", digits.as_str(), "--run"])
                || are_same(words, &["make", "--run", digits.as_str()])
        }
    })
}

/// Whether the words are these.
fn are_same(words: &[String], spelling: &[&str]) -> bool
    ensures { IsTrue result ↔ (texts words.now ≡ map (λ word. word.now) spelling.now) }
{
    let Some((word, words)) = words.split_first() else {
        return spelling.is_empty();
    };
    let Some((spelled, spelling)) = spelling.split_first() else {
        return false;
    };
    word.as_str() == *spelled && are_same(words, spelling)
}
