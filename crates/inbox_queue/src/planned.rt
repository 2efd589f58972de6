//! The posts that a script's lines plan for the threads.
ghost use Rattle.std.specs.Prelude.{◌≡◌, ◌≤◌, [], ◌∷◌, length};
ghost use Rattle.run_model.specs.Planned.{sent_by};
ghost use Rattle.inbox_queue.specs.Gathered.{post_of_line};
ghost use Rattle.inbox_queue.specs.Plans.{post_by, planned_posts};

use dash_script::{Command, Line, Script};
use loop_model::Post;

/// The post that a command plans at this uptime, in milliseconds. None of a command that is no post.
pub(crate) fn post_for(script: &Script, now: u64, command: Command) -> Option<Post>
    ensures { result ≡ post_by script.now now command }
{
    match command {
        Command::Post {
            handler,
            what,
            delay,
        } => Some(message(script, handler, what, now.saturating_add(delay))),
        Command::PostAsync {
            handler,
            what,
            delay,
        } => {
            let mut post = message(script, handler, what, now.saturating_add(delay));
            post.asynchronous = true;
            Some(post)
        }
        Command::Front { handler, what } => Some(message(script, handler, what, 0)),
        Command::Callback { handler, id, delay } => {
            let mut post = message(script, handler, 0, now.saturating_add(delay));
            post.callback = Some(u64::from(id));
            Some(post)
        }
        _ => None,
    }
}

/// A message that a declared handler sends, with the handler's flag.
fn message(script: &Script, handler: u32, what: u32, when: u64) -> Post
    ensures { result ≡ sent_by script.now handler what when }
{
    let asynchronous = match script.handlers.as_slice().get(handler as usize) {
        Some(line) => line.asynchronous,
        None => false,
    };
    Post {
        handler,
        what,
        arg: 0,
        obj: None,
        callback: None,
        when,
        asynchronous,
        slot: None,
    }
}

/// The post that a line plans for this thread at the time of its block. None of another thread's line.
pub(crate) fn post_in(script: &Script, time: u64, thread: u32, line: &Line) -> Option<Post>
    ensures { result ≡ post_of_line script.now time thread line.now }
{
    if line.thread != thread {
        return None;
    }
    post_for(script, time, line.command)
}

/// 1 where the line plans a post for this thread.
fn weight(script: &Script, time: u64, thread: u32, line: &Line) -> u64
    ensures count { result ≡ length (planned_posts script.now time thread (line.now ∷ [])) }
    ensures small { result ≤ 1 }
{
    match post_in(script, time, thread, line) {
        Some(_) => 1,
        None => 0,
    }
}

/// How many posts a block's lines plan for a thread.
pub(crate) fn planned_count(script: &Script, time: u64, lines: &[Line], thread: u32) -> u64
    ensures { result ≡ length (planned_posts script.now time thread lines.now) }
{
    let mut count = 0;
    for line in lines {
        count += weight(script, time, thread, line);
    }
    count
}
