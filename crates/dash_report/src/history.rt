//! The lines of a queue's history.
ghost use Rattle.std.specs.Prelude.{◌≡◌, ◌++◌, Some, IfOk, OnOk, slice_get, string_bytes};
ghost use Rattle.std.specs.List.{join_with_byte, flat_map};
ghost use Rattle.loop_model.specs.Chain.{entries_of};
ghost use Rattle.loop_model.specs.Posts.{accepted_post, accepted_posts};
ghost use Rattle.run_model.specs.Text.{post_subject, call_lines, history_lines, line_text};
ghost use Rattle.run_model.specs.Parts.{dispatch_words};

use loop_model::{Call, Entry, NoMemory, Post, Reply, Segment};
use std::alloc::Global;
use std::fmt;
use std::fmt::Write;

/// A message as lines name it: its handler, and its callback or else its `what`.
#[derive(Clone, Copy)]
struct Subject(Post);

impl fmt::Display for Subject {
    ghost output = { λ s. Some (join_with_byte 32 (post_subject s.0)) };

    fn fmt<W: fmt::Write>(&self, f: &mut fmt::Formatter<W>) -> fmt::Result {
        let handler = self.0.handler;
        match self.0.callback {
            Some(id) => write!(f, "{handler} callback {id}"),
            None => write!(f, "{handler} {}", self.0.what),
        }
    }
}

/// The post that an entry adds, where it adds one.
fn accepted_post(entry: &Entry) -> Option<Post>
    ensures { result ≡ accepted_post entry.now }
{
    match (entry.call, entry.reply) {
        (Call::Post(post), Reply::Accepted { .. }) => Some(post),
        _ => None,
    }
}

/// The accepted posts of these entries, in order.
fn posts_in(alloc: Global, entries: &[Entry]) -> Result<Vec<Post>, NoMemory>
    ensures { IfOk result (λ posts. posts.items ≡ accepted_posts entries.now) }
{
    let posts = entries.iter().filter_map(accepted_post).collect(alloc)?;
    Ok(posts)
}

/// The accepted posts of a history in these parts, by number.
fn accepted_posts(alloc: Global, segments: &[Segment]) -> Result<Vec<Post>, NoMemory>
    ensures { IfOk result (λ posts. posts.items ≡ accepted_posts (entries_of segments.now)) }
{
    let mut posts = Vec::new(alloc);
    for segment in segments {
        let mut more = posts_in(alloc, segment.entries.as_slice())?;
        posts.append(&mut more)?;
    }
    Ok(posts)
}

/// The post of this number.
fn post_at(posts: &[Post], number: u64) -> Option<Post>
    ensures { result ≡ slice_get posts.now number }
{
    posts.get(number as usize).copied()
}

/// Writes the line of a dispatch.
fn write_dispatch(out: &mut String, now: u64, number: u64, post: Post) -> Result<(), NoMemory>
    ensures { OnOk result (string_bytes out.new
        ≡ string_bytes out.old ++ line_text (dispatch_words now number post)) }
{
    writeln!(out, "{now} dispatch {number} {}", Subject(post))?;
    Ok(())
}

/// Writes the lines of an entry, none or one, by the accepted posts of its history.
#[tactic(auto, using(std::proofs::lemmas::List::append_assoc))]
fn write_entry(out: &mut String, posts: &[Post], entry: &Entry) -> Result<(), NoMemory>
    ensures { OnOk result (string_bytes out.new
        ≡ string_bytes out.old ++ flat_map line_text (call_lines posts.now entry.now.call entry.now.reply)) }
{
    match (entry.call, entry.reply) {
        (Call::Next { now }, Reply::Dispatched { number }) => {
            if let Some(post) = post_at(posts, number) {
                write_dispatch(out, now, number, post)?;
            }
        }
        (Call::Post(post), Reply::Refused { place }) => {
            writeln!(out, "refused {} quit {place}", Subject(post))?;
        }
        (Call::Unbarrier { token }, Reply::NotPosted) => writeln!(out, "not-posted {token}")?,
        (Call::Quit { .. }, Reply::NotAllowed) => writeln!(out, "not-allowed")?,
        (Call::Quit { .. }, Reply::AlreadyQuit { place }) => writeln!(out, "already-quit {place}")?,
        _ => {}
    }
    Ok(())
}

/// Writes the lines of these entries, by the accepted posts of their history.
#[tactic(auto, using(std::proofs::lemmas::List::append_assoc))]
fn write_entries(out: &mut String, posts: &[Post], entries: &[Entry]) -> Result<(), NoMemory>
    ensures { OnOk result (string_bytes out.new
        ≡ string_bytes out.old ++ flat_map line_text (flat_map (λ e. call_lines posts.now e.call e.reply) entries.now)) }
{
    for entry in entries {
        write_entry(out, posts, entry)?;
    }
    Ok(())
}

/// Writes the lines of a history in these parts: its dispatches, refusals and other answers, in order. It is refused only for want
/// of memory. The form is this project's profile.
pub fn write_history(alloc: Global, out: &mut String, segments: &[Segment]) -> Result<(), NoMemory>
    ensures { OnOk result (string_bytes out.new
        ≡ string_bytes out.old ++ flat_map line_text (history_lines (entries_of segments.now))) }
{
    let accepted = accepted_posts(alloc, segments)?;
    let posts = accepted.as_slice();
    for segment in segments {
        write_entries(out, posts, segment.entries.as_slice())?;
    }
    Ok(())
}
