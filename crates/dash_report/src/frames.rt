//! The lines of a choreographer's frame record.
ghost use Rattle.std.specs.Prelude.{◌≡◌, ◌++◌, IfOk, OnOk, string_bytes};
ghost use Rattle.std.specs.List.{flat_map, filter_map};
ghost use Rattle.run_model.specs.Text.{posted_callback, frame_entry_lines, frame_lines, line_text};

use frame_phases::{Callback, FrameEntry};
use loop_model::NoMemory;
use std::alloc::Global;
use std::fmt::Write;

/// The callback that an entry posts, where it posts one.
fn posted_callback(entry: &FrameEntry) -> Option<Callback>
    ensures { result ≡ posted_callback entry.now }
{
    match *entry {
        FrameEntry::Posted(callback) => Some(callback),
        _ => None,
    }
}

/// The posted callbacks of a frame record, by number.
fn posted_callbacks(alloc: Global, entries: &[FrameEntry]) -> Result<Vec<Callback>, NoMemory>
    ensures { IfOk result
        (λ callbacks. callbacks.items ≡ filter_map posted_callback entries.now) }
{
    let callbacks = entries.iter().filter_map(posted_callback).collect(alloc)?;
    Ok(callbacks)
}

/// Writes the lines of a frame entry, none or one, by the posted callbacks of its record.
fn write_frame_entry(
    out: &mut String,
    callbacks: &[Callback],
    entry: &FrameEntry,
) -> Result<(), NoMemory>
    ensures { OnOk result (string_bytes out.new
        ≡ string_bytes out.old ++ flat_map line_text (frame_entry_lines callbacks.now entry.now)) }
{
    match *entry {
        FrameEntry::Begin { time, .. } => writeln!(out, "frame {time}")?,
        FrameEntry::Ran { number } => {
            if let Some(callback) = callbacks.get(number as usize) {
                writeln!(out, "run {} {}", callback.phase, callback.id)?;
            }
        }
        _ => {}
    }
    Ok(())
}

/// Writes the lines of a frame record.
#[tactic(auto, using(std::proofs::lemmas::List::append_assoc))]
pub fn write_frames(alloc: Global, out: &mut String, entries: &[FrameEntry]) -> Result<(), NoMemory>
    ensures { OnOk result (string_bytes out.new
        ≡ string_bytes out.old ++ flat_map line_text (frame_lines entries.now)) }
{
    let callbacks = posted_callbacks(alloc, entries)?;
    for entry in entries {
        write_frame_entry(out, &callbacks, entry)?;
    }
    Ok(())
}
