//! The editions of the language, and the way from the first to the second.
ghost use Rattle.std.specs.Prelude.{◌≡◌, map, IfOk};
ghost use Rattle.dash_script.specs.Causes.{phase_count};
ghost use Rattle.dash_script.specs.Reading.{HasText};
ghost use Rattle.dash_script.specs.Editions.{phase_up, up};
ghost use Rattle.dash_script.specs.FromEdition.{block_from, command_from, line_from};

use crate::script::{Block, Command, Line, Script};
use loop_model::{NoMemory, Sequence};
use std::alloc::Global;

/// How many phases a frame has: input, animation, traversal and commit, and in edition 2 insets animation behind animation (the
/// callback types of AOSP's `Choreographer`).
pub fn phase_count(edition: u32) -> u32
    ensures { result ≡ phase_count edition }
{
    if edition == 2 { 5 } else { 4 }
}

/// The script as one of edition 2, whose frames have insets animation as phase 2: its frame callbacks of the traversal go from
/// phase 2 to phase 3, and those of the commit from phase 3 to phase 4. All else stays, and so does a script of edition 2.
/// NoMemory where it found none. Editions are this project's profile.
pub fn migrate(alloc: Global, script: &Script) -> Result<Script, NoMemory>
    ensures up { IfOk result (λ s. s ≡ up script.now) }
    ensures text { IfOk result (λ s. HasText script.now → HasText s) }
{
    Ok(Script {
        edition: 2,
        loopers: script.loopers,
        threads: script.threads,
        handlers: copied(alloc, script.handlers.as_slice())?,
        gauges: copied(alloc, script.gauges.as_slice())?,
        period: script.period,
        rules: copied(alloc, script.rules.as_slice())?,
        blocks: blocks_from(alloc, script.edition, script.blocks.as_slice())?,
        end: script.end,
    })
}

/// The same items.
fn copied<T: Copy + Drop>(alloc: Global, items: &[T]) -> Result<Sequence<T>, NoMemory>
    ensures { IfOk result (λ copy. copy ≡ items.now) }
{
    let mut copy = Vec::new(alloc);
    copy.extend_from_slice(items)?;
    Ok(Sequence::from_vec(copy))
}

/// The blocks of a script of this edition, in edition 2.
fn blocks_from(alloc: Global, edition: u32, blocks: &[Block]) -> Result<Sequence<Block>, NoMemory>
    ensures { IfOk result (λ out. out ≡ map (block_from edition) blocks.now) }
{
    let mut out = Vec::new(alloc);
    for block in blocks {
        out.push(Block {
            time: block.time,
            lines: lines_from(alloc, edition, block.lines.as_slice())?,
        })?;
    }
    Ok(Sequence::from_vec(out))
}

/// The lines of a block of this edition, in edition 2.
fn lines_from(alloc: Global, edition: u32, lines: &[Line]) -> Result<Sequence<Line>, NoMemory>
    ensures { IfOk result (λ out. out ≡ map (line_from edition) lines.now) }
{
    let mut out = Vec::new(alloc);
    for line in lines {
        out.push(Line {
            thread: line.thread,
            command: command_from(edition, line.command),
        })?;
    }
    Ok(Sequence::from_vec(out))
}

/// A command of this edition, in edition 2.
fn command_from(edition: u32, command: Command) -> Command
    ensures { result ≡ command_from edition command }
{
    if edition == 2 {
        return command;
    }
    match command {
        Command::Frame {
            looper,
            phase,
            id,
            delay,
        } => Command::Frame {
            looper,
            phase: phase_up(phase),
            id,
            delay,
        },
        Command::Unframe { looper, phase, id } => Command::Unframe {
            looper,
            phase: phase_up(phase),
            id,
        },
        other => other,
    }
}

/// The number in edition 2 of a phase of edition 1.
fn phase_up(phase: u32) -> u32
    ensures { result ≡ phase_up phase }
{
    match phase {
        2 => 3,
        3 => 4,
        other => other,
    }
}
