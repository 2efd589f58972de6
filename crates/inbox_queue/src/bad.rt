//! Which scripts an inbox run knows.
ghost use Rattle.std.specs.Prelude.{◌≡◌, ◌+◌, ◌<◌, ◌^◌, ℕ, map, length, not, flat_map};
ghost use Rattle.std.specs.List.{position_from};
ghost use Rattle.dash_script.specs.Reading.{HasText};
ghost use Rattle.dash_script.specs.Text.{command_line, line_statement, block_lines};
ghost use Rattle.inbox_queue.specs.Bad.{is_bad, bad_line as the_bad_line};

use dash_script::{Block, Command, Line, Script};

/// Whether the command is a post of a message or a callback.
fn is_post(command: Command) -> bool
    ensures { (thread : ℕ) → is_bad (command_line thread command) ≡ not result }
{
    match command {
        Command::Post { .. } => true,
        Command::PostAsync { .. } => true,
        Command::Front { .. } => true,
        Command::Callback { .. } => true,
        Command::Set { .. } => false,
        Command::Remove { .. } => false,
        Command::RemoveCallback { .. } => false,
        Command::RemoveAll { .. } => false,
        Command::Barrier { .. } => false,
        Command::Unbarrier { .. } => false,
        Command::Quit { .. } => false,
        Command::QuitSafely { .. } => false,
        Command::Idle { .. } => false,
        Command::Watch { .. } => false,
        Command::Event { .. } => false,
        Command::Frame { .. } => false,
        Command::Unframe { .. } => false,
    }
}

/// The number of the first of these lines that is no post, where so many lines stand before them.
fn bad_in_lines(lines: &[Line], before: u64) -> Option<u64>
    requires { before + length lines.now < 2 ^ 64 }
    ensures { result ≡ position_from is_bad (before + 1) (map line_statement lines.now) }
{
    let mut number = before;
    for line in lines {
        number += 1;
        if !is_post(line.command) {
            return Some(number);
        }
    }
    None
}

/// The number of the first line in these blocks that is no post, where so many lines stand before them.
fn bad_in_blocks(blocks: &[Block], before: u64) -> Option<u64>
    requires { before + length (flat_map block_lines blocks.now) < 2 ^ 64 }
    ensures { result ≡ position_from is_bad (before + 1) (flat_map block_lines blocks.now) }
{
    let mut before = before;
    for block in blocks {
        before += 1;
        let found = bad_in_lines(block.lines.as_slice(), before);
        if found.is_some() {
            return found;
        }
        before += block.lines.len() as u64;
    }
    None
}

/// The number of the least line that an inbox run doesn't know, counted from 1.
pub(crate) fn bad_line(script: &Script) -> Option<u64>
    requires { HasText script.now }
    ensures { result ≡ the_bad_line script.now }
{
    if script.loopers > 1 {
        return Some(2);
    }
    let before = 3 + script.handlers.len() as u64;
    if !script.gauges.is_empty() {
        return Some(before + 1);
    }
    if !script.rules.is_empty() {
        return Some(before + 2);
    }
    bad_in_blocks(script.blocks.as_slice(), before + 1)
}
