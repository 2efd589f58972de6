//! The lines of a looper's journal.
ghost use Rattle.std.specs.Prelude.{◌≡◌, ◌++◌, OnOk, string_bytes};
ghost use Rattle.std.specs.List.{flat_map};
ghost use Rattle.run_model.specs.Text.{act_lines, line_text};

use loop_model::{Act, NoMemory};
use std::fmt::Write;

/// Writes the lines of an act, none or one.
fn write_act(out: &mut String, act: &Act) -> Result<(), NoMemory>
    ensures { OnOk result (string_bytes out.new ≡ string_bytes out.old ++ flat_map line_text (act_lines act.now)) }
{
    match *act {
        Act::Idle { id, .. } => writeln!(out, "idle {id}")?,
        Act::Event { fd, events, .. } => writeln!(out, "event {fd} {events}")?,
        Act::Paint { gauge, value } => writeln!(out, "paint {gauge} {value}")?,
        Act::Dispatch { .. } | Act::Vsync { .. } => {}
    }
    Ok(())
}

/// Writes the lines of a journal.
#[tactic(auto, using(std::proofs::lemmas::List::append_assoc))]
pub fn write_acts(out: &mut String, acts: &[Act]) -> Result<(), NoMemory>
    ensures { OnOk result (string_bytes out.new
        ≡ string_bytes out.old ++ flat_map line_text (flat_map act_lines acts.now)) }
{
    for act in acts {
        write_act(out, act)?;
    }
    Ok(())
}
