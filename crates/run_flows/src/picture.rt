//! The arrows of a trace as text.
ghost use Rattle.std.specs.Prelude.{◌≡◌, IfOk, map};
ghost use Rattle.serde_json.specs.View.{view};
ghost use Rattle.run_flows.specs.Events.{DrawsFlows, events, process};
ghost use Rattle.run_flows.specs.Picture.{ShowsFlows};

use crate::event::push_arrows;
use crate::flow::flows;
use loop_model::NoMemory;
use run_picture::{Picture, naming};
use serde_json::Value;
use std::alloc::Global;
use trace_check::{ParsedTrace, Trace, parse_trace};

/// The name of the process that has the senders' threads.
#[tactic(auto, unfolding(crate::specs::Events::process))]
fn process(alloc: Global) -> Result<Value, NoMemory>
    ensures { IfOk result (λ value. view value ≡ process) }
{
    let members = naming(alloc, "process_name", String::from_str(alloc, "senders")?)?;
    Ok(Value::Object(members))
}

/// The events of a trace's arrows.
fn events(alloc: Global, trace: &Trace) -> Result<Vec<Value>, NoMemory>
    ensures { IfOk result (λ found. map view found.items ≡ events trace.now) }
{
    let flows = flows(alloc, trace)?;
    let mut out = Vec::new(alloc);
    let first = process(alloc)?;
    out.push(first)?;
    push_arrows(alloc, &mut out, &flows)?;
    Ok(out)
}

/// The arrows of a trace as trace events in JSON: of each one the slice of the post and the slice of the dispatch, each in its
/// sender's thread, and nothing else. `NoMemory` where there was none.
pub fn flows_text(alloc: Global, trace: &Trace) -> Result<Vec<u8>, NoMemory>
    ensures { IfOk result (λ text. DrawsFlows trace.now text.items) }
{
    let events = events(alloc, trace)?;
    let text = Value::Array(events).to_string(alloc)?;
    let mut out = Vec::new(alloc);
    out.extend_from_slice(text.as_bytes())?;
    out.extend_from_slice(b"\n")?;
    Ok(out)
}

/// The arrows of the trace that a text spells, or the text's least bad line. `NoMemory` where there was none.
pub fn flows_of(alloc: Global, bytes: &[u8]) -> Picture
    ensures { ShowsFlows result bytes.now }
{
    match parse_trace(alloc, bytes) {
        ParsedTrace::Ok(trace) => match flows_text(alloc, &trace) {
            Ok(text) => Picture::Text(text),
            Err(NoMemory) => Picture::NoMemory,
        },
        ParsedTrace::Bad { line } => Picture::Bad { line },
        ParsedTrace::NoMemory => Picture::NoMemory,
    }
}
