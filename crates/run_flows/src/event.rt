//! Arrows as trace events: the slice of a post, and that of its dispatch.
ghost use Rattle.std.specs.Prelude.{◌≡◌, ◌++◌, ◌*◌, IfOk, OnOk, map, string_bytes, true};
ghost use Rattle.serde_json.specs.Data.{boolean, put};
ghost use Rattle.serde_json.specs.View.{members_view, view};
ghost use Rattle.run_picture.specs.Rows.{saturated};
ghost use Rattle.run_flows.specs.Events.{arrows_from, dispatch_event, flow_name, arrow_end, placed_slice, post_event, post_name};

use crate::flow::Flow;
use loop_model::NoMemory;
use run_picture::{put_counted, put_number, put_slice, put_text};
use serde_json::{Map, Value};
use std::alloc::Global;

/// How many microseconds a slice lasts: a millisecond is the unit of a history's times, and is seen.
const LASTS: u64 = 1000;

/// The name of a dispatch's slice.
fn dispatch_name(alloc: Global, flow: &Flow) -> Result<String, NoMemory>
    ensures { IfOk result (λ name. string_bytes name ≡ flow_name flow.now) }
{
    let handler = flow.sent.post.handler;
    let name = match flow.sent.post.callback {
        None => {
            let what = flow.sent.post.what;
            format!(in alloc; "handler {handler} what {what}")?
        }
        Some(callback) => format!(in alloc; "handler {handler} callback {callback}")?,
    };
    Ok(name)
}

/// The name of a post's slice.
fn post_name(alloc: Global, flow: &Flow) -> Result<String, NoMemory>
    ensures { IfOk result (λ name. string_bytes name ≡ post_name flow.now) }
{
    let looper = flow.looper;
    let message = dispatch_name(alloc, flow)?;
    let name = format!(in alloc; "post to looper {looper} {message}")?;
    Ok(name)
}

/// A time in milliseconds as microseconds.
fn micros(time: u64) -> u64
    ensures { result ≡ saturated (time * 1000) }
{
    time.saturating_mul(1000)
}

/// A slice of this name in a sender's thread, at a time in milliseconds.
#[tactic(auto, unfolding(crate::specs::Events::placed_slice))]
fn placed(
    alloc: Global,
    name: String,
    thread: u32,
    time: u64,
) -> Result<Map<String, Value>, NoMemory>
    ensures { IfOk result (λ members. members_view members.entries ≡ placed_slice (string_bytes name) thread time) }
{
    let mut members = Map::new(alloc);
    put_text(alloc, &mut members, "name", name)?;
    put_number(alloc, &mut members, "pid", 1)?;
    put_number(alloc, &mut members, "tid", u64::from(thread))?;
    put_number(alloc, &mut members, "ts", micros(time))?;
    put_slice(alloc, &mut members, LASTS)?;
    Ok(members)
}

/// Adds a member that holds.
fn put_true(alloc: Global, members: &mut Map<String, Value>, key: &str) -> Result<(), NoMemory>
    ensures { OnOk result (members_view members.new.entries ≡ put key.now (boolean true) (members_view members.old.entries)) }
{
    members.insert(String::from_str(alloc, key)?, Value::from(true))?;
    Ok(())
}

/// Makes a slice an end of the arrow with this number; `way` is `flow_out` where the arrow begins, and `flow_in` where it ends.
fn end_of(
    alloc: Global,
    slice: Map<String, Value>,
    way: &str,
    arrow: u64,
    message: u64,
) -> Result<Value, NoMemory>
    ensures { IfOk result (λ value. view value ≡ arrow_end way.now arrow message (members_view slice.entries)) }
{
    let mut members = slice;
    put_counted(alloc, &mut members, "number", message)?;
    put_number(alloc, &mut members, "bind_id", arrow)?;
    put_true(alloc, &mut members, way)?;
    Ok(Value::Object(members))
}

/// The slice of a post, where the arrow with this number begins.
fn post_event(alloc: Global, arrow: u64, flow: &Flow) -> Result<Value, NoMemory>
    ensures { IfOk result (λ value. view value ≡ post_event arrow flow.now) }
{
    let name = post_name(alloc, flow)?;
    let slice = placed(alloc, name, flow.sent.sender, flow.sent.time)?;
    end_of(alloc, slice, "flow_out", arrow, flow.number)
}

/// The slice of a dispatch, where the arrow with this number ends.
fn dispatch_event(alloc: Global, arrow: u64, flow: &Flow) -> Result<Value, NoMemory>
    ensures { IfOk result (λ value. view value ≡ dispatch_event arrow flow.now) }
{
    let name = dispatch_name(alloc, flow)?;
    let slice = placed(alloc, name, flow.taker, flow.time)?;
    end_of(alloc, slice, "flow_in", arrow, flow.number)
}

/// Both slices of each arrow; arrows are numbered from 0.
pub(crate) fn push_arrows(
    alloc: Global,
    out: &mut Vec<Value>,
    flows: &[Flow],
) -> Result<(), NoMemory>
    ensures { OnOk result (map view out.new.items ≡ map view out.old.items ++ arrows_from 0 flows.now) }
{
    let mut arrow = 0;
    for flow in flows {
        let post = post_event(alloc, arrow, flow)?;
        out.push(post)?;
        let dispatch = dispatch_event(alloc, arrow, flow)?;
        out.push(dispatch)?;
        arrow += 1;
    }
    Ok(())
}
