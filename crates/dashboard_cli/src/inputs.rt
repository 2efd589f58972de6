// The input of a command, read whole and understood.
ghost use Rattle.std.specs.Prelude.{◌≡◌, IfErr, IfOk, ◌<◌, ◌^◌, ◌-◌};
ghost use Rattle.dash_script.specs.Accepting.{IsScriptText};
ghost use Rattle.dash_script.specs.Reading.{HasText};
ghost use Rattle.dashboard_cli.specs.Answers.{CountsReads};
ghost use Rattle.dashboard_cli.specs.Steps.{StopsReading, IsRefusedInput};
ghost use Rattle.dashboard_cli.specs.Works.{script_inputs, ReadsWhole};
ghost use Rattle.dashboard_cli.specs.OtherWorks.{plan_inputs, trace_inputs};
ghost use Rattle.trace_check.specs.Text.{IsTraceText};
ghost use Rattle.value_animator.specs.Plans.{AreValues};
ghost use Rattle.value_animator.specs.Reading.{IsPlanText};

use crate::reading::{ReadError, read_whole};
use crate::status::{LineCause, Status};
use dash_script::{Cause, Parsed, Script, parse};
use loop_io::Source;
use std::alloc::Global;
use trace_check::{ParsedTrace, Trace, parse_trace};
use value_animator::{ParsedValues, Values, parse_values};

/// Reads the input whole.
pub(crate) fn read_input<S: Source>(
    alloc: Global,
    source: &mut S,
    most: usize,
) -> Result<Vec<u8>, Status>
    requires { most < 2 ^ 64 - 1 }
    ensures whole { IfOk result (λ input. ReadsWhole most (S.left source.old) (S.left source.new) input.items) }
    ensures stopped { IfErr result (StopsReading most (S.left source.old) (S.left source.new)) }
    ensures sound { IfOk result (λ _. S.faults source.new ≡ S.faults source.old) }
    ensures failed { IfErr result (λ status. CountsReads status (S.faults source.old) (S.faults source.new)) }
{
    match read_whole(alloc, source, most) {
        Ok(input) => Ok(input),
        Err(ReadError::Failed) => Err(Status::ReadFault),
        Err(ReadError::TooLong) => Err(Status::TooLong),
        Err(ReadError::NoMemory) => Err(Status::NoMemory),
    }
}

/// The status of a text whose least bad line is this one.
fn bad_text(line: u64, cause: Cause) -> Status
    ensures { result ≡ Status.Script line (LineCause.Text cause) }
{
    Status::Script {
        line,
        cause: LineCause::Text(cause),
    }
}

/// The script of a text.
pub(crate) fn read_script(alloc: Global, input: &[u8]) -> Result<Script, Status>
    ensures read { IfOk result (λ script. IsScriptText input.now script) }
    ensures within { IfOk result (λ script. HasText script) }
    ensures refused { IfErr result (IsRefusedInput script_inputs input.now) }
{
    match parse(alloc, input) {
        Parsed::Ok(script) => Ok(script),
        Parsed::Bad { line, cause } => Err(bad_text(line, cause)),
        Parsed::NoMemory => Err(Status::NoMemory),
    }
}

/// The values of a text.
pub(crate) fn read_plan(alloc: Global, input: &[u8]) -> Result<Values, Status>
    ensures read { IfOk result (λ values. IsPlanText input.now values) }
    ensures within { IfOk result (λ values. AreValues values) }
    ensures refused { IfErr result (IsRefusedInput plan_inputs input.now) }
{
    match parse_values(alloc, input) {
        ParsedValues::Ok(values) => Ok(values),
        ParsedValues::Bad { line, cause } => Err(bad_text(line, cause)),
        ParsedValues::NoMemory => Err(Status::NoMemory),
    }
}

/// The histories of a text.
pub(crate) fn read_trace(alloc: Global, input: &[u8]) -> Result<Trace, Status>
    ensures read { IfOk result (λ trace. IsTraceText input.now trace) }
    ensures refused { IfErr result (IsRefusedInput trace_inputs input.now) }
{
    match parse_trace(alloc, input) {
        ParsedTrace::Ok(trace) => Ok(trace),
        ParsedTrace::Bad { line } => Err(Status::Trace { line }),
        ParsedTrace::NoMemory => Err(Status::NoMemory),
    }
}
