// The text of each command, made whole before it is written.
ghost use Rattle.std.specs.Prelude.{◌≡◌, [], None, IfErr, IfOk};
ghost use Rattle.dashboard_cli.specs.Answers.{CountsReads};
ghost use Rattle.dashboard_cli.specs.Steps.{StopsBeforeText, IsRefusedInput, MakesProduct};
ghost use Rattle.dashboard_cli.specs.Works.{script_inputs};
ghost use Rattle.dashboard_cli.specs.OtherWorks.{inbox_scripts, plan_inputs, trace_inputs, IsInboxText};
ghost use Rattle.dashboard_cli.specs.Words.{work, work_by};
ghost use Rattle.inbox_queue.specs.InboxRun.{IsInboxRun};
ghost use Rattle.value_animator.specs.Plans.{AreValues};
ghost use Rattle.value_animator.specs.Run.{IsRunOf};

use crate::inbox::inbox_text;
use crate::inputs::{read_input, read_plan, read_script, read_trace};
use crate::reading::{MOST_BYTES, MOST_TRACE_BYTES};
use crate::status::{LineCause, Status};
use crate::verdict::{judge, verdict_text};
use crate::words::Subcommand;
use dash_report::{report_text, summary_text};
use dash_script::{Script, make_script, migrate, print};
use dash_stage::{run_free, run_script};
use frame_phases::FrameRecord;
use inbox_queue::{InboxRan, InboxReport, run_inbox};
use loop_io::{Clock, Gate, Source};
use loop_model::NoMemory;
use run_model::Report;
use std::alloc::Global;
use std::sync::Wait;
use std::thread::Threads;
use std::time;
use trace_check::print_records;
use value_animator::{Values, ValuesRan, run_values};

/// What is returned beside a text: the report or the frames of the run that it came from.
#[derive(Drop)]
pub(crate) struct Returned {
    pub report: Option<Report>,
    pub frames: Option<FrameRecord>,
    pub inbox: Option<InboxReport>,
}

impl Returned {
    ghost use Rattle.std.specs.Prelude.{◌≡◌};
    ghost use Rattle.dashboard_cli.specs.Works.{nothing_returned, only_report};
    ghost use Rattle.dashboard_cli.specs.OtherWorks.{only_frames, only_inbox};

    pub(crate) fn nothing() -> Returned
        ensures { result ≡ nothing_returned }
    {
        Returned {
            report: None,
            frames: None,
            inbox: None,
        }
    }

    fn report(report: Report) -> Returned
        ensures { result ≡ only_report report }
    {
        Returned {
            report: Some(report),
            frames: None,
            inbox: None,
        }
    }

    fn frames(frames: FrameRecord) -> Returned
        ensures { result ≡ only_frames frames }
    {
        Returned {
            report: None,
            frames: Some(frames),
            inbox: None,
        }
    }

    fn inbox(report: InboxReport) -> Returned
        ensures { result ≡ only_inbox report }
    {
        Returned {
            report: None,
            frames: None,
            inbox: Some(report),
        }
    }
}

/// A text that is ready to be written, and what is returned beside it.
#[derive(Drop)]
pub(crate) struct Product {
    pub text: Vec<u8>,
    pub returned: Returned,
}

impl From<NoMemory> for Status {
    ghost use Rattle.std.specs.Prelude.{◌≡◌};
    ghost use Rattle.dashboard_cli.specs.declared.status.Status.TheVariants as status;

    ghost from_gives = { λ _ s. s ≡ status.NoMemory };

    fn from(_: NoMemory) -> Status {
        Status::NoMemory
    }
}

/// Makes the text of a command, whole.
pub(crate) fn produce<
    R: Threads + Wait + time::Clock + Sync,
    S: Source,
    C: Clock + Sync,
    G: Gate + Sync,
>(
    rt: &R,
    alloc: Global,
    command: Subcommand,
    source: &mut S,
    clock: &C,
    gate: &G,
) -> Result<Product, Status>
    ensures made { IfOk result (MakesProduct (work_by (C.shows clock.now) command) (S.left source.old) (S.left source.new)) }
    ensures stopped { IfErr result (StopsBeforeText (work command).reads (S.left source.old) (S.left source.new)) }
    ensures unread { (work command).reads.most ≡ None → source.new ≡ source.old }
    ensures sound { IfOk result (λ _. S.faults source.new ≡ S.faults source.old) }
    ensures failed { IfErr result (λ status. CountsReads status (S.faults source.old) (S.faults source.new)) }
{
    match command {
        Subcommand::Run => run_input(rt, alloc, source, gate),
        Subcommand::RunFree => run_input_free(rt, alloc, source, clock, gate),
        Subcommand::Text => print_input(alloc, source),
        Subcommand::Migrate => migrate_input(alloc, source),
        Subcommand::Make { number } => print_made(alloc, number),
        Subcommand::MakeRun { number } => run_made(rt, alloc, number, gate),
        Subcommand::Trace => trace_input(rt, alloc, source, gate),
        Subcommand::Check => check_input(alloc, source),
        Subcommand::Animate => animate_input(alloc, source),
        Subcommand::Inbox => inbox_input(rt, alloc, source, gate),
    }
}

/// Reads a script, runs it, and makes the text of its report.
fn run_input<R: Threads + Wait + Sync, S: Source, G: Gate + Sync>(
    rt: &R,
    alloc: Global,
    source: &mut S,
    gate: &G,
) -> Result<Product, Status>
    ensures made { IfOk result (MakesProduct (work Subcommand.Run) (S.left source.old) (S.left source.new)) }
    ensures stopped { IfErr result (StopsBeforeText script_inputs (S.left source.old) (S.left source.new)) }
    ensures sound { IfOk result (λ _. S.faults source.new ≡ S.faults source.old) }
    ensures failed { IfErr result (λ status. CountsReads status (S.faults source.old) (S.faults source.new)) }
{
    let input = read_input(alloc, source, MOST_BYTES)?;
    let script = read_script(alloc, input.as_slice())?;
    let report = run_script(rt, alloc, script, gate)?;
    let text = report_text(alloc, &report)?;
    let returned = Returned::report(report);
    Ok(Product { text, returned })
}

/// Reads a script, runs it by the clock, and makes the text of its report.
fn run_input_free<
    R: Threads + Wait + time::Clock + Sync,
    S: Source,
    C: Clock + Sync,
    G: Gate + Sync,
>(rt: &R, alloc: Global, source: &mut S, clock: &C, gate: &G) -> Result<Product, Status>
    ensures made { IfOk result (MakesProduct (work_by (C.shows clock.now) Subcommand.RunFree) (S.left source.old) (S.left source.new)) }
    ensures stopped { IfErr result (StopsBeforeText script_inputs (S.left source.old) (S.left source.new)) }
    ensures sound { IfOk result (λ _. S.faults source.new ≡ S.faults source.old) }
    ensures failed { IfErr result (λ status. CountsReads status (S.faults source.old) (S.faults source.new)) }
{
    let input = read_input(alloc, source, MOST_BYTES)?;
    let script = read_script(alloc, input.as_slice())?;
    let report = run_free(rt, alloc, script, clock, gate)?;
    let text = report_text(alloc, &report)?;
    let returned = Returned::report(report);
    Ok(Product { text, returned })
}

/// Reads a script, and prints it.
fn print_input<S: Source>(alloc: Global, source: &mut S) -> Result<Product, Status>
    ensures made { IfOk result (MakesProduct (work Subcommand.Text) (S.left source.old) (S.left source.new)) }
    ensures stopped { IfErr result (StopsBeforeText script_inputs (S.left source.old) (S.left source.new)) }
    ensures sound { IfOk result (λ _. S.faults source.new ≡ S.faults source.old) }
    ensures failed { IfErr result (λ status. CountsReads status (S.faults source.old) (S.faults source.new)) }
{
    let input = read_input(alloc, source, MOST_BYTES)?;
    let script = read_script(alloc, input.as_slice())?;
    let text = print(alloc, &script)?;
    let returned = Returned::nothing();
    Ok(Product { text, returned })
}

/// Reads a script, and prints it as one of edition 2.
fn migrate_input<S: Source>(alloc: Global, source: &mut S) -> Result<Product, Status>
    ensures made { IfOk result (MakesProduct (work Subcommand.Migrate) (S.left source.old) (S.left source.new)) }
    ensures stopped { IfErr result (StopsBeforeText script_inputs (S.left source.old) (S.left source.new)) }
    ensures sound { IfOk result (λ _. S.faults source.new ≡ S.faults source.old) }
    ensures failed { IfErr result (λ status. CountsReads status (S.faults source.old) (S.faults source.new)) }
{
    let input = read_input(alloc, source, MOST_BYTES)?;
    let script = read_script(alloc, input.as_slice())?;
    let brought_up = migrate(alloc, &script)?;
    let text = print(alloc, &brought_up)?;
    let returned = Returned::nothing();
    Ok(Product { text, returned })
}

/// Prints the script that is made from the number.
fn print_made(alloc: Global, number: u32) -> Result<Product, Status>
    ensures made { IfOk result (λ product. (work (Subcommand.Make number)).Makes [] product.text.items product.returned) }
    ensures stopped { IfErr result (λ status. status ≡ Status.NoMemory) }
{
    let script = make_script(alloc, number)?;
    let text = print(alloc, &script)?;
    let returned = Returned::nothing();
    Ok(Product { text, returned })
}

/// Runs the script that is made from the number, and makes the text of its summary.
fn run_made<R: Threads + Wait + Sync, G: Gate + Sync>(
    rt: &R,
    alloc: Global,
    number: u32,
    gate: &G,
) -> Result<Product, Status>
    ensures made { IfOk result (λ product. (work (Subcommand.MakeRun number)).Makes [] product.text.items product.returned) }
    ensures stopped { IfErr result (λ status. status ≡ Status.NoMemory) }
{
    let made = make_script(alloc, number)?;
    let report = run_script(rt, alloc, made, gate)?;
    let text = summary_text(alloc, number, &report)?;
    let returned = Returned::report(report);
    Ok(Product { text, returned })
}

/// Reads a script, runs it, and prints the histories of its queues.
fn trace_input<R: Threads + Wait + Sync, S: Source, G: Gate + Sync>(
    rt: &R,
    alloc: Global,
    source: &mut S,
    gate: &G,
) -> Result<Product, Status>
    ensures made { IfOk result (MakesProduct (work Subcommand.Trace) (S.left source.old) (S.left source.new)) }
    ensures stopped { IfErr result (StopsBeforeText script_inputs (S.left source.old) (S.left source.new)) }
    ensures sound { IfOk result (λ _. S.faults source.new ≡ S.faults source.old) }
    ensures failed { IfErr result (λ status. CountsReads status (S.faults source.old) (S.faults source.new)) }
{
    let input = read_input(alloc, source, MOST_BYTES)?;
    let script = read_script(alloc, input.as_slice())?;
    let ran = run_script(rt, alloc, script, gate)?;
    let text = print_records(alloc, ran.queues.as_slice())?;
    let returned = Returned::report(ran);
    Ok(Product { text, returned })
}

/// Reads histories of queues, and tells whether each is legal.
fn check_input<S: Source>(alloc: Global, source: &mut S) -> Result<Product, Status>
    ensures made { IfOk result (MakesProduct (work Subcommand.Check) (S.left source.old) (S.left source.new)) }
    ensures stopped { IfErr result (StopsBeforeText trace_inputs (S.left source.old) (S.left source.new)) }
    ensures sound { IfOk result (λ _. S.faults source.new ≡ S.faults source.old) }
    ensures failed { IfErr result (λ status. CountsReads status (S.faults source.old) (S.faults source.new)) }
{
    let input = read_input(alloc, source, MOST_TRACE_BYTES)?;
    let trace = read_trace(alloc, input.as_slice())?;
    let verdict = judge(alloc, trace.queues.as_slice())?;
    let text = verdict_text(alloc, verdict)?;
    let returned = Returned::nothing();
    Ok(Product { text, returned })
}

/// Reads a plan of values, and runs it over frames.
fn animate_input<S: Source>(alloc: Global, source: &mut S) -> Result<Product, Status>
    ensures made { IfOk result (MakesProduct (work Subcommand.Animate) (S.left source.old) (S.left source.new)) }
    ensures stopped { IfErr result (StopsBeforeText plan_inputs (S.left source.old) (S.left source.new)) }
    ensures sound { IfOk result (λ _. S.faults source.new ≡ S.faults source.old) }
    ensures failed { IfErr result (λ status. CountsReads status (S.faults source.old) (S.faults source.new)) }
{
    let input = read_input(alloc, source, MOST_BYTES)?;
    let values = read_plan(alloc, input.as_slice())?;
    let (text, frames) = animate(alloc, &values)?;
    let returned = Returned::frames(frames);
    Ok(Product { text, returned })
}

/// Reads a script, runs it through an inbox, and makes the text of what came of it.
#[tactic(auto, using(crate::proofs::Inboxes::inbox_stops))]
fn inbox_input<R: Threads + Wait + Sync, S: Source, G: Gate + Sync>(
    rt: &R,
    alloc: Global,
    source: &mut S,
    gate: &G,
) -> Result<Product, Status>
    ensures made { IfOk result (MakesProduct (work Subcommand.Inbox) (S.left source.old) (S.left source.new)) }
    ensures stopped { IfErr result (StopsBeforeText inbox_scripts (S.left source.old) (S.left source.new)) }
    ensures sound { IfOk result (λ _. S.faults source.new ≡ S.faults source.old) }
    ensures failed { IfErr result (λ status. CountsReads status (S.faults source.old) (S.faults source.new)) }
{
    let input = read_input(alloc, source, MOST_BYTES)?;
    let report = run_with_inbox(rt, alloc, input.as_slice(), gate)?;
    let text = inbox_text(alloc, &report)?;
    let returned = Returned::inbox(report);
    Ok(Product { text, returned })
}

/// Runs the script of a text through an inbox.
fn run_with_inbox<R: Threads + Wait + Sync, G: Gate + Sync>(
    rt: &R,
    alloc: Global,
    input: &[u8],
    gate: &G,
) -> Result<InboxReport, Status>
    ensures ran { IfOk result (λ report. IsInboxText input.now report.script × IsInboxRun report.script report) }
    ensures refused { IfErr result (IsRefusedInput inbox_scripts input.now) }
{
    let script = read_script(alloc, input)?;
    match run_inbox(rt, alloc, script, gate) {
        InboxRan::Ok(report) => Ok(report),
        InboxRan::Bad { line } => Err(Status::Script {
            line,
            cause: LineCause::Inbox,
        }),
        InboxRan::NoMemory => Err(Status::NoMemory),
    }
}

/// Runs values over frames.
fn animate(alloc: Global, values: &Values) -> Result<(Vec<u8>, FrameRecord), NoMemory>
    requires { AreValues values.now }
    ensures { IfOk result (λ made. IsRunOf values.now made.0.items made.1) }
{
    match run_values(alloc, values) {
        ValuesRan::Ok { text, frames } => Ok((text, frames)),
        ValuesRan::NoMemory => Err(NoMemory),
    }
}
