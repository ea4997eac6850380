// The commands `map` and `flows`: a policy is read, and what follows from it is printed.
ghost use Rattle.std.specs.Prelude.{◌≡◌, Some, IfOk, IfErr};
ghost use Rattle.flow_report.specs.FlowText.{flow_text_of};
ghost use Rattle.policy_lawful.specs.Resolution.{source_of};
ghost use Rattle.muen_top.specs.Calls.{ComesOfCommand};
ghost use Rattle.muen_top.specs.Commands.{flows as flows_command, map as map_command};
ghost use Rattle.muen_top.specs.PolicyCommands.{IsAnsweredByFlows, IsAnsweredByMap, StopsCommand};
ghost use Rattle.muen_top.specs.Runs.{RunsTo, RunsToMap};

use crate::loading::load;
use crate::outcome::{CommandError, Outcome};
use dma_emit::Placed;
use flow_report::flow_text;
use map_report::map_text;
use muen_num::limits::POLICY_MOST;
use muen_outside::{Buffer, Files, Sink, SinkFault};
use policy_lawful::Lawful;
use std::alloc::Global;

// The policy of this file, with the addresses of its regions.
fn read_placed<'a, F: Files>(
    alloc: Global,
    policy: &'a str,
    files: &mut F,
) -> Result<Placed, CommandError<'a>>
    ensures ok { IfOk result (IsAnsweredByMap policy.now (F.held files.old) (F.history files.old) (F.history files.new)) }
    ensures err { IfErr result (StopsCommand (map_command policy.now) (F.held files.old) (F.history files.old) (F.history files.new)) }
    ensures held { F.held files.new ≡ F.held files.old }
{
    let bytes = load(alloc, policy, POLICY_MOST, files)?;
    let placed = muen_build::lay(alloc, bytes.items())?;
    Ok(placed)
}

fn print_map<'a, S: Sink>(alloc: Global, placed: &Placed, out: &mut S) -> Outcome<'a>
    ensures { RunsToMap (source_of placed.now.expanded.lawful) (S.state out.old) (S.state out.new) result }
{
    let mut buffer = match Buffer::make(alloc) {
        Ok(buffer) => buffer,
        Err(_) => return Outcome::Stopped(CommandError::NoMemory),
    };
    match map_text(placed, &mut buffer, out) {
        Ok(()) => Outcome::Done,
        Err(SinkFault) => Outcome::OutputFault,
    }
}

/// Reads the policy, and prints where its regions lie and what each subject sees.
pub(crate) fn map<'a, F: Files, S: Sink>(
    alloc: Global,
    policy: &'a str,
    files: &mut F,
    out: &mut S,
) -> Outcome<'a>
    ensures { ComesOfCommand (Some (map_command policy.now)) (F.held files.old) (F.held files.new) (F.history files.old) (F.history files.new) (S.state out.old) (S.state out.new) result }
{
    match read_placed(alloc, policy, files) {
        Ok(placed) => print_map(alloc, &placed, out),
        Err(error) => Outcome::Stopped(error),
    }
}

// The policy of this file.
fn read_lawful<'a, F: Files>(
    alloc: Global,
    policy: &'a str,
    files: &mut F,
) -> Result<Lawful, CommandError<'a>>
    ensures ok { IfOk result (IsAnsweredByFlows policy.now (F.held files.old) (F.history files.old) (F.history files.new)) }
    ensures err { IfErr result (StopsCommand (flows_command policy.now) (F.held files.old) (F.history files.old) (F.history files.new)) }
    ensures held { F.held files.new ≡ F.held files.old }
{
    let bytes = load(alloc, policy, POLICY_MOST, files)?;
    let lawful = muen_build::lawful(alloc, bytes.items())?;
    Ok(lawful)
}

fn print_flows<'a, S: Sink>(alloc: Global, policy: &Lawful, out: &mut S) -> Outcome<'a>
    ensures { RunsTo (flow_text_of (source_of policy.now)) (S.state out.old) (S.state out.new) result }
{
    let flows = match flow_report::flows(alloc, policy) {
        Ok(flows) => flows,
        Err(_) => return Outcome::Stopped(CommandError::NoMemory),
    };
    let mut buffer = match Buffer::make(alloc) {
        Ok(buffer) => buffer,
        Err(_) => return Outcome::Stopped(CommandError::NoMemory),
    };
    match flow_text(policy, &flows, &mut buffer, out) {
        Ok(()) => Outcome::Done,
        Err(SinkFault) => Outcome::OutputFault,
    }
}

/// Reads the policy, and prints on whom each subject can depend.
pub(crate) fn flows<'a, F: Files, S: Sink>(
    alloc: Global,
    policy: &'a str,
    files: &mut F,
    out: &mut S,
) -> Outcome<'a>
    ensures { ComesOfCommand (Some (flows_command policy.now)) (F.held files.old) (F.held files.new) (F.history files.old) (F.history files.new) (S.state out.old) (S.state out.new) result }
{
    match read_lawful(alloc, policy, files) {
        Ok(lawful) => print_flows(alloc, &lawful, out),
        Err(error) => Outcome::Stopped(error),
    }
}
