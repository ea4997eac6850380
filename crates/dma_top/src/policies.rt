//! The commands `map` and `flows`: a policy is read, and what follows from it is printed.
ghost use Rattle.std.specs.Prelude.{◌≡◌, ℕ, List, Ok, IfErr, IfOk};
ghost use Rattle.command_shell.specs.Outcomes.{ComesTo, PutsTo};
ghost use Rattle.device_flows.specs.DeviceFlows.{device_flow_text_of};
ghost use Rattle.dma_map.specs.DmaMapText.{dma_map_text_of};
ghost use Rattle.policy_lawful.specs.Resolution.{source_of};
ghost use Rattle.region_alloc.specs.Placement.{placement_of};
ghost use Rattle.dma_top.specs.Answers.{flows_plan, windows_plan};
ghost use Rattle.dma_top.specs.Reads.{EndsFor, IsToMap};
ghost use Rattle.dma_top.specs.Refusals.{devices};

use crate::reading::{policy_error, read_policy};
use crate::refusal::Refusal;
use command_shell::CommandError;
use device_flows::{device_flow_text, device_flows};
use dma_map::{device_windows, dma_map_text};
use muen_num::NoMemory;
use muen_outside::{Buffer, Files, Sink, SinkFault};
use policy_lawful::Lawful;
use region_alloc::Placed;
use std::alloc::Global;

// The policy of this file, with the addresses of its regions.
fn read_placed<'a, F: Files>(
    alloc: Global,
    policy: &'a str,
    files: &mut F,
) -> Result<Placed, CommandError<'a, Refusal>>
    ensures ok { IfOk result (λ x. IsToMap policy.now (F.held files.old) (F.history files.old) (F.history files.new) (source_of x.expanded.lawful)) }
    ensures err { IfErr result (EndsFor (windows_plan policy.now) (F.held files.old) (F.history files.old) (F.history files.new)) }
    ensures held { F.held files.new ≡ F.held files.old }
{
    let policy = read_policy(alloc, policy, files)?;
    match muen_build::place(alloc, policy) {
        Ok(placed) => Ok(placed),
        Err(refusal) => Err(policy_error(refusal)),
    }
}

fn put_map<'a, S: Sink>(
    alloc: Global,
    placed: &Placed,
    out: &mut S,
) -> Result<(), CommandError<'a, Refusal>>
    ensures { (addresses : List ℕ) → placement_of (source_of placed.now.expanded.lawful) ≡ Ok addresses → PutsTo (dma_map_text_of (source_of placed.now.expanded.lawful) addresses) (S.state out.old) (S.state out.new) result }
{
    let Ok(windows) = device_windows(alloc, placed) else {
        return Err(CommandError::NoMemory);
    };
    let Ok(mut buffer) = Buffer::make(alloc) else {
        return Err(CommandError::NoMemory);
    };
    match dma_map_text(windows.items(), &mut buffer, out) {
        Ok(()) => Ok(()),
        Err(SinkFault) => Err(CommandError::OutputFault),
    }
}

/// Prints where a policy's devices reach memory by themselves.
pub(crate) fn map<'a, F: Files, S: Sink>(
    alloc: Global,
    policy: &'a str,
    files: &mut F,
    out: &mut S,
) -> Result<(), CommandError<'a, Refusal>>
    ensures came { ComesTo devices (windows_plan policy.now) (F.held files.old) (F.held files.new) (F.history files.old) (F.history files.new) (S.state out.old) (S.state out.new) result }
    ensures held { F.held files.new ≡ F.held files.old }
{
    match read_placed(alloc, policy, files) {
        Ok(placed) => put_map(alloc, &placed, out),
        Err(error) => Err(error),
    }
}

fn put_flows<'a, S: Sink>(
    alloc: Global,
    policy: &Lawful,
    out: &mut S,
) -> Result<(), CommandError<'a, Refusal>>
    ensures { PutsTo (device_flow_text_of (source_of policy.now)) (S.state out.old) (S.state out.new) result }
{
    let Ok(flows) = device_flows(alloc, policy) else {
        return Err(CommandError::NoMemory);
    };
    let Ok(mut buffer) = Buffer::make(alloc) else {
        return Err(CommandError::NoMemory);
    };
    match device_flow_text(policy, &flows, &mut buffer, out) {
        Ok(()) => Ok(()),
        Err(SinkFault) => Err(CommandError::OutputFault),
    }
}

/// Prints on whom each subject can depend, through devices too.
pub(crate) fn flows<'a, F: Files, S: Sink>(
    alloc: Global,
    policy: &'a str,
    files: &mut F,
    out: &mut S,
) -> Result<(), CommandError<'a, Refusal>>
    ensures came { ComesTo devices (flows_plan policy.now) (F.held files.old) (F.held files.new) (F.history files.old) (F.history files.new) (S.state out.old) (S.state out.new) result }
    ensures held { F.held files.new ≡ F.held files.old }
{
    match read_policy(alloc, policy, files) {
        Ok(policy) => put_flows(alloc, &policy, out),
        Err(error) => Err(error),
    }
}
