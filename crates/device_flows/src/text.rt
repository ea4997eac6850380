//! The text of flows in which devices count.
ghost use Rattle.std.specs.Prelude.{◌≡◌, []};
ghost use Rattle.muen_outside.specs.Prints.{Prints};
ghost use Rattle.muen_outside.specs.Puts.{Puts};
ghost use Rattle.policy_lawful.specs.Resolution.{source_of};
ghost use Rattle.device_flows.specs.DeviceFlows.{AreDeviceFlows, device_flow_text_of};

use flow_report::{FlowSets, put_lines};
use muen_outside::{Buffer, BufferedSink, Sink, SinkFault};
use policy_lawful::Lawful;

// All lines.
fn put_text<S: Sink>(
    policy: &Lawful,
    flows: &FlowSets,
    out: &mut BufferedSink<'_, S>,
) -> Result<(), SinkFault>
    requires { AreDeviceFlows (source_of policy.now) flows.now }
    ensures { Prints S.state (device_flow_text_of (source_of policy.now)) out.old out.new result }
{
    put_lines(policy.resolved().subjects(), flows.sets(), out)
}

/// Puts a line for each subject: `flow SUBJECT from S1 S2 ..`, the subject itself and all subjects that
/// can reach it where devices count, in the policy's order, as `flow_text` of `flow_report` does. The
/// text goes through the buffer, in which nothing may wait before, and takes no memory. Where the sink
/// fails it has a front of the text.
#[tactic(auto, using(muen_outside::proofs::Buffered::gives))]
pub fn device_flow_text<S: Sink>(
    policy: &Lawful,
    flows: &FlowSets,
    buffer: &mut Buffer,
    out: &mut S,
) -> Result<(), SinkFault>
    requires flows { AreDeviceFlows (source_of policy.now) flows.now }
    requires empty { buffer.old ≡ [] }
    ensures { Puts (device_flow_text_of (source_of policy.now)) (S.state out.old) (S.state out.new) result }
{
    let mut out = BufferedSink { buffer, sink: out };
    put_text(policy, flows, &mut out)?;
    out.flush()
}
