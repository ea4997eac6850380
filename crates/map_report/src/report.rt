//! The map of a policy.
ghost use Rattle.std.specs.Prelude.{◌≡◌, ◌≤◌, [], length};
ghost use Rattle.std.specs.List.{flat_map};
ghost use Rattle.muen_outside.specs.Prints.{Prints};
ghost use Rattle.muen_outside.specs.Puts.{Puts};
ghost use Rattle.policy_lawful.specs.Resolution.{IsResolved, source_of};
ghost use Rattle.map_report.specs.ByNumber.{all_granted_lines, granted_line, granted_lines, map_lines, memory_line, windows_at};
ghost use Rattle.map_report.specs.MapText.{map_text_of, region_lines};
ghost use Rattle.region_alloc.specs.Placed.{IsPlacement};

use crate::lines::{Laid, RegionLine, WindowLine};
use crate::shown::tag;
use expand_kernel::{GrantedWindow, Grants, Region};
use muen_num::Name;
use muen_outside::{Buffer, BufferedSink, Sink, SinkFault};
use policy_lawful::resolved::Subject;
use policy_lawful::{Resolved, Thing};
use region_alloc::Placed;

// The regions at these addresses.
#[tactic(auto, using(muen_outside::proofs::Buffered::items))]
fn put_regions<S: Sink>(
    addresses: &[u64],
    regions: &[Region],
    out: &mut BufferedSink<'_, S>,
) -> Result<(), SinkFault>
    requires { length regions.now ≤ length addresses.now }
    ensures { Prints S.state (region_lines addresses.now regions.now) out.old out.new result }
{
    for (number, region) in regions.iter().enumerate() {
        let line = RegionLine {
            laid: Laid::Region,
            address: addresses[number],
            size: region.size,
            tag: region.tag,
        };
        out.put_line(&line)?;
    }
    Ok(())
}

// Memory of a device, if it is told where it has to be.
#[tactic(auto, using(muen_outside::proofs::Buffered::gives))]
fn put_device<S: Sink>(thing: &Thing, out: &mut BufferedSink<'_, S>) -> Result<(), SinkFault>
    ensures { Prints S.state (memory_line thing.now) out.old out.new result }
{
    let Some(address) = thing.fixed else {
        return Ok(());
    };
    let line = RegionLine {
        laid: Laid::Device,
        address,
        size: thing.size,
        tag: thing.tag,
    };
    out.put_line(&line)
}

#[tactic(auto, using(muen_outside::proofs::Buffered::items))]
fn put_devices<S: Sink>(things: &[Thing], out: &mut BufferedSink<'_, S>) -> Result<(), SinkFault>
    ensures { Prints S.state (flat_map memory_line things.now) out.old out.new result }
{
    for thing in things {
        put_device(thing, out)?;
    }
    Ok(())
}

// A window of the subject of this name, if what it shows is there.
#[tactic(auto, using(muen_outside::proofs::Buffered::gives))]
fn put_window<S: Sink>(
    policy: &Resolved,
    subject: Name,
    window: &GrantedWindow,
    out: &mut BufferedSink<'_, S>,
) -> Result<(), SinkFault>
    ensures { Prints S.state (granted_line policy.now subject window.now) out.old out.new result }
{
    let Some(tag) = tag(policy, window.thing) else {
        return Ok(());
    };
    let line = WindowLine {
        subject,
        guest: window.guest,
        size: window.size,
        rights: window.rights,
        tag,
    };
    out.put_line(&line)
}

// The windows of the subject of this name.
#[tactic(auto, using(muen_outside::proofs::Buffered::items))]
fn put_windows<S: Sink>(
    policy: &Resolved,
    subject: Name,
    windows: &[GrantedWindow],
    out: &mut BufferedSink<'_, S>,
) -> Result<(), SinkFault>
    ensures { Prints S.state (granted_lines policy.now subject windows.now) out.old out.new result }
{
    for window in windows {
        put_window(policy, subject, window, out)?;
    }
    Ok(())
}

// The windows of the subject at an index.
fn windows_at(grants: &[Grants], index: usize) -> &[GrantedWindow]
    ensures { result.now ≡ windows_at grants.now index }
{
    match grants.get(index) {
        Some(grants) => grants.windows.items(),
        None => &[],
    }
}

// The windows of these subjects.
#[tactic(auto, using(muen_outside::proofs::Buffered::items))]
fn put_all_windows<S: Sink>(
    policy: &Resolved,
    subjects: &[Subject],
    grants: &[Grants],
    out: &mut BufferedSink<'_, S>,
) -> Result<(), SinkFault>
    ensures { Prints S.state (all_granted_lines policy.now grants.now 0 subjects.now) out.old out.new result }
{
    for (index, subject) in subjects.iter().enumerate() {
        put_windows(policy, subject.name, windows_at(grants, index), out)?;
    }
    Ok(())
}

// The regions at these addresses, then the devices' memory, then the windows of each subject.
#[tactic(auto, using(muen_outside::proofs::Buffered::gives))]
fn put_map<S: Sink>(
    policy: &Resolved,
    addresses: &[u64],
    regions: &[Region],
    grants: &[Grants],
    out: &mut BufferedSink<'_, S>,
) -> Result<(), SinkFault>
    requires { length regions.now ≤ length addresses.now }
    ensures text { Prints S.state (map_lines policy.now addresses.now regions.now grants.now) out.old out.new result }
    ensures resolved { IsResolved policy.now }
{
    let subjects = policy.subjects();
    put_regions(addresses, regions, out)?;
    put_devices(policy.device_things(), out)?;
    put_all_windows(policy, subjects, grants, out)
}

// The same through a buffer in which nothing waits before, and to its end.
#[tactic(auto, using(muen_outside::proofs::Buffered::gives))]
fn print_map<S: Sink>(
    policy: &Resolved,
    addresses: &[u64],
    regions: &[Region],
    grants: &[Grants],
    buffer: &mut Buffer,
    out: &mut S,
) -> Result<(), SinkFault>
    requires long { length regions.now ≤ length addresses.now }
    requires empty { buffer.old ≡ [] }
    ensures text { Puts (map_lines policy.now addresses.now regions.now grants.now) (S.state out.old) (S.state out.new) result }
    ensures resolved { IsResolved policy.now }
{
    let mut out = BufferedSink { buffer, sink: out };
    put_map(policy, addresses, regions, grants, &mut out)?;
    out.flush()
}

/// Puts the map of a policy: `region ADDRESS SIZE NAME` for each region by number, `device ADDRESS
/// SIZE NAME` for each device's memory, then for each subject, by guest address, `window SUBJECT
/// GUEST SIZE RIGHTS NAME`. The regions lie where the policy's placement has them. Addresses and sizes have sixteen hexadecimal digits. The text goes
/// through the buffer, in which nothing may wait before, and takes no memory. Where the sink fails
/// it has a front of the text.
pub fn map_text<S: Sink>(placed: &Placed, buffer: &mut Buffer, out: &mut S) -> Result<(), SinkFault>
    requires { buffer.old ≡ [] }
    ensures text { Puts (map_text_of (source_of placed.now.expanded.lawful) placed.now.addresses) (S.state out.old) (S.state out.new) result }
    ensures placement { IsPlacement placed.now }
{
    let expanded = placed.expanded();
    let policy = expanded.lawful().resolved();
    print_map(
        policy,
        placed.addresses(),
        expanded.regions(),
        expanded.grants(),
        buffer,
        out,
    )
}
