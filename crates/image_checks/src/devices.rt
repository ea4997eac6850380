//! Whether the devices of an image are those of a policy.
ghost use Rattle.std.specs.Prelude.{◌≡◌, ◌<◌, length, IfOk};
ghost use Rattle.std.specs.List.{AllZip};
ghost use Rattle.image_checks.specs.Agreement.{AreMade, DeviceAgrees, IsWindowOf};
ghost use Rattle.image_checks.specs.Firsts.{Decides};
ghost use Rattle.image_checks.specs.PlanFault.{AgreesAt, IsFirstDifference};
ghost use Rattle.image_soundness.specs.Sound.{IsDeviceOf};
ghost use Rattle.policy_lawful.specs.Resolution.{source_of};

use crate::spans::{has_size, has_tag};
use event_emit::devices;
use expand_kernel::Expanded;
use image_pack::{DevicePart, Image, IrqPart, Parts, WindowPart};
use muen_num::{Name, NoMemory, PortSpan, Tag, TagPart};
use policy_lawful::Lawful;
use policy_lawful::source::{Device, DeviceMemory};
use std::alloc::Global;

fn same_ports(a: &[PortSpan], b: &[PortSpan]) -> bool
    ensures { Decides (a.now ≡ b.now) result }
{
    a == b
}

fn same_irqs(a: &[IrqPart], b: &[IrqPart]) -> bool
    ensures { Decides (a.now ≡ b.now) result }
{
    a == b
}

// Whether a window is on this memory of a device, and on all of it.
fn is_window(image: &Image, device: Name, memory: &DeviceMemory, window: WindowPart) -> bool
    requires { length image.now.contents ≡ length image.now.spans }
    ensures { Decides (IsWindowOf image.now device memory.now window) result }
{
    let tag = Tag {
        owner: device,
        part: TagPart::Named(memory.name),
    };
    has_tag(image, window.span, &tag) && has_size(image, window.span, memory.size)
}

// Whether windows are on these memories of a device, in order.
fn are_windows(
    image: &Image,
    device: Name,
    memories: &[DeviceMemory],
    windows: &[WindowPart],
) -> bool
    requires { length image.now.contents ≡ length image.now.spans }
    ensures { Decides (AllZip (IsWindowOf image.now device) memories.now windows.now) result }
{
    if memories.len() != windows.len() {
        return false;
    }
    for index in 0..windows.len() {
        if !is_window(image, device, &memories[index], windows[index]) {
            return false;
        }
    }
    true
}

// Whether a device has the name, the memory, the ports and the interrupts of one that was made.
fn agrees(image: &Image, device: &Device, made: &DevicePart, part: &DevicePart) -> bool
    requires { length image.now.contents ≡ length image.now.spans }
    ensures { Decides (DeviceAgrees image.now device.now made.now part.now) result }
{
    part.name == device.name
        && same_ports(part.ports.items(), made.ports.items())
        && same_irqs(part.irqs.items(), made.irqs.items())
        && are_windows(
            image,
            device.name,
            device.memory.items(),
            part.windows.items(),
        )
}

// Whether the device at an index, which both have, is that of the policy, of which these are made.
fn is_device(lawful: &Lawful, image: &Image, made: &[DevicePart], index: usize) -> bool
    requires contents { length image.now.contents ≡ length image.now.spans }
    requires made { AreMade lawful.now made.now }
    requires declared { index < length lawful.now.devices }
    requires there { index < length image.now.devices }
    ensures { Decides (AgreesAt (IsDeviceOf (source_of lawful.now) image.now) lawful.now.devices image.now.devices index) result }
{
    let policy = lawful.resolved();
    let device = &policy.devices()[index];
    let part = &image.devices.items()[index];
    agrees(image, device, &made[index], part)
}

// The first device that is not that of the policy, of which these are made.
fn first_other(lawful: &Lawful, image: &Image, made: &[DevicePart]) -> Option<usize>
    requires contents { length image.now.contents ≡ length image.now.spans }
    requires made { AreMade lawful.now made.now }
    ensures { IsFirstDifference (IsDeviceOf (source_of lawful.now) image.now) lawful.now.devices image.now.devices result }
{
    let declared = lawful.resolved().devices().len();
    let there = image.devices.len();
    let both = declared.min(there);
    for index in 0..both {
        if !is_device(lawful, image, made, index) {
            return Some(index);
        }
    }
    if declared == there { None } else { Some(both) }
}

/// The first index at which the devices of an image differ from the policy's, if there is one.
///
/// # Errors
/// Memory is refused.
pub(crate) fn device_fault(
    alloc: Global,
    expanded: &Expanded,
    parts: &Parts,
) -> Result<Option<usize>, NoMemory>
    ensures { IfOk result (IsFirstDifference (IsDeviceOf (source_of expanded.now.lawful) parts.now) (source_of expanded.now.lawful).devices parts.now.devices) }
{
    let lawful = expanded.lawful();
    let policy = lawful.resolved();
    let made = devices(alloc, expanded, 0)?;
    Ok(first_other(lawful, parts.image(), made.items()))
}
