//! The spans of a placed policy by their numbers.
ghost use Rattle.std.specs.Prelude.{◌≡◌, ℕ, List, [], ◌∷◌, ◌+◌, ◌/◌, ◌<◌, ◌≤◌, ◌^◌, ◌++◌, length, map, All, IfOk, OnOk};
ghost use Rattle.std.specs.List.{enumerate_from};
ghost use Rattle.muen_num.specs.declared.limits.TheConstants.{PAGE};
ghost use Rattle.span_emit.specs.ByAddress.{AreSpansByAddress, HasNames, memory_tag};
ghost use Rattle.span_emit.specs.Spans.{device_span, device_spans, region_span, region_spans, span_kind};
ghost use Rattle.policy_lawful.specs.ByIndex.{memories_of};
ghost use Rattle.span_emit.specs.SpansOf.{spans_of};

use expand_kernel::{Region, RegionKind};
use image_pack::{SpanKind, SpanPart};
use muen_num::limits::PAGE;
use muen_num::{Name, NoMemory, Tag, TagPart};
use policy_lawful::source::{Device, DeviceMemory};
use region_alloc::Placed;
use std::alloc::{AllocError, Global};

fn span_kind(kind: RegionKind) -> SpanKind
    ensures { result ≡ span_kind kind }
{
    match kind {
        RegionKind::Own => SpanKind::Own,
        RegionKind::Channel => SpanKind::Channel,
        RegionKind::Provided => SpanKind::Provided,
        RegionKind::Device => SpanKind::Device,
        RegionKind::Kernel => SpanKind::Kernel,
    }
}

// A region at its address.
fn region_span(number: u16, region: Region, address: u64) -> SpanPart
    requires { region.size / PAGE < 2 ^ 32 }
    ensures span { result ≡ region_span (number, (region, address)) }
    ensures named { HasNames result.tag }
{
    SpanPart {
        address,
        pages: (region.size / PAGE) as u32,
        number,
        kind: span_kind(region.kind),
        tag: region.tag,
    }
}

// The memory of a device, with its tag.
fn device_span(number: u16, tag: Tag, memory: &DeviceMemory) -> SpanPart
    requires { memory.now.size / PAGE < 2 ^ 32 }
    ensures span { (device : List ℕ) → tag ≡ memory_tag device memory.now → result ≡ device_span (number, (device, memory.now)) }
    ensures named { HasNames result.tag }
{
    SpanPart {
        address: memory.physical_address,
        pages: (memory.size / PAGE) as u32,
        number,
        kind: SpanKind::Device,
        tag,
    }
}

// Each region at its address, numbered from 0 on.
fn of_regions(
    alloc: Global,
    regions: &[Region],
    addresses: &[u64],
) -> Result<Vec<SpanPart>, AllocError>
    requires few { length regions.now ≤ 2 ^ 16 }
    requires small { All (λ r. r.size / PAGE < 2 ^ 32) regions.now }
    ensures spans { IfOk result (λ v. v.items ≡ region_spans regions.now addresses.now) }
    ensures named { IfOk result (λ v. All (λ s. HasNames s.tag) v.items) }
{
    let mut spans = Vec::new(alloc);
    for (region, address) in regions.iter().zip(addresses) {
        let number = spans.len() as u16;
        spans.push(region_span(number, *region, *address))?;
    }
    Ok(spans)
}

// Appends memory of the device of this name.
fn push_span(
    spans: &mut Vec<SpanPart>,
    device: Name,
    memory: &DeviceMemory,
) -> Result<(), AllocError>
    requires few { length spans.old.items < 2 ^ 16 }
    requires small { memory.now.size / PAGE < 2 ^ 32 }
    requires named { All (λ s. HasNames s.tag) spans.old.items }
    ensures spans { OnOk result (spans.new.items ≡ spans.old.items ++ device_span (length spans.old.items, (device, memory.now)) ∷ []) }
    ensures named { OnOk result (All (λ s. HasNames s.tag) spans.new.items) }
{
    let number = spans.len() as u16;
    let tag = Tag {
        owner: device,
        part: TagPart::Named(memory.name),
    };
    spans.push(device_span(number, tag, memory))?;
    Ok(())
}

// Appends a device's memory.
fn push_memory(spans: &mut Vec<SpanPart>, device: &Device) -> Result<(), AllocError>
    requires few { length spans.old.items + length device.now.memory ≤ 2 ^ 16 }
    requires small { All (λ m. m.size / PAGE < 2 ^ 32) device.now.memory }
    requires named { All (λ s. HasNames s.tag) spans.old.items }
    ensures spans { OnOk result (spans.new.items ≡ spans.old.items ++ map device_span (enumerate_from (length spans.old.items) (map (λ m. (device.now.name, m)) device.now.memory))) }
    ensures named { OnOk result (All (λ s. HasNames s.tag) spans.new.items) }
{
    for memory in device.memory.items() {
        push_span(spans, device.name, memory)?;
    }
    Ok(())
}

// Appends the memory of each device.
fn push_devices(spans: &mut Vec<SpanPart>, devices: &[Device]) -> Result<(), AllocError>
    requires few { length spans.old.items + length (memories_of devices.now) ≤ 2 ^ 16 }
    requires small { All (λ x. x.1.size / PAGE < 2 ^ 32) (memories_of devices.now) }
    requires named { All (λ s. HasNames s.tag) spans.old.items }
    ensures spans { OnOk result (spans.new.items ≡ spans.old.items ++ device_spans (length spans.old.items) devices.now) }
    ensures named { OnOk result (All (λ s. HasNames s.tag) spans.new.items) }
{
    for device in devices {
        push_memory(spans, device)?;
    }
    Ok(())
}

/// The spans by their numbers: each region at its address, then each device's memory. By their addresses
/// they are the spans of an image.
pub(crate) fn by_number(alloc: Global, placed: &Placed) -> Result<Vec<SpanPart>, NoMemory>
    ensures spans { IfOk result (λ v. v.items ≡ spans_of placed.now) }
    ensures placed { IfOk result (λ v. AreSpansByAddress v.items) }
{
    let expanded = placed.expanded();
    let devices = expanded.lawful().resolved().devices();
    let mut spans = of_regions(alloc, expanded.regions(), placed.addresses())?;
    push_devices(&mut spans, devices)?;
    Ok(spans)
}
