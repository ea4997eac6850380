//! What a device record may name of an image.
ghost use Rattle.std.specs.Prelude.{◌≡◌, ◌++◌, ◌≤◌, IfOk, OnOk, length, map, option_map, option_to_list};
ghost use Rattle.std.specs.List.{AllZip, flat_map};
ghost use Rattle.muen_num.specs.declared.limits.TheConstants.{MOST_DEVICES};
ghost use Rattle.image_memory.specs.Memory.{AreLow, IsLow};
ghost use Rattle.image_load.specs.RecordDevices.{HasDevices, IsRecordDevice, named_memory, record_irq};
ghost use Rattle.image_load.specs.Resolving.{memory_of_span, memory_of_window};

use crate::spans::span_numbered;
use image_pack::{DevicePart, Image, IrqPart, SpanPart, WindowPart};
use muen_num::limits::PAGE;
use muen_num::{NoMemory, Seq, TagPart};
use record_text::{Devices, RecordDevice, RecordIrq, RecordMemory};
use std::alloc::{AllocError, Global};

// An interrupt, and where it goes.
fn record_irq(irq: &IrqPart) -> RecordIrq
    ensures { result ≡ record_irq irq.now }
{
    RecordIrq {
        name: irq.name,
        target: irq.target,
    }
}

// The interrupts.
fn irqs_of(alloc: Global, irqs: &[IrqPart]) -> Result<Vec<RecordIrq>, AllocError>
    ensures { IfOk result (λ v. v.items ≡ map record_irq irqs.now) }
{
    irqs.iter().map(record_irq).collect(alloc)
}

// The memory that a span is, if it is a device's.
fn memory_of_span(span: &SpanPart) -> Option<RecordMemory>
    requires { IsLow span.now }
    ensures { option_map named_memory result ≡ memory_of_span span.now }
{
    if !span.kind.is_device() {
        return None;
    }
    match span.tag.part {
        TagPart::Named(name) => Some(RecordMemory {
            name,
            address: span.address,
            bytes: PAGE * u64::from(span.pages),
        }),
        _ => None,
    }
}

// The memory of a window.
fn memory_of_window(spans: &[SpanPart], window: &WindowPart) -> Option<RecordMemory>
    requires { AreLow spans.now }
    ensures { option_map named_memory result ≡ memory_of_window spans.now window.now }
{
    memory_of_span(span_numbered(spans, window.span)?)
}

// Appends the memory of a window.
fn push_memory(
    memories: &mut Vec<RecordMemory>,
    spans: &[SpanPart],
    window: &WindowPart,
) -> Result<(), AllocError>
    requires { AreLow spans.now }
    ensures { OnOk result (map named_memory memories.new.items
        ≡ map named_memory memories.old.items ++ option_to_list (memory_of_window spans.now window.now)) }
{
    if let Some(memory) = memory_of_window(spans, window) {
        memories.push(memory)?;
    }
    Ok(())
}

// The memories of these windows.
fn memories_of(
    alloc: Global,
    spans: &[SpanPart],
    windows: &[WindowPart],
) -> Result<Vec<RecordMemory>, AllocError>
    requires { AreLow spans.now }
    ensures { IfOk result (λ v. map named_memory v.items ≡ flat_map (λ w. option_to_list (memory_of_window spans.now w)) windows.now) }
{
    let mut memories = Vec::new(alloc);
    for window in windows {
        push_memory(&mut memories, spans, window)?;
    }
    Ok(memories)
}

// A device, with what a record may name of it.
fn record_device(
    alloc: Global,
    spans: &[SpanPart],
    device: &DevicePart,
) -> Result<RecordDevice, AllocError>
    requires { AreLow spans.now }
    ensures { IfOk result (IsRecordDevice spans.now device.now) }
{
    Ok(RecordDevice {
        name: device.name,
        ports: Seq::of(device.ports.items().to_vec(alloc)?),
        memories: Seq::of(memories_of(alloc, spans, device.windows.items())?),
        irqs: Seq::of(irqs_of(alloc, device.irqs.items())?),
    })
}

// The devices, by number.
fn record_devices(
    alloc: Global,
    spans: &[SpanPart],
    devices: &[DevicePart],
) -> Result<Vec<RecordDevice>, AllocError>
    requires { AreLow spans.now }
    ensures { IfOk result (λ v. AllZip (IsRecordDevice spans.now) devices.now v.items) }
{
    let mut made = Vec::new(alloc);
    for device in devices {
        made.push(record_device(alloc, spans, device)?)?;
    }
    Ok(made)
}

/// What a device record may name of an image, and where it goes.
///
/// # Errors
/// Memory is refused.
pub(crate) fn devices_of(alloc: Global, image: &Image) -> Result<Devices, NoMemory>
    requires low { AreLow image.now.spans }
    requires few { length image.now.devices ≤ MOST_DEVICES }
    ensures { IfOk result (HasDevices image.now) }
{
    let devices = record_devices(alloc, image.spans.items(), image.devices.items())?;
    Ok(Devices {
        cpus: image.header.cpus,
        devices: Seq::of(devices),
    })
}
