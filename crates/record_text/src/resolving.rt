//! Where inputs go: each finds what it names among the devices.
ghost use Rattle.std.specs.Prelude.{◌≡◌, ◌<◌, IfSome, length, option_map, position};
ghost use Rattle.std.specs.List.{find, list_any};
ghost use Rattle.std.specs.Str.{bytes_eq};
ghost use Rattle.record_text.specs.DeviceRecord.{dma_input, irq_input, memory_input, port_input};
ghost use Rattle.record_text.specs.Resolving.{bytes_in, irq_of, is_in_span, memory_of, resolved_input, raised};

use crate::devices::{Devices, RecordDevice, RecordIrq, RecordMemory};
use crate::record::Input;
use muen_num::{IrqTarget, PortSpan, Seq};

fn device_named<'a>(devices: &'a Devices, name: &[u8]) -> Option<&'a RecordDevice>
    ensures { option_map (λ d. d.now) result ≡ find (λ d. bytes_eq d.name name.now) devices.now.devices }
{
    devices
        .devices
        .items()
        .iter()
        .find(|device| device.name.bytes() == name)
}

fn has_port(ports: &[PortSpan], port: u16) -> bool
    ensures { result ≡ list_any (is_in_span port) ports.now }
{
    ports
        .iter()
        .any(|span| span.start <= port && port <= span.end)
}

fn memory_named<'a>(memories: &'a [RecordMemory], name: &[u8]) -> Option<&'a RecordMemory>
    ensures { option_map (λ m. m.now) result ≡ find (λ m. bytes_eq m.name name.now) memories.now }
{
    memories.iter().find(|memory| memory.name.bytes() == name)
}

fn irq_named<'a>(irqs: &'a [RecordIrq], name: &[u8]) -> Option<&'a RecordIrq>
    ensures { option_map (λ i. i.now) result ≡ find (λ i. bytes_eq i.name name.now) irqs.now }
{
    irqs.iter().find(|irq| irq.name.bytes() == name)
}

// The number of the device of this name.
fn device_number(devices: &Devices, name: &[u8]) -> Option<usize>
    ensures value { result ≡ position (λ d. bytes_eq d.name name.now) devices.now.devices }
    ensures within { IfSome result (λ number. number < length devices.now.devices) }
{
    devices
        .devices
        .items()
        .iter()
        .position(|device| device.name.bytes() == name)
}

// Bytes from an offset on, where they lie in the memory.
fn bytes_in(memory: &RecordMemory, offset: u64, bytes: Seq<u8>) -> Option<Input>
    ensures { result ≡ bytes_in offset bytes memory.now }
{
    let len = bytes.len() as u64;
    if offset <= memory.bytes && len <= memory.bytes - offset {
        return Some(Input::Mem {
            at: memory.address + offset,
            bytes,
        });
    }
    None
}

// Bytes for the memory of this name.
fn memory_of(device: &RecordDevice, memory: &[u8], offset: u64, bytes: Seq<u8>) -> Option<Input>
    ensures { result ≡ memory_of memory.now offset bytes device.now }
{
    bytes_in(
        memory_named(device.memories.items(), memory)?,
        offset,
        bytes,
    )
}

// Where an interrupt goes.
fn raised(target: Option<IrqTarget>) -> Input
    ensures { result ≡ raised target }
{
    match target {
        Some(IrqTarget { subject, vector }) => Input::Irq { subject, vector },
        None => Input::Idle,
    }
}

// The interrupt of this name.
fn irq_of(device: &RecordDevice, irq: &[u8]) -> Option<Input>
    ensures { result ≡ irq_of irq.now device.now }
{
    let irq = irq_named(device.irqs.items(), irq)?;
    Some(raised(irq.target))
}

/// The input byte of a port of the device of this name; `None` where there is no such port.
pub(crate) fn resolve_port(devices: &Devices, device: &[u8], port: u16, value: u8) -> Option<Input>
    ensures { result ≡ resolved_input devices.now (port_input device.now port value) }
{
    let device = device_named(devices, device)?;
    if has_port(device.ports.items(), port) {
        return Some(Input::Port { port, value });
    }
    None
}

/// Bytes for a memory of the device of this name; `None` where there is no such memory, or they
/// don't lie in it.
pub(crate) fn resolve_memory(
    devices: &Devices,
    device: &[u8],
    memory: &[u8],
    offset: u64,
    bytes: Seq<u8>,
) -> Option<Input>
    ensures { result ≡ resolved_input devices.now (memory_input device.now memory.now offset bytes) }
{
    memory_of(device_named(devices, device)?, memory, offset, bytes)
}

/// An interrupt of the device of this name; `None` where there is no such interrupt.
pub(crate) fn resolve_irq(devices: &Devices, device: &[u8], irq: &[u8]) -> Option<Input>
    ensures { result ≡ resolved_input devices.now (irq_input device.now irq.now) }
{
    irq_of(device_named(devices, device)?, irq)
}

/// Bytes that the device of this name writes; `None` where there is no such device.
pub(crate) fn resolve_dma(
    devices: &Devices,
    device: &[u8],
    addr: u64,
    bytes: Seq<u8>,
) -> Option<Input>
    ensures { result ≡ resolved_input devices.now (dma_input device.now addr bytes) }
{
    let device = device_number(devices, device)? as u8;
    Some(Input::Dma {
        device,
        addr,
        bytes,
    })
}
