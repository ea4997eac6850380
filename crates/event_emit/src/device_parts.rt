//! The devices of a policy, as an image has them.
ghost use Rattle.std.specs.Prelude.{◌≡◌, ◌+◌, ◌<◌, ◌^◌, true, length, map, option_map, IfOk, IfSome};
ghost use Rattle.std.specs.List.{list_all, sum_by};
ghost use Rattle.event_emit.specs.ByIndex.{DeviceRoutesFew, RouteFew, device_part, device_parts, irq_parts, route_irq_target, port_span, window_parts};
ghost use Rattle.event_emit.specs.Named.{AreNamed, is_named_device};
ghost use Rattle.image_soundness.specs.TablesOf.{AreDevices};
ghost use Rattle.expand_grants.specs.ByIndex.{fits_device, fits_ports};
ghost use Rattle.expand_grants.specs.Grants.{route_for};
ghost use Rattle.muen_num.specs.Naming.{is_name};

use expand_grants::Route;
use expand_kernel::Expanded;
use image_pack::{DevicePart, IrqPart, WindowPart};
use muen_num::{IrqTarget, Name, NoMemory, PortSpan, Seq};
use policy_lawful::source::{Device, Irq, Ports};
use std::alloc::Global;

fn port_span(ports: &Ports) -> PortSpan
    requires { fits_ports ports.now ≡ true }
    ensures { result ≡ port_span ports.now }
{
    PortSpan {
        start: ports.start as u16,
        end: ports.end as u16,
    }
}

fn port_spans(alloc: Global, ports: &[Ports]) -> Result<Seq<PortSpan>, NoMemory>
    requires { list_all fits_ports ports.now ≡ true }
    ensures { IfOk result (λ spans. spans ≡ map port_span ports.now) }
{
    let mut spans = Seq::new(alloc);
    for range in ports {
        spans.push(port_span(range))?;
    }
    Ok(spans)
}

// So many spans of memory, numbered from `first` on.
#[tactic(auto, unfolding(crate::specs::ByIndex::window_parts))]
fn window_parts(alloc: Global, first: u16, count: usize) -> Result<Seq<WindowPart>, NoMemory>
    requires { first + count < 2 ^ 16 }
    ensures { IfOk result (λ parts. parts ≡ window_parts first count) }
{
    let mut parts = Seq::new(alloc);
    for k in 0..count {
        parts.push(WindowPart {
            span: first + k as u16,
        })?;
    }
    Ok(parts)
}

fn irq_target(route: &Route) -> IrqTarget
    requires { route.now.subject < 2 ^ 8 }
    ensures { result ≡ route_irq_target route.now }
{
    IrqTarget {
        subject: route.subject as u8,
        vector: route.vector,
    }
}

// The first of these routes for the interrupt at an index of the device at an index.
fn route_for(routes: &[Route], device: usize, irq: usize) -> Option<&Route>
    ensures { option_map (λ t. t.now) result ≡ route_for routes.now device irq }
{
    routes
        .iter()
        .find(|route| route.device == device && route.irq == irq)
}

// Whom the interrupt at an index of the device at an index reaches.
fn target_of(routes: &[Route], device: usize, irq: usize) -> Option<IrqTarget>
    requires { IfSome (route_for routes.now device irq) (λ t. t.subject < 2 ^ 8) }
    ensures { result ≡ option_map route_irq_target (route_for routes.now device irq) }
{
    let route = route_for(routes, device, irq)?;
    Some(irq_target(route))
}

// An interrupt of this name, which goes there.
fn irq_from(name: Name, target: Option<IrqTarget>) -> IrqPart
    ensures part { result ≡ record { name = name; target = target } }
    ensures named { is_name name ≡ true }
{
    IrqPart { name, target }
}

// The interrupts of the device at an index.
fn irq_parts(
    alloc: Global,
    routes: &[Route],
    device: usize,
    irqs: &[Irq],
) -> Result<Seq<IrqPart>, NoMemory>
    requires { RouteFew routes.now device (length irqs.now) }
    ensures parts { IfOk result (λ parts. parts ≡ irq_parts routes.now device irqs.now) }
    ensures named { IfOk result (λ _. list_all (λ i. is_name i.name) irqs.now ≡ true) }
{
    let mut parts = Seq::new(alloc);
    for (index, irq) in irqs.iter().enumerate() {
        parts.push(irq_from(irq.name, target_of(routes, device, index)))?;
    }
    Ok(parts)
}

// A device of this name, with these ports, windows and interrupts.
fn device_from(
    name: Name,
    ports: Seq<PortSpan>,
    windows: Seq<WindowPart>,
    irqs: Seq<IrqPart>,
) -> DevicePart
    ensures part { result ≡ record { name = name; ports = ports; windows = windows; irqs = irqs } }
    ensures named { is_name name ≡ true }
{
    DevicePart {
        name,
        ports,
        windows,
        irqs,
    }
}

// The device at an index, whose memory is numbered from `first` on.
fn device_part(
    alloc: Global,
    routes: &[Route],
    index: usize,
    first: u16,
    device: &Device,
) -> Result<DevicePart, NoMemory>
    requires ports { fits_device device.now ≡ true }
    requires routes { RouteFew routes.now index (length device.now.irqs) }
    requires spans { first + length device.now.memory < 2 ^ 16 }
    ensures part { IfOk result (λ part. part ≡ device_part routes.now index first device.now) }
    ensures named { IfOk result (λ _. is_named_device device.now ≡ true) }
{
    let ports = port_spans(alloc, device.io_ports.items())?;
    let windows = window_parts(alloc, first, device.memory.len())?;
    let irqs = irq_parts(alloc, routes, index, device.irqs.items())?;
    Ok(device_from(device.name, ports, windows, irqs))
}

// These devices, whose memory is numbered on from one to the next, from `first` on.
#[tactic(auto, unfolding(crate::specs::ByIndex::device_parts))]
fn device_parts(
    alloc: Global,
    routes: &[Route],
    first: u16,
    devices: &[Device],
) -> Result<Seq<DevicePart>, NoMemory>
    requires ports { list_all fits_device devices.now ≡ true }
    requires routes { DeviceRoutesFew routes.now devices.now }
    requires spans { first + sum_by (λ d. length d.memory) devices.now < 2 ^ 16 }
    ensures parts { IfOk result (λ parts. parts ≡ device_parts routes.now 0 first devices.now) }
    ensures named { IfOk result (λ _. list_all is_named_device devices.now ≡ true) }
{
    let mut parts = Seq::new(alloc);
    let mut next = first;
    for (index, device) in devices.iter().enumerate() {
        parts.push(device_part(alloc, routes, index, next, device)?)?;
        next += device.memory.len() as u16;
    }
    Ok(parts)
}

/// The devices of the policy, where the spans of their memory are numbered from `first` on.
///
/// Answers `NoMemory` where memory was refused.
pub fn devices(alloc: Global, expanded: &Expanded, first: u16) -> Result<Seq<DevicePart>, NoMemory>
    requires { first + sum_by (λ d. length d.memory) expanded.now.lawful.devices < 2 ^ 16 }
    ensures devices { IfOk result (AreDevices expanded.now.lawful first expanded.now.lawful.devices) }
    // names are names, as their type says
    ensures named { IfOk result (λ _. AreNamed expanded.now.lawful) }
{
    let policy = expanded.lawful().resolved();
    // A target that is named is one of the subjects, since no name is empty.
    device_parts(alloc, expanded.routes(), first, policy.devices())
}
