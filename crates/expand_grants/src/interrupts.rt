//! Where the interrupts of devices go.
ghost use Rattle.std.specs.Prelude.{◌≡◌, ◌++◌, true, map, IfOk};
ghost use Rattle.std.specs.List.{flat_map, list_all};
ghost use Rattle.expand_grants.specs.ByIndex.{all_routes, device_routes, fits_irq, fits_use, fits_uses, route};

use crate::granted::Route;
use muen_num::{NoMemory, Seq};
use policy_lawful::resolved::{DeviceUse, IrqUse, Subject};
use std::alloc::Global;

fn route(subject: usize, device: usize, irq: &IrqUse) -> Route
    requires { fits_irq irq.now ≡ true }
    ensures { result ≡ route subject device irq.now }
{
    Route {
        device,
        irq: irq.irq,
        subject,
        vector: irq.vector as u8,
    }
}

// Appends the routes of interrupts of the device at an index to the subject at an index.
fn add_irqs(
    routes: &mut Vec<Route>,
    subject: usize,
    device: usize,
    irqs: &[IrqUse],
) -> Result<(), NoMemory>
    requires { list_all fits_irq irqs.now ≡ true }
    ensures { IfOk result (λ _. routes.new.items ≡ routes.old.items ++ map (route subject device) irqs.now) }
{
    for irq in irqs {
        routes.push(route(subject, device, irq))?;
    }
    Ok(())
}

// Appends the routes of devices' interrupts to the subject at an index.
fn add_devices(
    routes: &mut Vec<Route>,
    subject: usize,
    devices: &[DeviceUse],
) -> Result<(), NoMemory>
    requires { list_all fits_use devices.now ≡ true }
    ensures { IfOk result (λ _. routes.new.items ≡ routes.old.items ++ flat_map (device_routes subject) devices.now) }
{
    for device in devices {
        add_irqs(routes, subject, device.device, device.irqs.items())?;
    }
    Ok(())
}

/// The routes of all interrupts that are granted, in the order of the subjects.
///
/// Answers `NoMemory` where memory was refused.
pub(crate) fn all_routes(alloc: Global, subjects: &[Subject]) -> Result<Seq<Route>, NoMemory>
    requires { list_all fits_uses subjects.now ≡ true }
    ensures { IfOk result (λ routes. routes ≡ all_routes subjects.now) }
{
    let mut routes = Vec::new(alloc);
    for (index, subject) in subjects.iter().enumerate() {
        add_devices(&mut routes, index, subject.devices.items())?;
    }
    Ok(Seq::of(routes))
}
