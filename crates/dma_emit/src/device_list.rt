//! The devices as the file lists them.
ghost use Rattle.std.specs.Prelude.{◌≡◌, map, All, IfOk};
ghost use Rattle.dma_tables.specs.DmaConditions.{IsDmaDevice};

use crate::devices::DomainDevice;
use crate::domains::Domains;
use dma_tables::DmaDevice;
use muen_num::{NoMemory, Seq};
use std::alloc::Global;

// A device without the number of its domain.
#[tactic(auto, unfolding(muen_num::specs::Naming::is_name))]
fn device_of(device: DomainDevice) -> DmaDevice
    ensures value { result ≡ device.device }
    ensures is { IsDmaDevice result }
{
    device.device
}

/// The devices that stand in a domain, as a file lists them.
pub(crate) fn listed(alloc: Global, domains: &Domains) -> Result<Seq<DmaDevice>, NoMemory>
    ensures value { IfOk result (λ devices. devices ≡ map (λ v. v.device) domains.now.devices) }
    ensures are { IfOk result (All IsDmaDevice) }
{
    let mut devices = Seq::new(alloc);
    for device in domains.devices.items() {
        devices.push(device_of(*device))?;
    }
    Ok(devices)
}
