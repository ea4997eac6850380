//! Devices with their resources, and the domains that confine them.
use crate::object::{Object, if_present, list, required};
use policy_types::source::{Bdf, Device, DeviceMemory, Domain, Irq, Ports};
use policy_values::ReadError;
use serde_json::Value;
use std::alloc::Global;

#[tactic(auto, unfolding(crate::specs::Table::device))]
impl Object for Device {
    ghost use Rattle.policy_json.specs.Table.{device};

    ghost object = { device };

    fn keys() -> &'static [&'static str] {
        &["name", "memory", "ioPorts", "irqs", "bdf"]
    }

    fn read_fields(alloc: Global, value: &Value) -> Result<Device, ReadError> {
        Ok(Device {
            name: required(alloc, value, "name")?,
            memory: list(alloc, value, "memory")?,
            io_ports: list(alloc, value, "ioPorts")?,
            irqs: list(alloc, value, "irqs")?,
            bdf: if_present(alloc, value, "bdf")?,
        })
    }
}

#[tactic(auto, unfolding(crate::specs::Table::device_memory))]
impl Object for DeviceMemory {
    ghost use Rattle.policy_json.specs.Table.{device_memory};

    ghost object = { device_memory };

    fn keys() -> &'static [&'static str] {
        &["name", "physicalAddress", "size"]
    }

    fn read_fields(alloc: Global, value: &Value) -> Result<DeviceMemory, ReadError> {
        Ok(DeviceMemory {
            name: required(alloc, value, "name")?,
            physical_address: required(alloc, value, "physicalAddress")?,
            size: required(alloc, value, "size")?,
        })
    }
}

#[tactic(auto, unfolding(crate::specs::Table::ports))]
impl Object for Ports {
    ghost use Rattle.policy_json.specs.Table.{ports};

    ghost object = { ports };

    fn keys() -> &'static [&'static str] {
        &["name", "start", "end"]
    }

    fn read_fields(alloc: Global, value: &Value) -> Result<Ports, ReadError> {
        Ok(Ports {
            name: required(alloc, value, "name")?,
            start: required(alloc, value, "start")?,
            end: required(alloc, value, "end")?,
        })
    }
}

#[tactic(auto, unfolding(crate::specs::Table::irq))]
impl Object for Irq {
    ghost use Rattle.policy_json.specs.Table.{irq};

    ghost object = { irq };

    fn keys() -> &'static [&'static str] {
        &["name"]
    }

    fn read_fields(alloc: Global, value: &Value) -> Result<Irq, ReadError> {
        Ok(Irq {
            name: required(alloc, value, "name")?,
        })
    }
}

#[tactic(auto, unfolding(crate::specs::Table::bdf))]
impl Object for Bdf {
    ghost use Rattle.policy_json.specs.Table.{bdf};

    ghost object = { bdf };

    fn keys() -> &'static [&'static str] {
        &["bus", "device", "function"]
    }

    fn read_fields(alloc: Global, value: &Value) -> Result<Bdf, ReadError> {
        Ok(Bdf {
            bus: required(alloc, value, "bus")?,
            device: required(alloc, value, "device")?,
            function: required(alloc, value, "function")?,
        })
    }
}

#[tactic(auto, unfolding(crate::specs::Table::domain))]
impl Object for Domain {
    ghost use Rattle.policy_json.specs.Table.{domain};

    ghost object = { domain };

    fn keys() -> &'static [&'static str] {
        &["name", "devices", "memory"]
    }

    fn read_fields(alloc: Global, value: &Value) -> Result<Domain, ReadError> {
        Ok(Domain {
            name: required(alloc, value, "name")?,
            devices: list(alloc, value, "devices")?,
            memory: list(alloc, value, "memory")?,
        })
    }
}
