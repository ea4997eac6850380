//! Subjects, and what each is granted.
use crate::object::{Object, if_present, list, required};
use policy_types::source::{
    ChannelUse, ComponentUse, DeviceMapping, DeviceUse, IrqUse, MapEntry, Mapping, Monitor, Msrs,
    Subject,
};
use policy_values::ReadError;
use serde_json::Value;
use std::alloc::Global;

#[tactic(auto, unfolding(crate::specs::Table::subject))]
impl Object for Subject {
    ghost use Rattle.policy_json.specs.Table.{subject};

    ghost object = { subject };

    fn keys() -> &'static [&'static str] {
        &[
            "name",
            "cpu",
            "entry",
            "component",
            "memory",
            "channels",
            "devices",
            "msrs",
            "sources",
            "targets",
            "monitors",
        ]
    }

    fn read_fields(alloc: Global, value: &Value) -> Result<Subject, ReadError> {
        Ok(Subject {
            name: required(alloc, value, "name")?,
            cpu: required(alloc, value, "cpu")?,
            entry: required(alloc, value, "entry")?,
            component: if_present(alloc, value, "component")?,
            memory: list(alloc, value, "memory")?,
            channels: list(alloc, value, "channels")?,
            devices: list(alloc, value, "devices")?,
            msrs: list(alloc, value, "msrs")?,
            sources: list(alloc, value, "sources")?,
            targets: list(alloc, value, "targets")?,
            monitors: list(alloc, value, "monitors")?,
        })
    }
}

#[tactic(auto, unfolding(crate::specs::Table::component_use))]
impl Object for ComponentUse {
    ghost use Rattle.policy_json.specs.Table.{component_use};

    ghost object = { component_use };

    fn keys() -> &'static [&'static str] {
        &["ref", "map"]
    }

    fn read_fields(alloc: Global, value: &Value) -> Result<ComponentUse, ReadError> {
        Ok(ComponentUse {
            used: required(alloc, value, "ref")?,
            map: list(alloc, value, "map")?,
        })
    }
}

#[tactic(auto, unfolding(crate::specs::Table::map_entry))]
impl Object for MapEntry {
    ghost use Rattle.policy_json.specs.Table.{map_entry};

    ghost object = { map_entry };

    fn keys() -> &'static [&'static str] {
        &["logical", "physical", "rights"]
    }

    fn read_fields(alloc: Global, value: &Value) -> Result<MapEntry, ReadError> {
        Ok(MapEntry {
            logical: required(alloc, value, "logical")?,
            physical: required(alloc, value, "physical")?,
            rights: if_present(alloc, value, "rights")?,
        })
    }
}

#[tactic(auto, unfolding(crate::specs::Table::mapping))]
impl Object for Mapping {
    ghost use Rattle.policy_json.specs.Table.{mapping};

    ghost object = { mapping };

    fn keys() -> &'static [&'static str] {
        &["region", "virtualAddress", "rights"]
    }

    fn read_fields(alloc: Global, value: &Value) -> Result<Mapping, ReadError> {
        Ok(Mapping {
            region: required(alloc, value, "region")?,
            virtual_address: required(alloc, value, "virtualAddress")?,
            rights: required(alloc, value, "rights")?,
        })
    }
}

#[tactic(auto, unfolding(crate::specs::Table::channel_use))]
impl Object for ChannelUse {
    ghost use Rattle.policy_json.specs.Table.{channel_use};

    ghost object = { channel_use };

    fn keys() -> &'static [&'static str] {
        &["channel", "role", "virtualAddress", "call", "vector"]
    }

    fn read_fields(alloc: Global, value: &Value) -> Result<ChannelUse, ReadError> {
        Ok(ChannelUse {
            channel: required(alloc, value, "channel")?,
            role: required(alloc, value, "role")?,
            virtual_address: required(alloc, value, "virtualAddress")?,
            call: if_present(alloc, value, "call")?,
            vector: if_present(alloc, value, "vector")?,
        })
    }
}

#[tactic(auto, unfolding(crate::specs::Table::device_use))]
impl Object for DeviceUse {
    ghost use Rattle.policy_json.specs.Table.{device_use};

    ghost object = { device_use };

    fn keys() -> &'static [&'static str] {
        &["device", "memory", "ioPorts", "irqs"]
    }

    fn read_fields(alloc: Global, value: &Value) -> Result<DeviceUse, ReadError> {
        Ok(DeviceUse {
            device: required(alloc, value, "device")?,
            memory: list(alloc, value, "memory")?,
            io_ports: list(alloc, value, "ioPorts")?,
            irqs: list(alloc, value, "irqs")?,
        })
    }
}

#[tactic(auto, unfolding(crate::specs::Table::device_mapping))]
impl Object for DeviceMapping {
    ghost use Rattle.policy_json.specs.Table.{device_mapping};

    ghost object = { device_mapping };

    fn keys() -> &'static [&'static str] {
        &["memory", "virtualAddress", "rights"]
    }

    fn read_fields(alloc: Global, value: &Value) -> Result<DeviceMapping, ReadError> {
        Ok(DeviceMapping {
            memory: required(alloc, value, "memory")?,
            virtual_address: required(alloc, value, "virtualAddress")?,
            rights: required(alloc, value, "rights")?,
        })
    }
}

#[tactic(auto, unfolding(crate::specs::Table::irq_use))]
impl Object for IrqUse {
    ghost use Rattle.policy_json.specs.Table.{irq_use};

    ghost object = { irq_use };

    fn keys() -> &'static [&'static str] {
        &["irq", "vector"]
    }

    fn read_fields(alloc: Global, value: &Value) -> Result<IrqUse, ReadError> {
        Ok(IrqUse {
            irq: required(alloc, value, "irq")?,
            vector: required(alloc, value, "vector")?,
        })
    }
}

#[tactic(auto, unfolding(crate::specs::Table::msrs))]
impl Object for Msrs {
    ghost use Rattle.policy_json.specs.Table.{msrs};

    ghost object = { msrs };

    fn keys() -> &'static [&'static str] {
        &["start", "end", "rights"]
    }

    fn read_fields(alloc: Global, value: &Value) -> Result<Msrs, ReadError> {
        Ok(Msrs {
            start: required(alloc, value, "start")?,
            end: required(alloc, value, "end")?,
            rights: required(alloc, value, "rights")?,
        })
    }
}

#[tactic(auto, unfolding(crate::specs::Table::monitor))]
impl Object for Monitor {
    ghost use Rattle.policy_json.specs.Table.{monitor};

    ghost object = { monitor };

    fn keys() -> &'static [&'static str] {
        &["subject", "virtualAddress", "rights"]
    }

    fn read_fields(alloc: Global, value: &Value) -> Result<Monitor, ReadError> {
        Ok(Monitor {
            subject: required(alloc, value, "subject")?,
            virtual_address: required(alloc, value, "virtualAddress")?,
            rights: required(alloc, value, "rights")?,
        })
    }
}
