//! Channels, and components with what they bring along and ask for.
use crate::object::{Object, if_present, list, optional, required};
use policy_types::source::{Channel, Component, ComponentChannel, Content, Provided, Required};
use policy_values::ReadError;
use serde_json::Value;
use std::alloc::Global;

#[tactic(auto, unfolding(crate::specs::Table::channel))]
impl Object for Channel {
    ghost use Rattle.policy_json.specs.Table.{channel};

    ghost object = { channel };

    fn keys() -> &'static [&'static str] {
        &["name", "size", "hasEvent"]
    }

    fn read_fields(alloc: Global, value: &Value) -> Result<Channel, ReadError> {
        Ok(Channel {
            name: required(alloc, value, "name")?,
            size: required(alloc, value, "size")?,
            has_event: if_present(alloc, value, "hasEvent")?,
        })
    }
}

#[tactic(auto, unfolding(crate::specs::Table::component))]
impl Object for Component {
    ghost use Rattle.policy_json.specs.Table.{component};

    ghost object = { component };

    fn keys() -> &'static [&'static str] {
        &["name", "provides", "memory", "channels"]
    }

    fn read_fields(alloc: Global, value: &Value) -> Result<Component, ReadError> {
        Ok(Component {
            name: required(alloc, value, "name")?,
            provides: list(alloc, value, "provides")?,
            memory: list(alloc, value, "memory")?,
            channels: list(alloc, value, "channels")?,
        })
    }
}

#[tactic(auto, unfolding(crate::specs::Table::provided))]
impl Object for Provided {
    ghost use Rattle.policy_json.specs.Table.{provided};

    ghost object = { provided };

    fn keys() -> &'static [&'static str] {
        &["logical", "virtualAddress", "size", "rights", "content"]
    }

    fn read_fields(alloc: Global, value: &Value) -> Result<Provided, ReadError> {
        Ok(Provided {
            logical: required(alloc, value, "logical")?,
            virtual_address: required(alloc, value, "virtualAddress")?,
            size: required(alloc, value, "size")?,
            rights: required(alloc, value, "rights")?,
            content: optional(alloc, value, "content", Content::Zero)?,
        })
    }
}

#[tactic(auto, unfolding(crate::specs::Table::required_memory))]
impl Object for Required {
    ghost use Rattle.policy_json.specs.Table.{required_memory};

    ghost object = { required_memory };

    fn keys() -> &'static [&'static str] {
        &["logical", "virtualAddress", "size", "rights"]
    }

    fn read_fields(alloc: Global, value: &Value) -> Result<Required, ReadError> {
        Ok(Required {
            logical: required(alloc, value, "logical")?,
            virtual_address: required(alloc, value, "virtualAddress")?,
            size: required(alloc, value, "size")?,
            rights: required(alloc, value, "rights")?,
        })
    }
}

#[tactic(auto, unfolding(crate::specs::Table::component_channel))]
impl Object for ComponentChannel {
    ghost use Rattle.policy_json.specs.Table.{component_channel};

    ghost object = { component_channel };

    fn keys() -> &'static [&'static str] {
        &[
            "logical",
            "role",
            "virtualAddress",
            "size",
            "call",
            "vector",
        ]
    }

    fn read_fields(alloc: Global, value: &Value) -> Result<ComponentChannel, ReadError> {
        Ok(ComponentChannel {
            logical: required(alloc, value, "logical")?,
            role: required(alloc, value, "role")?,
            virtual_address: required(alloc, value, "virtualAddress")?,
            size: required(alloc, value, "size")?,
            call: if_present(alloc, value, "call")?,
            vector: if_present(alloc, value, "vector")?,
        })
    }
}
