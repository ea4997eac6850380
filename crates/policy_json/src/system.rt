//! A system and its processor.
use crate::object::{Object, list, required};
use policy_types::Source;
use policy_types::source::Processor;
use policy_values::ReadError;
use serde_json::Value;
use std::alloc::Global;

#[tactic(auto, unfolding(crate::specs::Table::processor))]
impl Object for Processor {
    ghost use Rattle.policy_json.specs.Table.{processor};

    ghost object = { processor };

    fn keys() -> &'static [&'static str] {
        &["logicalCpus"]
    }

    fn read_fields(alloc: Global, value: &Value) -> Result<Processor, ReadError> {
        Ok(Processor {
            logical_cpus: required(alloc, value, "logicalCpus")?,
        })
    }
}

#[tactic(auto, unfolding(crate::specs::Table::system))]
impl Object for Source {
    ghost use Rattle.policy_json.specs.Table.{system};

    ghost object = { system };

    fn keys() -> &'static [&'static str] {
        &[
            "processor",
            "memoryBlocks",
            "devices",
            "memory",
            "channels",
            "components",
            "events",
            "subjects",
            "scheduling",
            "deviceDomains",
        ]
    }

    fn read_fields(alloc: Global, value: &Value) -> Result<Source, ReadError> {
        Ok(Source {
            processor: required(alloc, value, "processor")?,
            memory_blocks: list(alloc, value, "memoryBlocks")?,
            devices: list(alloc, value, "devices")?,
            memory: list(alloc, value, "memory")?,
            channels: list(alloc, value, "channels")?,
            components: list(alloc, value, "components")?,
            events: list(alloc, value, "events")?,
            subjects: list(alloc, value, "subjects")?,
            scheduling: required(alloc, value, "scheduling")?,
            device_domains: list(alloc, value, "deviceDomains")?,
        })
    }
}
