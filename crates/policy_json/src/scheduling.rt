//! The scheduling plan: groups, frames within frames, and who chooses them.
use crate::object::{Object, if_present, list, required};
use policy_types::source::{CpuFrames, Group, MajorFrame, MinorFrame, Scheduling, Tau0};
use policy_values::ReadError;
use serde_json::Value;
use std::alloc::Global;

#[tactic(auto, unfolding(crate::specs::Table::scheduling))]
impl Object for Scheduling {
    ghost use Rattle.policy_json.specs.Table.{scheduling};

    ghost object = { scheduling };

    fn keys() -> &'static [&'static str] {
        &["groups", "majorFrames", "tau0"]
    }

    fn read_fields(alloc: Global, value: &Value) -> Result<Scheduling, ReadError> {
        Ok(Scheduling {
            groups: list(alloc, value, "groups")?,
            major_frames: list(alloc, value, "majorFrames")?,
            tau0: if_present(alloc, value, "tau0")?,
        })
    }
}

#[tactic(auto, unfolding(crate::specs::Table::tau0))]
impl Object for Tau0 {
    ghost use Rattle.policy_json.specs.Table.{tau0};

    ghost object = { tau0 };

    fn keys() -> &'static [&'static str] {
        &["subject", "region"]
    }

    fn read_fields(alloc: Global, value: &Value) -> Result<Tau0, ReadError> {
        Ok(Tau0 {
            subject: required(alloc, value, "subject")?,
            region: required(alloc, value, "region")?,
        })
    }
}

#[tactic(auto, unfolding(crate::specs::Table::group))]
impl Object for Group {
    ghost use Rattle.policy_json.specs.Table.{group};

    ghost object = { group };

    fn keys() -> &'static [&'static str] {
        &["name", "cpu", "subjects"]
    }

    fn read_fields(alloc: Global, value: &Value) -> Result<Group, ReadError> {
        Ok(Group {
            name: required(alloc, value, "name")?,
            cpu: required(alloc, value, "cpu")?,
            subjects: list(alloc, value, "subjects")?,
        })
    }
}

#[tactic(auto, unfolding(crate::specs::Table::major_frame))]
impl Object for MajorFrame {
    ghost use Rattle.policy_json.specs.Table.{major_frame};

    ghost object = { major_frame };

    fn keys() -> &'static [&'static str] {
        &["cpus"]
    }

    fn read_fields(alloc: Global, value: &Value) -> Result<MajorFrame, ReadError> {
        Ok(MajorFrame {
            cpus: list(alloc, value, "cpus")?,
        })
    }
}

#[tactic(auto, unfolding(crate::specs::Table::cpu_frames))]
impl Object for CpuFrames {
    ghost use Rattle.policy_json.specs.Table.{cpu_frames};

    ghost object = { cpu_frames };

    fn keys() -> &'static [&'static str] {
        &["cpu", "minorFrames"]
    }

    fn read_fields(alloc: Global, value: &Value) -> Result<CpuFrames, ReadError> {
        Ok(CpuFrames {
            cpu: required(alloc, value, "cpu")?,
            minor_frames: list(alloc, value, "minorFrames")?,
        })
    }
}

#[tactic(auto, unfolding(crate::specs::Table::minor_frame))]
impl Object for MinorFrame {
    ghost use Rattle.policy_json.specs.Table.{minor_frame};

    ghost object = { minor_frame };

    fn keys() -> &'static [&'static str] {
        &["group", "ticks"]
    }

    fn read_fields(alloc: Global, value: &Value) -> Result<MinorFrame, ReadError> {
        Ok(MinorFrame {
            group: required(alloc, value, "group")?,
            ticks: required(alloc, value, "ticks")?,
        })
    }
}
