//! The policy document.
ghost use Rattle.std.specs.Prelude.{◌≡◌, ◌≤◌, Ok, IfOk};
ghost use Rattle.policy_json.specs.Document.{policy_of};
ghost use Rattle.serde_json.specs.View.{view};
ghost use Rattle.generated_system.specs.PolicyValue.{block_value, device_value, generated_value, scheduling_value};
ghost use Rattle.generated_system.specs.System.{generated_system};

use crate::elements::{Channels, Frames, Groups, Regions, Subjects, list};
use serde_json::{Value, json};
use std::alloc::{AllocError, Global};

// The block of memory.
#[tactic(auto, unfolding(crate::specs::PolicyValue::block_value))]
fn block(alloc: Global) -> Result<Value, AllocError>
    ensures { IfOk result (λ v. view v ≡ block_value) }
{
    json!(in alloc; {"name": "ram", "physicalAddress": 16_777_216, "size": 4_194_304})
}

// The device.
#[tactic(auto, unfolding(crate::specs::PolicyValue::device_value))]
fn device(alloc: Global) -> Result<Value, AllocError>
    ensures { IfOk result (λ v. view v ≡ device_value) }
{
    json!(in alloc; {
        "name": "dev",
        "ioPorts": [{"name": "p", "start": 16, "end": 16}],
        "irqs": [{"name": "t"}],
    })
}

// The scheduling plan.
#[tactic(auto, unfolding(crate::specs::PolicyValue::scheduling_value))]
fn scheduling(alloc: Global, cpus: u8, first: u8) -> Result<Value, AllocError>
    requires cpus { cpus ≤ 4 }
    requires first { first ≤ 8 }
    ensures { IfOk result (λ v. view v ≡ scheduling_value cpus first) }
{
    json!(in alloc; {
        "groups": list(alloc, &Groups, 2 * cpus)?,
        "majorFrames": [{"cpus": list(alloc, &Frames { first }, cpus)?}],
    })
}

// The document as a value.
#[tactic(auto, unfolding(crate::specs::PolicyValue::system_value))]
fn value(alloc: Global, number: u16) -> Result<Value, AllocError>
    ensures { IfOk result (λ v. view v ≡ generated_value number) }
{
    let cpus = (1 + number % 4) as u8;
    let first = (1 + number % 7) as u8;
    json!(in alloc; {
        "processor": {"logicalCpus": cpus},
        "memoryBlocks": [block(alloc)?],
        "devices": [device(alloc)?],
        "memory": list(alloc, &Regions { number }, 2 * cpus)?,
        "channels": list(alloc, &Channels, 2 * cpus)?,
        "subjects": list(alloc, &Subjects { cpus }, 2 * cpus)?,
        "scheduling": scheduling(alloc, cpus, first)?,
    })
}

/// The text of the document.
pub fn policy(alloc: Global, number: u16) -> Result<Vec<u8>, AllocError>
    ensures { IfOk result (λ v. policy_of v.items ≡ Ok (generated_system number)) }
{
    let text = value(alloc, number)?.to_string(alloc)?;
    Ok(text.into_bytes())
}
