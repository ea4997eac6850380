//! The system that the command `load` runs, made of a number, and its device record.
#![tactic(auto)]

ghost use Rattle.std.specs.Prelude.{◌≡◌, Ok, IfOk};
ghost use Rattle.image_soundness.specs.Bench.{devices_of};
ghost use Rattle.policy_json.specs.Document.{policy_of};
ghost use Rattle.record_text.specs.Reading.{record_of};
ghost use Rattle.generated_system.specs.Record.{generated_record};
ghost use Rattle.generated_system.specs.System.{generated_system};

mod code;
mod elements;
mod policy;
mod record;

use muen_num::NoMemory;
use std::alloc::Global;

/// The texts that `load` runs.
#[derive(Debug, Drop)]
pub struct Generated {
    /// The policy document.
    pub policy: Vec<u8>,
    /// The device record.
    pub input: Vec<u8>,
}

/// The policy document of the system of a number, and its device record.
#[tactic(auto, using(crate::proofs::RecordRead::record_read), unfolding(crate::specs::System::generated_system))]
pub fn generate(alloc: Global, number: u16) -> Result<Generated, NoMemory>
    ensures policy { IfOk result (λ g. policy_of g.policy.items ≡ Ok (generated_system number)) }
    ensures input { IfOk result (λ g. record_of g.input.items (devices_of (generated_system number)) ≡ Ok (generated_record number)) }
{
    let policy = policy::policy(alloc, number)?;
    let input = record::record(alloc, number)?;
    Ok(Generated { policy, input })
}
