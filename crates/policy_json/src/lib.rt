//! Reads a policy document, a JSON text, and finds the first place where it breaks the schema.
#![tactic(auto)]

ghost use Rattle.policy_types.specs.declared.refusal.Refusal.TheVariants.{NoMemory as OutOfMemory};
ghost use Rattle.muen_num.specs.Answers.{Answers};
ghost use Rattle.policy_json.specs.Document.{policy_of};

mod components;
mod devices;
mod events;
mod memory;
mod object;
mod scheduling;
mod shape;
mod subjects;
mod system;
mod values;

use crate::shape::Shape;
use policy_types::{Fault, Refusal, Source};
use policy_values::ReadError;
use serde_json::Value;
use std::alloc::Global;

/// The source policy of a document.
///
/// Answers `NotJson` where the bytes are no JSON text, `Shape` with the first place that breaks the
/// schema and what was wanted there, and `NoMemory` where memory was refused.
#[tactic(auto, using(crate::proofs::Utf8::texts), unfolding(crate::specs::Document::policy_of, crate::specs::Document::json_of))]
pub fn read(alloc: Global, bytes: &[u8]) -> Result<Source, Refusal>
    ensures { Answers OutOfMemory (policy_of bytes.now) result }
{
    let value = match Value::from_slice(alloc, bytes) {
        Ok(value) => value,
        Err(e) if e.is_memory() => return Err(Refusal::NoMemory),
        Err(_) => return Err(Refusal::NotJson),
    };
    match Source::read(alloc, &value) {
        Ok(source) => Ok(source),
        Err(ReadError::Fault(Fault { place, want })) => Err(Refusal::Shape { place, want }),
        Err(ReadError::NoMemory) => Err(Refusal::NoMemory),
    }
}
