//! The elements of the policy document of which there is one for each subject, or each CPU.
ghost use Rattle.std.specs.Prelude.{◌≡◌, ℕ, ◌<◌, ◌≤◌, map, IfOk, string_bytes};
ghost use Rattle.muen_num.specs.Range.{numbers_below};
ghost use Rattle.serde_json.specs.Data.{Data};
ghost use Rattle.serde_json.specs.View.{view};
ghost use Rattle.generated_system.specs.PolicyValue.{channel_value, devices_value, frames_value, group_value, list as list_value, minor_frame_value, reader_value, region_value, subject_value, whole_device_value, window_value, writer_value};
ghost use Rattle.generated_system.specs.System.{code_of, numbered as numbered_name};

use crate::code::code;
use serde_json::{Value, json, push};
use std::alloc::{AllocError, Global};

/// What there is for each number below a bound.
pub trait Element {
    ghost value: { Self → ℕ → Data };

    /// The value of the one of this number.
    fn build(&self, alloc: Global, i: u8) -> Result<Value, AllocError>
        requires { i < 8 }
        ensures { IfOk result (λ v. view v ≡ value self.now i) };
}

/// Those of the numbers below this, in order.
#[tactic(auto, using(crate::proofs::Lists::one_more_value))]
pub fn list<E: Element>(alloc: Global, element: &E, count: u8) -> Result<Value, AllocError>
    requires { count ≤ 8 }
    ensures { IfOk result (λ v. view v ≡ list_value (map (E.value element.now) (numbers_below count))) }
{
    let mut items = Vec::new(alloc);
    for i in 0..count {
        push(&mut items, element.build(alloc, i)?)?;
    }
    Ok(Value::Array(items))
}

// A name: a letter and a number.
fn numbered(alloc: Global, stem: &str, i: u8) -> Result<String, AllocError>
    ensures { IfOk result (λ s. string_bytes s ≡ numbered_name stem.now i) }
{
    format!(in alloc; "{stem}{i}")
}

// ---- memory and channels

/// The regions of the subjects' code.
#[derive(Drop)]
pub struct Regions {
    pub number: u16,
}

impl Element for Regions {
    ghost value = { λ r i. region_value (code_of r.number) i };

    #[tactic(auto, unfolding(crate::specs::PolicyValue::region_value))]
    fn build(&self, alloc: Global, i: u8) -> Result<Value, AllocError> {
        let name = numbered(alloc, "m", i)?;
        let code = code(alloc, self.number, i)?;
        let hex = hex::encode(alloc, &code)?;
        json!(in alloc; {"name": name, "size": 4096, "content": {"hex": hex}})
    }
}

/// The channels that the subjects write.
#[derive(Drop)]
pub struct Channels;

impl Element for Channels {
    ghost value = { λ c i. channel_value i };

    #[tactic(auto, unfolding(crate::specs::PolicyValue::channel_value))]
    fn build(&self, alloc: Global, i: u8) -> Result<Value, AllocError> {
        let name = numbered(alloc, "c", i)?;
        json!(in alloc; {"name": name, "size": 4096, "hasEvent": "asap"})
    }
}

// ---- subjects

// A subject's window on its code.
#[tactic(auto, unfolding(crate::specs::PolicyValue::window_value))]
fn window(alloc: Global, i: u8) -> Result<Value, AllocError>
    ensures { IfOk result (λ v. view v ≡ window_value i) }
{
    let region = numbered(alloc, "m", i)?;
    json!(in alloc; {"region": region, "virtualAddress": 0x40_0000, "rights": "rx"})
}

// The writer's end of a channel.
#[tactic(auto, unfolding(crate::specs::PolicyValue::writer_value))]
fn writer(alloc: Global, i: u8) -> Result<Value, AllocError>
    ensures { IfOk result (λ v. view v ≡ writer_value i) }
{
    let channel = numbered(alloc, "c", i)?;
    json!(in alloc; {"channel": channel, "role": "writer", "virtualAddress": 0x60_0000, "call": 1})
}

// The reader's end of a channel.
#[tactic(auto, unfolding(crate::specs::PolicyValue::reader_value))]
fn reader(alloc: Global, i: u8) -> Result<Value, AllocError>
    ensures { IfOk result (λ v. view v ≡ reader_value i) }
{
    let channel = numbered(alloc, "c", i)?;
    json!(in alloc; {"channel": channel, "role": "reader", "virtualAddress": 0x60_1000, "vector": 40})
}

// All of the device.
#[tactic(auto, unfolding(crate::specs::PolicyValue::whole_device_value))]
fn whole_device(alloc: Global) -> Result<Value, AllocError>
    ensures { IfOk result (λ v. view v ≡ whole_device_value) }
{
    json!(in alloc; {"device": "dev", "ioPorts": ["p"], "irqs": [{"irq": "t", "vector": 41}]})
}

// What a subject has of the device: the first has all.
#[tactic(auto, unfolding(crate::specs::PolicyValue::devices_value))]
fn devices(alloc: Global, i: u8) -> Result<Value, AllocError>
    ensures { IfOk result (λ v. view v ≡ devices_value i) }
{
    let mut devices = Vec::new(alloc);
    if i == 0 {
        push(&mut devices, whole_device(alloc)?)?;
    }
    Ok(Value::Array(devices))
}

/// The subjects on so many CPUs.
#[derive(Drop)]
pub struct Subjects {
    pub cpus: u8,
    pub ghost some: { 1 ≤ cpus },
    pub ghost few: { cpus ≤ 4 },
}

impl Element for Subjects {
    ghost value = { λ s i. subject_value s.cpus i };

    #[tactic(auto, unfolding(crate::specs::PolicyValue::subject_value))]
    fn build(&self, alloc: Global, i: u8) -> Result<Value, AllocError> {
        let count = 2 * self.cpus;
        json!(in alloc; {
            "name": numbered(alloc, "s", i)?,
            "cpu": i / 2,
            "entry": 0x40_0000,
            "memory": [window(alloc, i)?],
            "channels": [writer(alloc, i)?, reader(alloc, (i + count - 1) % count)?],
            "devices": devices(alloc, i)?,
        })
    }
}

// ---- the scheduling plan

/// The groups, each of one subject.
#[derive(Drop)]
pub struct Groups;

impl Element for Groups {
    ghost value = { λ g i. group_value i };

    #[tactic(auto, unfolding(crate::specs::PolicyValue::group_value))]
    fn build(&self, alloc: Global, i: u8) -> Result<Value, AllocError> {
        json!(in alloc; {
            "name": numbered(alloc, "g", i)?,
            "cpu": i / 2,
            "subjects": [numbered(alloc, "s", i)?],
        })
    }
}

#[tactic(auto, unfolding(crate::specs::PolicyValue::minor_frame_value))]
fn minor_frame(alloc: Global, i: u8, ticks: u8) -> Result<Value, AllocError>
    ensures { IfOk result (λ v. view v ≡ minor_frame_value i ticks) }
{
    let group = numbered(alloc, "g", i)?;
    json!(in alloc; {"group": group, "ticks": ticks})
}

/// The frames of the CPUs: of eight ticks the first subject has so many.
#[derive(Drop)]
pub struct Frames {
    pub first: u8,
    pub ghost few: { first ≤ 8 },
}

impl Element for Frames {
    ghost value = { λ f j. frames_value f.first j };

    #[tactic(auto, unfolding(crate::specs::PolicyValue::frames_value))]
    fn build(&self, alloc: Global, j: u8) -> Result<Value, AllocError> {
        json!(in alloc; {
            "cpu": j,
            "minorFrames": [
                minor_frame(alloc, 2 * j, self.first)?,
                minor_frame(alloc, 2 * j + 1, 8 - self.first)?,
            ],
        })
    }
}
