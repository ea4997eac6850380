//! Events, who raises them and whom they reach.
ghost use Rattle.std.specs.Prelude.{◌≡◌};
ghost use Rattle.serde_json.specs.View.{view};
ghost use Rattle.policy_json.specs.Table.{is_call_or_trap, way_of_keys};

use crate::object::{Object, has, if_present, require, required};
use policy_types::Want;
use policy_types::source::{Event, EventSource, EventTarget, SourceWay};
use policy_values::ReadError;
use serde_json::Value;
use std::alloc::Global;

#[tactic(auto, unfolding(crate::specs::Table::event))]
impl Object for Event {
    ghost use Rattle.policy_json.specs.Table.{event};

    ghost object = { event };

    fn keys() -> &'static [&'static str] {
        &["name", "mode"]
    }

    fn read_fields(alloc: Global, value: &Value) -> Result<Event, ReadError> {
        Ok(Event {
            name: required(alloc, value, "name")?,
            mode: required(alloc, value, "mode")?,
        })
    }
}

#[tactic(auto, unfolding(crate::specs::Table::is_call_or_trap))]
fn is_call_or_trap(value: &Value) -> bool
    ensures { result ≡ is_call_or_trap (view value.now) }
{
    has(value, "call") != has(value, "trap")
}

fn way_of(call: Option<u64>, trap: Option<u64>) -> SourceWay
    ensures { result ≡ way_of_keys call trap }
{
    match call {
        Some(number) => SourceWay::Call(number),
        None => SourceWay::Trap(trap.unwrap_or(0)),
    }
}

#[tactic(auto, unfolding(crate::specs::Table::call_or_trap, crate::specs::Table::event_source))]
impl Object for EventSource {
    ghost use Rattle.policy_json.specs.Table.{event_source};

    ghost object = { event_source };

    fn keys() -> &'static [&'static str] {
        &["event", "call", "trap"]
    }

    fn read_fields(alloc: Global, value: &Value) -> Result<EventSource, ReadError> {
        require(alloc, is_call_or_trap(value), Want::CallOrTrap)?;
        let event = required(alloc, value, "event")?;
        let call = if_present(alloc, value, "call")?;
        let trap = if_present(alloc, value, "trap")?;
        Ok(EventSource {
            event,
            way: way_of(call, trap),
        })
    }
}

#[tactic(auto, unfolding(crate::specs::Table::event_target))]
impl Object for EventTarget {
    ghost use Rattle.policy_json.specs.Table.{event_target};

    ghost object = { event_target };

    fn keys() -> &'static [&'static str] {
        &["event", "vector"]
    }

    fn read_fields(alloc: Global, value: &Value) -> Result<EventTarget, ReadError> {
        Ok(EventTarget {
            event: required(alloc, value, "event")?,
            vector: if_present(alloc, value, "vector")?,
        })
    }
}
