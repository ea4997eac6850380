ghost use Rattle.std.specs.Prelude.{Result};
ghost use Rattle.serde_json.specs.Data.{Data};
ghost use Rattle.serde_json.specs.View.{view, items_view};
ghost use Rattle.policy_values.specs.Reading.{Gives};
ghost use Rattle.policy_json.specs.Values.{read_list, read_items};

use itoa::Buffer;
use muen_num::Seq;
use policy_types::Want;
use policy_values::ReadError;
use serde_json::Value;
use std::alloc::Global;

/// A type that is read from a JSON value.
pub trait Shape: Drop {
    ghost use Rattle.policy_types.specs.declared.refusal.Fault.{Fault};

    /// What a value is read as, or its first fault.
    ghost reads: { Data → Result Self Fault };

    /// Reads a value.
    fn read(alloc: Global, value: &Value) -> Result<Self, ReadError>
    where
        Self: Sized,
        ensures { Gives (reads (view value.now)) result };
}

#[tactic(auto, using(crate::proofs::ItemsRead::fronts))]
fn read_items<T: Shape>(alloc: Global, items: &[Value]) -> Result<Seq<T>, ReadError>
    ensures { Gives (read_items T.reads 0 (items_view items.now)) result }
{
    let mut list = Seq::new(alloc);
    let mut buffer = Buffer::new();
    for i in 0..items.len() {
        match T::read(alloc, &items[i]) {
            Ok(x) => {
                if list.push(x).is_err() {
                    return Err(ReadError::NoMemory);
                }
            }
            Err(error) => return Err(error.under(buffer.format(i))),
        }
    }
    Ok(list)
}

impl<T: Shape> Shape for Seq<T> {
    ghost reads = { read_list T.reads };

    #[tactic(auto, unfolding(crate::specs::Values::read_list))]
    fn read(alloc: Global, value: &Value) -> Result<Seq<T>, ReadError> {
        match value.as_array() {
            None => Err(ReadError::here(alloc, Want::List)),
            Some(items) => read_items(alloc, items),
        }
    }
}
