//! Objects: the value under each key, and that there is no key but these.
ghost use Rattle.std.specs.Prelude.{◌≡◌, map, [], is_some, Ok, if◌then◌else◌};
ghost use Rattle.std.specs.Str.{bytes_eq};
ghost use Rattle.std.specs.List.{list_any};
ghost use Rattle.serde_json.specs.View.{view, members_view};
ghost use Rattle.serde_json.specs.Find.{get};
ghost use Rattle.policy_values.specs.Faults.{fault};
ghost use Rattle.policy_values.specs.Reading.{as_read_error, Gives};
ghost use Rattle.policy_json.specs.Values.{read_list};
ghost use Rattle.policy_json.specs.Objects.{description, has_known, read_known, read_required, read_optional, read_if_present};

use crate::shape::Shape;
use muen_num::Seq;
use policy_types::Want;
use policy_values::ReadError;
use serde_json::{Map, Value};
use std::alloc::Global;

/// A type that is read from an object.
pub trait Object: Drop {
    ghost use Rattle.policy_json.specs.Objects as table;

    /// Its keys, and what each value is read as.
    ghost object: { table.Object Self };

    /// Its keys, beside `description`.
    fn keys() -> &'static [&'static str]
    where
        Self: Sized,
        ensures { map (λ k. k.now) result.now ≡ object.keys };

    /// Reads the values under the keys, in their order.
    fn read_fields(alloc: Global, value: &Value) -> Result<Self, ReadError>
    where
        Self: Sized,
        ensures { Gives (object.read (view value.now)) result };
}

impl<T: Object> Shape for T {
    ghost use Rattle.policy_json.specs.Objects.{read_object};

    ghost reads = { read_object T.object };

    #[tactic(auto, unfolding(crate::specs::Objects::read_object))]
    fn read(alloc: Global, value: &Value) -> Result<T, ReadError> {
        read_known(alloc, value, T::keys())?;
        T::read_fields(alloc, value)
    }
}

fn is_among(key: &str, keys: &[&str]) -> bool
    ensures { result ≡ list_any (λ known. bytes_eq known.now key.now) keys.now }
{
    keys.iter().any(|known| *known == key)
}

#[tactic(auto, unfolding(crate::specs::Objects::description))]
fn is_description(key: &str) -> bool
    ensures { result ≡ bytes_eq key.now description }
{
    key == "description"
}

#[tactic(auto, using(crate::proofs::KeysOfObject::any_key))]
fn has_known(members: &Map<String, Value>, keys: &[&str]) -> bool
    ensures { result ≡ has_known (map (λ k. k.now) keys.now) (members_view members.now.entries) }
{
    for (key, _) in members {
        if !is_description(key.as_str()) && !is_among(key.as_str(), keys) {
            return false;
        }
    }
    true
}

/// Whether there is a value under a key.
pub fn has(value: &Value, key: &str) -> bool
    ensures { result ≡ is_some (get key.now (view value.now)) }
{
    value.get(key).is_some()
}

/// That the value itself is as wanted, where it is.
pub fn require(alloc: Global, is_so: bool, want: Want) -> Result<(), ReadError>
    ensures { result ≡ as_read_error (if is_so then Ok tt else fault [] want) }
{
    if is_so {
        Ok(())
    } else {
        Err(ReadError::here(alloc, want))
    }
}

// An object with no key but these and `description`.
#[tactic(auto, unfolding(crate::specs::Objects::read_known))]
fn read_known(alloc: Global, value: &Value, keys: &[&str]) -> Result<(), ReadError>
    ensures { result ≡ as_read_error (read_known (map (λ k. k.now) keys.now) (view value.now)) }
{
    match value.as_object() {
        None => Err(ReadError::here(alloc, Want::Object)),
        Some(members) => require(alloc, has_known(members, keys), Want::KnownKeys),
    }
}

/// The value under a key, if the key is there.
#[tactic(auto, unfolding(crate::specs::Objects::read_if_present))]
pub fn if_present<T: Shape>(alloc: Global, value: &Value, key: &str) -> Result<Option<T>, ReadError>
    ensures { Gives (read_if_present key.now T.reads (view value.now)) result }
{
    match value.get(key) {
        None => Ok(None),
        Some(found) => match T::read(alloc, found) {
            Ok(x) => Ok(Some(x)),
            Err(error) => Err(error.under(key)),
        },
    }
}

/// The value under a key that has to be there.
#[tactic(auto, unfolding(crate::specs::Objects::read_required))]
pub fn required<T: Shape>(alloc: Global, value: &Value, key: &str) -> Result<T, ReadError>
    ensures { Gives (read_required key.now T.reads (view value.now)) result }
{
    match if_present(alloc, value, key)? {
        Some(x) => Ok(x),
        None => Err(ReadError::here(alloc, Want::Present).under(key)),
    }
}

/// The value under a key, or the default where the key is absent.
#[tactic(auto, unfolding(crate::specs::Objects::read_optional))]
pub fn optional<T: Shape>(
    alloc: Global,
    value: &Value,
    key: &str,
    default: T,
) -> Result<T, ReadError>
    ensures { Gives (read_optional key.now default T.reads (view value.now)) result }
{
    Ok(if_present(alloc, value, key)?.unwrap_or(default))
}

/// The list under a key, or the empty list where the key is absent.
pub fn list<T: Shape>(alloc: Global, value: &Value, key: &str) -> Result<Seq<T>, ReadError>
    ensures { Gives (read_optional key.now [] (read_list T.reads) (view value.now)) result }
{
    optional(alloc, value, key, Seq::new(alloc))
}
