//! Kinds that are spelled by a text: names, rights, memory types, modes, roles and bytes.
ghost use Rattle.std.specs.Prelude.{◌≡◌, IfOk};
ghost use Rattle.serde_json.specs.View.{view};
ghost use Rattle.policy_values.specs.Kinds.{caching_from, caching_of, hexadecimal_of, mode_from, mode_of, msr_rights, msr_rights_from, msr_rights_of, named, rights_from, rights_of, role_from, role_of};

use hex::FromHexError;
use muen_num::{EventMode, Name, NoMemory, Seq};
use policy_types::{Caching, MsrRights, Rights, Role};
use serde_json::Value;
use std::alloc::Global;

/// The name that a value is.
pub fn name_of(value: &Value) -> Option<Name>
    ensures { result ≡ named (view value.now) }
{
    Name::read(value.as_str()?.as_bytes())
}

fn rights_from(text: &str) -> Option<Rights>
    ensures { result ≡ rights_from text.now }
{
    match text {
        "r" => Some(Rights::R),
        "rw" => Some(Rights::Rw),
        "rx" => Some(Rights::Rx),
        "rwx" => Some(Rights::Rwx),
        _ => None,
    }
}

/// The rights on memory that a value is: `r`, `rw`, `rx` or `rwx`.
pub fn rights_of(value: &Value) -> Option<Rights>
    ensures { result ≡ rights_of (view value.now) }
{
    rights_from(value.as_str()?)
}

fn msr_rights(read: bool, write: bool) -> MsrRights
    ensures { result ≡ msr_rights read write }
{
    MsrRights { read, write }
}

fn msr_rights_from(text: &str) -> Option<MsrRights>
    ensures { result ≡ msr_rights_from text.now }
{
    match text {
        "r" => Some(msr_rights(true, false)),
        "w" => Some(msr_rights(false, true)),
        "rw" => Some(msr_rights(true, true)),
        _ => None,
    }
}

/// The rights on MSRs that a value is: `r`, `w` or `rw`.
pub fn msr_rights_of(value: &Value) -> Option<MsrRights>
    ensures { result ≡ msr_rights_of (view value.now) }
{
    msr_rights_from(value.as_str()?)
}

fn caching_from(text: &str) -> Option<Caching>
    ensures { result ≡ caching_from text.now }
{
    match text {
        "UC" => Some(Caching::Uc),
        "WC" => Some(Caching::Wc),
        "WT" => Some(Caching::Wt),
        "WP" => Some(Caching::Wp),
        "WB" => Some(Caching::Wb),
        _ => None,
    }
}

/// The memory type that a value is: `UC`, `WC`, `WT`, `WP` or `WB`.
pub fn caching_of(value: &Value) -> Option<Caching>
    ensures { result ≡ caching_of (view value.now) }
{
    caching_from(value.as_str()?)
}

fn mode_from(text: &str) -> Option<EventMode>
    ensures { result ≡ mode_from text.now }
{
    match text {
        "asap" => Some(EventMode::Asap),
        "async" => Some(EventMode::Async),
        "self" => Some(EventMode::Own),
        "switch" => Some(EventMode::Switch),
        _ => None,
    }
}

/// The mode of an event that a value is: `asap`, `async`, `self` or `switch`.
pub fn mode_of(value: &Value) -> Option<EventMode>
    ensures { result ≡ mode_of (view value.now) }
{
    mode_from(value.as_str()?)
}

fn role_from(text: &str) -> Option<Role>
    ensures { result ≡ role_from text.now }
{
    match text {
        "writer" => Some(Role::Writer),
        "reader" => Some(Role::Reader),
        _ => None,
    }
}

/// The end of a channel that a value is: `writer` or `reader`.
pub fn role_of(value: &Value) -> Option<Role>
    ensures { result ≡ role_of (view value.now) }
{
    role_from(value.as_str()?)
}

/// The bytes that a value spells, two hexadecimal digits each.
pub fn hexadecimal_of(alloc: Global, value: &Value) -> Result<Option<Seq<u8>>, NoMemory>
    ensures { IfOk result (λ bytes. bytes ≡ hexadecimal_of (view value.now)) }
{
    let Some(text) = value.as_str() else {
        return Ok(None);
    };
    match hex::decode(alloc, text.as_bytes()) {
        Ok(bytes) => Ok(Some(Seq::of(bytes))),
        Err(FromHexError::OutOfMemory) => Err(NoMemory),
        Err(_) => Ok(None),
    }
}
