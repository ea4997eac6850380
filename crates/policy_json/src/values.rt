//! The kinds of values, each with what is wanted where a value isn't one.
ghost use Rattle.std.specs.Prelude.{◌≡◌};
ghost use Rattle.serde_json.specs.View.{view};
ghost use Rattle.policy_values.specs.Reading.{as_read_error};
ghost use Rattle.policy_json.specs.Values.{read_byte, read_caching, read_hexadecimal, read_mode, read_msr_rights, read_name, read_number, read_rights, read_role};

use crate::shape::Shape;
use muen_num::{EventMode, Name, Seq};
use policy_types::{Caching, MsrRights, Rights, Role, Want};
use policy_values::{
    ReadError, byte_of, caching_of, hexadecimal_of, mode_of, msr_rights_of, name_of, number_of,
    or_want, rights_of, role_of,
};
use serde_json::Value;
use std::alloc::Global;
use std::marker::Model;

impl Shape for u64 {
    ghost reads = { read_number };

    #[tactic(auto, unfolding(crate::specs::Values::read_number))]
    fn read(alloc: Global, value: &Value) -> Result<u64, ReadError>
        ensures { result ≡ as_read_error (read_number (view value.now)) }
    {
        or_want(alloc, number_of(value), Want::Number)
    }
}

impl Shape for u8 {
    ghost reads = { read_byte };

    #[tactic(auto, unfolding(crate::specs::Values::read_byte))]
    fn read(alloc: Global, value: &Value) -> Result<u8, ReadError>
        ensures { result ≡ as_read_error (read_byte (view value.now)) }
    {
        or_want(alloc, byte_of(value), Want::Byte)
    }
}

impl Shape for Name {
    ghost reads = { read_name };

    #[tactic(auto, unfolding(crate::specs::Values::read_name))]
    fn read(alloc: Global, value: &Value) -> Result<Name, ReadError>
        ensures { result ≡ as_read_error (read_name (view value.now)) }
    {
        or_want(alloc, name_of(value), Want::Name)
    }
}

impl Shape for Rights {
    ghost reads = { read_rights };

    #[tactic(auto, unfolding(crate::specs::Values::read_rights))]
    fn read(alloc: Global, value: &Value) -> Result<Rights, ReadError>
        ensures { result ≡ as_read_error (read_rights (view value.now)) }
    {
        or_want(alloc, rights_of(value), Want::Rights)
    }
}

impl Shape for MsrRights {
    ghost reads = { read_msr_rights };

    #[tactic(auto, unfolding(crate::specs::Values::read_msr_rights))]
    fn read(alloc: Global, value: &Value) -> Result<MsrRights, ReadError>
        ensures { result ≡ as_read_error (read_msr_rights (view value.now)) }
    {
        or_want(alloc, msr_rights_of(value), Want::Rights)
    }
}

impl Shape for Caching {
    ghost reads = { read_caching };

    #[tactic(auto, unfolding(crate::specs::Values::read_caching))]
    fn read(alloc: Global, value: &Value) -> Result<Caching, ReadError>
        ensures { result ≡ as_read_error (read_caching (view value.now)) }
    {
        or_want(alloc, caching_of(value), Want::Caching)
    }
}

impl Shape for EventMode {
    ghost reads = { read_mode };

    #[tactic(auto, unfolding(crate::specs::Values::read_mode))]
    fn read(alloc: Global, value: &Value) -> Result<EventMode, ReadError>
        ensures { result ≡ as_read_error (read_mode (view value.now)) }
    {
        or_want(alloc, mode_of(value), Want::Mode)
    }
}

impl Shape for Role {
    ghost reads = { read_role };

    #[tactic(auto, unfolding(crate::specs::Values::read_role))]
    fn read(alloc: Global, value: &Value) -> Result<Role, ReadError>
        ensures { result ≡ as_read_error (read_role (view value.now)) }
    {
        or_want(alloc, role_of(value), Want::Role)
    }
}

/// Bytes that a text of hexadecimal digits spells. Contracts see the bytes.
#[derive(Debug, Drop)]
pub struct Hexadecimal {
    /// The bytes.
    pub bytes: Seq<u8>,
}

impl Model for Hexadecimal {
    ghost use Rattle.std.specs.Prelude.{List, ℕ};

    ghost Value = { List ℕ };

    ghost view = { λ h. h.bytes };
}

impl Shape for Hexadecimal {
    ghost reads = { read_hexadecimal };

    #[tactic(auto, unfolding(crate::specs::Values::read_hexadecimal))]
    fn read(alloc: Global, value: &Value) -> Result<Hexadecimal, ReadError> {
        match hexadecimal_of(alloc, value) {
            Ok(Some(bytes)) => Ok(Hexadecimal { bytes }),
            Ok(None) => Err(ReadError::here(alloc, Want::Hexadecimal)),
            Err(_) => Err(ReadError::NoMemory),
        }
    }
}
