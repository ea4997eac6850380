//! Values, with what they stand for.
use crate::agree::{agree, agree_at};
use muen_num::EventMode;
use policy_lawful::{MsrRights, Rights, Role};
use policy_values::{byte_of, mode_of, msr_rights_of, number_of, rights_of, role_of};
use serde_json::Value;
use std::alloc::Global;
use std::test::Fail;

// The value of a JSON text.
fn value(alloc: Global, text: &str) -> Result<Value, Fail> {
    match Value::from_slice(alloc, text.as_bytes()) {
        Ok(value) => Ok(value),
        Err(_) => Err(Fail::new("no JSON text")),
    }
}

// Each row is a JSON text, and the number that it is, or `none`.
const NUMBERS: &str = r##"0=>0
18446744073709551615=>18446744073709551615
"16#0010_0000#"=>1048576
"16#ff#"=>255
"16#FF#"=>255
"16#0_0#"=>0
"16#0000_ffff_ffff_ffff_ffff#"=>18446744073709551615
18446744073709551616=>none
-1=>none
1.0=>none
1e3=>none
true=>none
[1]=>none
"1"=>none
"16#10__0#"=>none
"16#_1#"=>none
"16#1_#"=>none
"16##"=>none
"16#g#"=>none
"16#1"=>none
"16#1##"=>none
"16#10000000000000000#"=>none
"0x10"=>none"##;

// The number that a JSON text is, as a text, or `none`.
fn number(alloc: Global, text: &str) -> Result<String, Fail> {
    match number_of(&value(alloc, text)?) {
        Some(number) => Ok(number.to_string(alloc)?),
        None => Ok(String::from_str(alloc, "none")?),
    }
}

#[test]
fn numbers(rt: HostRuntime) -> Result<(), Fail> {
    let alloc = rt.alloc();
    for row in NUMBERS.split('\n') {
        let Some((text, want)) = row.split_once("=>") else {
            return Err(Fail::new("no row"));
        };
        agree_at(&rt, number(alloc, text)?.as_str(), want, text);
    }
    Ok(())
}

fn byte(alloc: Global, text: &str) -> Result<Option<u8>, Fail> {
    Ok(byte_of(&value(alloc, text)?))
}

fn mode(alloc: Global, text: &str) -> Result<Option<EventMode>, Fail> {
    Ok(mode_of(&value(alloc, text)?))
}

fn role(alloc: Global, text: &str) -> Result<Option<Role>, Fail> {
    Ok(role_of(&value(alloc, text)?))
}

fn msr_rights(alloc: Global, text: &str) -> Result<Option<MsrRights>, Fail> {
    Ok(msr_rights_of(&value(alloc, text)?))
}

fn rights(alloc: Global, text: &str) -> Result<Option<Rights>, Fail> {
    Ok(rights_of(&value(alloc, text)?))
}

#[test]
fn other_kinds(rt: HostRuntime) -> Result<(), Fail> {
    let alloc = rt.alloc();
    agree(&rt, byte(alloc, "\"16#FF#\"")?, Some(255));
    agree(&rt, byte(alloc, "256")?, None);
    agree(&rt, mode(alloc, "\"self\"")?, Some(EventMode::Own));
    agree(&rt, mode(alloc, "\"own\"")?, None);
    agree(&rt, role(alloc, "\"reader\"")?, Some(Role::Reader));
    let write = MsrRights {
        read: false,
        write: true,
    };
    agree(&rt, msr_rights(alloc, "\"w\"")?, Some(write));
    agree(&rt, msr_rights(alloc, "\"rx\"")?, None);
    agree(&rt, rights(alloc, "\"w\"")?, None);
    Ok(())
}
