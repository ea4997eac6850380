//! Names, tags, numbers and a list, as they are printed.
use crate::agree::agree;
use muen_num::text::{
    append, append_decimal, append_decimal8, append_decimal32, append_hex4, append_hex8,
    append_hex16, append_hex32,
};
use muen_num::{Name, Seq, Tag, TagPart, first_pair};
use std::test::Fail;

// Each row is a text, and that of the name that it is, or `none`.
const NAMES: &str = r#"=>none
a=>a
A-z_0.9=>A-z_0.9
aaaaaaaaaaaaaaaaaaaaaaaaaaaaaaaaaaaaaaaaaaaaaaaaaaaaaaaaaaaaaaa=>aaaaaaaaaaaaaaaaaaaaaaaaaaaaaaaaaaaaaaaaaaaaaaaaaaaaaaaaaaaaaaa
aaaaaaaaaaaaaaaaaaaaaaaaaaaaaaaaaaaaaaaaaaaaaaaaaaaaaaaaaaaaaaaa=>none
a b=>none
a/b=>none
a:b=>none
a|b=>none
ä=>none"#;

#[test]
fn reads_names(rt: HostRuntime) -> Result<(), Fail> {
    for row in NAMES.split('\n') {
        let Some((text, want)) = row.split_once("=>") else {
            return Err(Fail::new("no row"));
        };
        match Name::read(text.as_bytes()) {
            Some(name) => agree(&rt, name.as_str(), want),
            None => agree(&rt, want, "none"),
        }
    }
    Ok(())
}

#[test]
fn writes_tags(rt: HostRuntime) -> Result<(), Fail> {
    let alloc = rt.alloc();
    let (Some(owner), Some(ring)) = (Name::read(b"net"), Name::read(b"ring")) else {
        return Err(Fail::new("no name"));
    };
    let mut text = String::new(alloc);
    for part in [
        TagPart::Whole,
        TagPart::Named(ring),
        TagPart::State,
        TagPart::Ept,
        TagPart::Iobm,
        TagPart::Msrbm,
        TagPart::Msrs,
    ] {
        text.push_str(Tag { owner, part }.to_string(alloc)?.as_str())?;
        text.push(' ')?;
    }
    let wanted = "net net|ring net:state net:ept net:iobm net:msrbm net:msrs ";
    agree(&rt, text.as_str(), wanted);
    Ok(())
}

#[test]
fn writes_numbers(rt: HostRuntime) {
    let mut out = [0u8; 256];
    let at = append(&mut out, 0, b"= ");
    let at = append_decimal(&mut out, at, u64::MAX);
    let at = append_decimal32(&mut out, at, u32::MAX);
    let at = append_decimal8(&mut out, at, u8::MAX);
    let at = append_hex16(&mut out, at, 0x10e);
    let at = append_hex8(&mut out, at, 0xdead_beef);
    let at = append_hex4(&mut out, at, 768);
    let at = append_hex32(&mut out, at, &[0xa5; 32]);
    agree(
        &rt,
        &out[..at],
        b"= 184467440737095516154294967295255000000000000010edeadbeef0300a5a5a5a5a5a5a5a5a5a5a5a5a5a5a5a5a5a5a5a5a5a5a5a5a5a5a5a5a5a5a5a5".as_slice(),
    );
}

#[test]
fn keeps_a_list(rt: HostRuntime) -> Result<(), Fail> {
    let mut list: Seq<u8> = Seq::new(rt.alloc());
    list.push(7)?;
    list.push(9)?;
    agree(&rt, list.into_vec().as_slice(), [7, 9].as_slice());
    Ok(())
}

// The later one's index tells which pair is first.
#[test]
fn finds_the_first_pair(rt: HostRuntime) {
    let found = first_pair(&[5, 20, 2, 20, 5], |a: &u64, b: &u64| {
        if a == b { Some(*a) } else { None }
    });
    agree(&rt, found, Some(20));
}
