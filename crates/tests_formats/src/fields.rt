//! Each reader of a field on bytes made by hand, and the printed texts.
use crate::agree::agree;
use binary_form::fault::{Field, FormError, FormFault, ImageFault};
use binary_form::reading::{byte_of, bytes_upto, gap_of, name_of, tag_of, u16_of, u32_of, u64_of};
use binary_form::writing::put_name;
use std::alloc::Global;
use std::process::Abort;
use std::test::Fail;

fn short(remaining: usize) -> FormError {
    FormError::At(FormFault::Short(remaining))
}

fn bad(remaining: usize, field: Field) -> FormError {
    FormError::At(FormFault::Bad(remaining, field))
}

#[test]
fn reads_numbers(rt: HostRuntime) {
    let bytes = [0x21u8, 0x43, 0x65, 0x87, 0xa9, 0xcb, 0xed, 0x0f, 9];
    agree(&rt, byte_of(&bytes[..1]), Ok((0x21, &bytes[..0])));
    agree(&rt, u16_of(&bytes[..3]), Ok((0x4321, &bytes[2..3])));
    agree(&rt, u32_of(&bytes[..4]), Ok((0x8765_4321, &bytes[..0])));
    agree(
        &rt,
        u64_of(&bytes),
        Ok((0x0fed_cba9_8765_4321, &bytes[8..])),
    );
    agree(&rt, u64_of(&bytes[..7]), Err(short(7)));
}

#[test]
fn reads_bytes(rt: HostRuntime) -> Result<(), Fail> {
    let bytes = [77u8, 85, 0, 0, 7];
    agree(&rt, tag_of(&bytes, b"MU", Field::Magic), Ok(&bytes[2..]));
    agree(
        &rt,
        tag_of(&bytes, b"MN", Field::Magic),
        Err(bad(5, Field::Magic)),
    );
    agree(&rt, gap_of(&bytes[2..], 2, Field::Zero), Ok(&bytes[4..]));
    agree(
        &rt,
        gap_of(&bytes[2..], 3, Field::Zero),
        Err(bad(3, Field::Zero)),
    );
    agree(&rt, bytes_upto(rt.alloc(), &bytes, 6).err(), Some(short(5)));
    let (front, rest) = bytes_upto(rt.alloc(), &bytes, 4).ok().ok_or("bytes")?;
    agree(&rt, front.items(), &bytes[..4]);
    agree(&rt, rest, &bytes[4..]);
    Ok(())
}

// 64 bytes: this one, this text, and zeros.
fn name_field(first: u8, text: &[u8]) -> [u8; 64] {
    let mut bytes = [0u8; 64];
    bytes[0] = first;
    if text.len() < 64 {
        bytes[1..1 + text.len()].copy_from_slice(text);
    }
    bytes
}

// A field is read as a name of this text and written the same, or is no name.
fn read_and_write(
    rt: &impl Abort,
    alloc: Global,
    field: &[u8],
    text: &[u8],
    wanted: bool,
) -> Result<(), Fail> {
    match name_of(field) {
        Ok((name, rest)) => {
            assert!(rt; wanted);
            agree(rt, name.bytes(), text);
            assert!(rt; rest.is_empty());
            let mut out = Vec::new(alloc);
            put_name(&mut out, &name)?;
            agree(rt, out.as_slice(), field);
        }
        Err(halt) => {
            assert!(rt; !wanted);
            agree(rt, halt, bad(64, Field::Name));
        }
    }
    Ok(())
}

#[test]
fn reads_names(rt: HostRuntime) -> Result<(), Fail> {
    let longest = [b'a'; 63];
    let cases: [(u8, &[u8], bool); 5] = [
        (1, b"a", true),
        (63, longest.as_slice(), true),
        (64, longest.as_slice(), false),
        (2, b"a", false),
        (3, b"a b", false),
    ];
    for (first, text, wanted) in cases {
        read_and_write(&rt, rt.alloc(), &name_field(first, text), text, wanted)?;
    }
    Ok(())
}

#[test]
fn writes_faults(rt: HostRuntime) -> Result<(), Fail> {
    let alloc = rt.alloc();
    let last = ImageFault::Trailing { at: u64::MAX };
    agree(
        &rt,
        last.to_string(alloc)?.as_str(),
        "image refused at 18446744073709551615: trailing",
    );
    let refused = ImageFault::NoMemory;
    agree(&rt, refused.to_string(alloc)?.as_str(), "out of memory");
    Ok(())
}
