//! Sources and listings of bytes.
use asm_listing::{put_listing, put_source};
use asm_text::assemble;
use muen_outside::{Buffer, MemSink};
use std::alloc::Global;
use std::test::Fail;

// An instruction of each shape, an unknown opcode, and two bytes behind it.
const BYTES: [u8; 114] = [
    0x18, 0x00, 0x00, 0x00, 0x00, 0x00, 0x00, 0x00, //
    0x01, 0x10, 0x00, 0x00, 0xfb, 0xff, 0xff, 0xff, //
    0x14, 0x21, 0x00, 0x00, 0x00, 0x00, 0x00, 0x00, //
    0x0b, 0x42, 0x03, 0x00, 0x08, 0x00, 0x00, 0x00, //
    0x0c, 0xf2, 0x00, 0x00, 0xf8, 0xff, 0xff, 0xff, //
    0x11, 0x21, 0x00, 0x00, 0x05, 0x00, 0x00, 0x00, //
    0x12, 0x21, 0x02, 0x00, 0x00, 0x00, 0x00, 0x00, //
    0x15, 0x10, 0x00, 0x00, 0x00, 0x00, 0x00, 0x00, //
    0x16, 0x03, 0x00, 0x00, 0x00, 0x00, 0x00, 0x00, //
    0x0d, 0x00, 0x00, 0x00, 0xf0, 0xff, 0xff, 0xff, //
    0x0e, 0x20, 0x00, 0x00, 0x18, 0x00, 0x00, 0x00, //
    0x10, 0x12, 0x00, 0x00, 0x00, 0x00, 0x00, 0x80, //
    0x00, 0x00, 0x00, 0x00, 0x00, 0x00, 0x00, 0x00, //
    0x1c, 0x00, 0x00, 0x00, 0x00, 0x00, 0x00, 0xff, //
    0x1b, 0x0a,
];

const SOURCE: &str = "STI
LI r1, -5
WRMSR r2, r1
LOAD r4, 8 bytes at r2 + 8
STORE r15, 1 byte at r2 - 8
IN r2, 1 byte at port r1 + 5
OUT r2, 4 bytes to port r1
RDTSC r1
VMCALL r3
JMP -16
JZ r2, 24
JB r1, r2, -2147483648
NOP
.byte 0x1c, 0x00, 0x00, 0x00, 0x00, 0x00, 0x00, 0xff
.byte 0x1b, 0x0a
";

// What is put of bytes as a source, into so much room.
fn source(alloc: Global, bytes: &[u8], room: usize) -> Result<MemSink, Fail> {
    let mut out = MemSink::make(alloc, room, Vec::new(alloc), 0)?;
    let mut buffer = Buffer::make(alloc)?;
    put_source(bytes, &mut buffer, &mut out)?;
    Ok(out)
}

#[test]
fn a_line_of_each_shape(rt: HostRuntime) -> Result<(), Fail> {
    let printed = source(rt.alloc(), &BYTES, 1000)?;
    assert!(rt; printed.text() == SOURCE.as_bytes());
    Ok(())
}

const LISTING: &str = "fffffffffffffff8  0b42030008000000  LOAD r4, 8 bytes at r2 + 8
0000000000000000  1b0a              .byte 0x1b, 0x0a
";

#[test]
fn a_listing_past_the_last_address(rt: HostRuntime) -> Result<(), Fail> {
    let alloc = rt.alloc();
    let bytes = [0x0b, 0x42, 0x03, 0x00, 0x08, 0x00, 0x00, 0x00, 0x1b, 0x0a];
    let mut out = MemSink::make(alloc, 1000, Vec::new(alloc), 0)?;
    let mut buffer = Buffer::make(alloc)?;
    put_listing(0xffff_ffff_ffff_fff8, &bytes, &mut buffer, &mut out)?;
    assert!(rt; out.text() == LISTING.as_bytes());
    Ok(())
}

// So many bytes, of which each eight have an opcode that is known or the next, and few fields.
fn mixed(alloc: Global, count: usize) -> Result<Vec<u8>, Fail> {
    let mut bytes = Vec::with_capacity(alloc, count)?;
    let mut state: u64 = 1;
    for index in 0..count {
        state = state
            .wrapping_mul(6_364_136_223_846_793_005)
            .wrapping_add(1);
        let byte = (state >> 56) as u8;
        bytes.push(match index % 8 {
            0 => byte % 29,
            1 => byte,
            2 => byte % 5,
            3 => 0,
            _ => byte,
        })?;
    }
    Ok(bytes)
}

#[test]
fn there_and_back(rt: HostRuntime) -> Result<(), Fail> {
    let alloc = rt.alloc();
    let bytes = mixed(alloc, 4096)?;
    let printed = source(alloc, &bytes, 65536)?;
    match assemble(alloc, printed.text()) {
        Ok(again) => assert!(rt; again == bytes),
        Err(_) => return Err(Fail::new("no source")),
    }
    Ok(())
}
