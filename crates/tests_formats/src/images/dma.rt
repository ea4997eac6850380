//! Files of tables for direct memory access that are spelled byte by byte: what unpacking says of them
//! and of damaged ones, where a device reaches, and what a record's lines become.
use super::spelled::{CHOSEN, spelled};
use crate::agree::{agree, agree_at};
use dma_tables::{DmaTables, Effect, dma_fault_pieces, lower, pack, unpack};
use image_pack::Parts;
use itoa::Buffer;
use muen_num::{Name, Seq};
use record_text::{Input, Record, TickInput};
use std::alloc::Global;
use std::test::Fail;

/// Six pages from address 0 on: a device `none` on bus 0, with devfn 24, reaches the page at 0x1000 by
/// its addresses 4,096 to 8,191.
const TABLES: &str = r#"4d 55 45 4e 44 4d 41 31 0:8 6:4 1 0*3
'none 0 18 0*2
1001:8 0*ff8
0*180 2001:8 102:8 0*e70
3003:8 0*ff8
4003:8 0*ff8
5003:8 0*ff8
0*8 1003:8 0*ff0"#;

// What unpacking bytes answers, as a text: `tables`, or the fault.
fn answer(alloc: Global, bytes: &[u8]) -> Result<String, Fail> {
    match unpack(alloc, bytes).err() {
        None => Ok(String::from_str(alloc, "tables")?),
        Some(fault) => {
            let mut digits = Buffer::new();
            Ok(dma_fault_pieces(fault, &mut digits).to_string(alloc)?)
        }
    }
}

// The same of the file with another byte at an offset.
fn damaged(alloc: Global, at: usize, byte: u8) -> Result<String, Fail> {
    let mut file = spelled(alloc, TABLES)?;
    if let Some(place) = file.get_mut(at) {
        *place = byte;
    }
    answer(alloc, &file)
}

/// The file with another byte at an offset, and the fault.
const DAMAGES: [(usize, u8, &str); 9] = [
    (7, 50, "dma refused at 0: magic"),
    (8, 1, "dma refused at 8: place"),
    (16, 0, "dma refused at 16: pages"),
    (13, 1, "dma refused at 16: pages"),
    (20, 33, "dma refused at 20: count"),
    (23, 1, "dma refused at 21: zero"),
    (72, 32, "dma refused at 24: name"),
    (91, 1, "dma refused at 90: zero"),
    (20, 0, "dma refused at 24600: trailing"),
];

// The same of so many of its bytes.
fn cut(alloc: Global, count: usize) -> Result<String, Fail> {
    let file = spelled(alloc, TABLES)?;
    match file.get(..count) {
        Some(bytes) => answer(alloc, bytes),
        None => Ok(String::from_str(alloc, "no so many bytes")?),
    }
}

// The same with this number of pages.
fn with_pages(alloc: Global, pages: &str) -> Result<String, Fail> {
    let text = TABLES.replacen(alloc, "6:4", pages, 1)?;
    answer(alloc, &spelled(alloc, text.as_str())?)
}

// Whether the file is one of tables that are packed as it again.
fn comes_back(alloc: Global, file: &[u8]) -> Result<bool, Fail> {
    match unpack(alloc, file) {
        Ok(tables) => Ok(pack(alloc, &tables)?.as_slice() == file),
        Err(_) => Ok(false),
    }
}

fn reaches(alloc: Global, file: &[u8], device: &[u8], address: u64, write: bool) -> Option<u64> {
    let tables = unpack(alloc, file).ok()?;
    tables.walk(&Name::read(device)?, address, write)
}

#[test]
fn there_and_back(rt: HostRuntime) -> Result<(), Fail> {
    let alloc = rt.alloc();
    let file = spelled(alloc, TABLES)?;
    agree(&rt, file.len(), 24_668);
    agree(&rt, answer(alloc, &file)?.as_str(), "tables");
    assert!(rt; comes_back(alloc, &file)?);
    Ok(())
}

#[test]
fn first_faults(rt: HostRuntime) -> Result<(), Fail> {
    let alloc = rt.alloc();
    agree(&rt, answer(alloc, &[])?.as_str(), "dma refused at 0: short");
    for (at, byte, fault) in DAMAGES {
        agree_at(&rt, damaged(alloc, at, byte)?.as_str(), fault, at);
    }
    agree(&rt, cut(alloc, 750)?.as_str(), "dma refused at 92: short");
    // 16,384 pages are the most, of which most aren't there
    agree(
        &rt,
        with_pages(alloc, "4000:4")?.as_str(),
        "dma refused at 92: short",
    );
    agree(
        &rt,
        with_pages(alloc, "4001:4")?.as_str(),
        "dma refused at 16: pages",
    );
    Ok(())
}

#[test]
fn where_a_device_reaches(rt: HostRuntime) -> Result<(), Fail> {
    let alloc = rt.alloc();
    let file = spelled(alloc, TABLES)?;
    assert!(rt; reaches(alloc, &file, b"none", 4104, true) == Some(0x1008));
    assert!(rt; reaches(alloc, &file, b"none", 8191, false) == Some(0x1FFF));
    assert!(rt; reaches(alloc, &file, b"none", 8192, true).is_none());
    assert!(rt; reaches(alloc, &file, b"none", 1 << 48, true).is_none());
    assert!(rt; reaches(alloc, &file, b"card", 4104, true).is_none());
    Ok(())
}

// A line of direct memory access.
fn line(alloc: Global, addr: u64, bytes: &[u8]) -> Result<TickInput<Input>, Fail> {
    Ok(TickInput {
        tick: 1,
        input: Input::Dma {
            device: 1,
            addr,
            bytes: Seq::of(Vec::from_slice(alloc, bytes)?),
        },
    })
}

// Two lines, inside and across the end, and an interrupt of nobody.
fn record(alloc: Global) -> Result<Record<Input>, Fail> {
    let mut inputs = Seq::new(alloc);
    inputs.push(line(alloc, 4104, &[7, 0])?)?;
    inputs.push(line(alloc, 8191, &[7, 7])?)?;
    inputs.push(TickInput {
        tick: 2,
        input: Input::Idle,
    })?;
    Ok(Record {
        end: 3,
        inputs,
        orders: Seq::new(alloc),
    })
}

// Whether 7 and 0 are written from 0x1008 on.
fn is_written(entry: &TickInput<Effect>) -> bool {
    match &entry.input {
        Effect::Mem { at, bytes } => *at == 0x1008 && bytes.items() == [7, 0].as_slice(),
        _ => false,
    }
}

// How many of its inputs reach the machine, and whether each is that.
fn written_in(
    alloc: Global,
    parts: &Parts,
    tables: Option<&DmaTables>,
) -> Result<(usize, bool), Fail> {
    let inputs = lower(alloc, record(alloc)?, parts, tables)?.inputs;
    Ok((inputs.len(), inputs.items().iter().all(is_written)))
}

// The same of a machine with the spelled image.
fn written(alloc: Global, tables: Option<&DmaTables>) -> Result<Option<(usize, bool)>, Fail> {
    let image = spelled(alloc, CHOSEN)?;
    match image_pack::unpack(alloc, &image) {
        Ok(parts) => Ok(Some(written_in(alloc, &parts, tables)?)),
        Err(_) => Ok(None),
    }
}

#[test]
fn lines_of_a_record(rt: HostRuntime) -> Result<(), Fail> {
    let alloc = rt.alloc();
    let file = spelled(alloc, TABLES)?;
    let tables = unpack(alloc, &file).ok();
    agree(&rt, written(alloc, tables.as_ref())?, Some((1, true)));
    agree(&rt, written(alloc, None)?, Some((0, true)));
    Ok(())
}
