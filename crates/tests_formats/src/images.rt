//! Images that are spelled here byte by byte, and what unpacking says of them and of damaged ones.
use crate::agree::agree;
use image_pack::{EventPart, Image, Parts, pack, unpack};
use muen_num::{EventMode, IrqTarget, PortSpan};
use std::alloc::Global;
use std::test::Fail;

mod dma;
mod faults;
mod spelled;

use spelled::{CHOSEN, PLAIN, adler32, spelled};

// What unpacking bytes answers, as a text: `image`, or the fault.
fn answer(alloc: Global, bytes: &[u8]) -> Result<String, Fail> {
    match unpack(alloc, bytes).err() {
        None => Ok(String::from_str(alloc, "image")?),
        Some(fault) => Ok(fault.to_string(alloc)?),
    }
}

fn is_packed_as(alloc: Global, parts: &Parts, bytes: &[u8]) -> Result<bool, Fail> {
    let again = pack(alloc, parts)?;
    Ok(again.as_slice() == bytes)
}

// Whether the bytes are those of an image that is packed as these again.
fn comes_back(alloc: Global, bytes: &[u8]) -> Result<bool, Fail> {
    match unpack(alloc, bytes) {
        Ok(parts) => is_packed_as(alloc, &parts, bytes),
        Err(_) => Ok(false),
    }
}

#[test]
fn there_and_back(rt: HostRuntime) -> Result<(), Fail> {
    let alloc = rt.alloc();
    let bytes = spelled(alloc, PLAIN)?;
    agree(&rt, bytes.len(), 42_576);
    // that of the bytes that `share/spell_image.py` spells of `examples/one_subject.json`
    agree(&rt, adler32(&bytes), 0x8EB4_E317);
    assert!(rt; comes_back(alloc, &bytes)?);
    Ok(())
}

fn event(mode: EventMode, target: u8, vector: Option<u8>) -> Option<EventPart> {
    Some(EventPart {
        mode,
        target,
        vector,
    })
}

fn has_its_calls(image: &Image) -> Option<bool> {
    let subject = image.subjects.items().get(0)?;
    let calls = [
        event(EventMode::Asap, 0, Some(32)),
        event(EventMode::Async, 0, Some(255)),
        event(EventMode::Own, 1, Some(40)),
        event(EventMode::Switch, 0, None),
        event(EventMode::Switch, 1, Some(33)),
        None,
    ];
    Some(subject.calls.items().starts_with(&calls))
}

fn has_its_subjects(image: &Image) -> Option<bool> {
    let subject = image.subjects.items().get(1)?;
    let numbers = (subject.cpu, subject.group, subject.msrs);
    Some(numbers == (1, 1, 64) && subject.name.as_str() == "t.-_9")
}

fn has_its_device(image: &Image) -> Option<bool> {
    let device = image.devices.items().get(0)?;
    let ports = device.ports.items().get(0)?;
    let irq = device.irqs.items().get(0)?;
    let nobody = device.irqs.items().get(1)?;
    let target = IrqTarget {
        subject: 0,
        vector: 43,
    };
    let range = PortSpan {
        start: 768,
        end: 783,
    };
    let has_irqs = irq.target == Some(target) && nobody.target.is_none();
    Some(device.name.as_str() == "card" && *ports == range && irq.name.as_str() == "rx" && has_irqs)
}

// The minor frames of CPU 0 in the first major frame: twice group 0.
fn has_its_frames(image: &Image) -> Option<bool> {
    let major = image.plan.majors.items().get(0)?;
    let minors = major.cpus.items().get(0)?;
    let ticks = [(0u8, 2u32), (0, 3)];
    let mut pairs = minors.items().iter().zip(ticks);
    let as_told = pairs.all(|(minor, frame)| (minor.group, minor.ticks) == frame);
    Some(major.ticks == 5 && minors.len() == 2 && as_told)
}

// The number of tau0, and whether the calls, the subjects, the device and the frames are as spelled.
fn has_its_parts(alloc: Global, bytes: &[u8]) -> (Option<u16>, [Option<bool>; 4]) {
    match unpack(alloc, bytes) {
        Ok(parts) => {
            let image = parts.image();
            let has = [
                has_its_calls(image),
                has_its_subjects(image),
                has_its_device(image),
                has_its_frames(image),
            ];
            (image.header.tau0, has)
        }
        Err(_) => (None, [None; 4]),
    }
}

#[test]
fn parts_of_an_image(rt: HostRuntime) -> Result<(), Fail> {
    let bytes = spelled(rt.alloc(), CHOSEN)?;
    agree(
        &rt,
        has_its_parts(rt.alloc(), &bytes),
        (Some(4), [Some(true); 4]),
    );
    assert!(rt; comes_back(rt.alloc(), &bytes)?);
    Ok(())
}
