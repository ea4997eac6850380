//! Systems of images that are made ready, stepped and driven.
ghost use Rattle.std.specs.Prelude.{◌≡◌, IfOk};

use crate::agree::agree;
use crate::systems::ONE;
use muen_run::{Ready, Record, Seq, drive, ready, unpack};
use std::alloc::Global;
use std::test::Fail;
use tests_support::{MemSink, files, image_of, printed, text_of};

// The system of an image, ready to run for three ticks in which nothing reaches it.
fn system(alloc: Global, image: &[u8]) -> Result<Ready, Fail>
    ensures { IfOk result (λ r. r.kernel.tick ≡ 0) }
{
    let Ok(parts) = unpack(alloc, image) else {
        return Err(Fail::new("no image"));
    };
    let nothing = Record {
        end: 3,
        inputs: Seq::new(alloc),
        orders: Seq::new(alloc),
    };
    match ready(alloc, parts, nothing) {
        Ok(system) => Ok(system),
        Err(_) => Err(Fail::new("no memory")),
    }
}

// The first turn of a system; whether its walk then holds the translation of the first fetch, and of an
// address behind it.
fn held_after_a_turn(system: Ready) -> (bool, bool) {
    let Ready { kernel, .. } = system;
    let mut kernel = kernel;
    kernel.begin_tick();
    kernel.turn(0);
    let walk = kernel.walker();
    (
        walk.holds(0x10_001e, 0x40_0000),
        walk.holds(0x10_001e, 0x40_1000),
    )
}

// A system that is made ready keeps translations.
#[test]
fn ready_is_cached(rt: HostRuntime) -> Result<(), Fail> {
    let alloc = rt.alloc();
    let image = image_of(alloc, ONE)?;
    let system = system(alloc, image.as_slice())?;
    agree(&rt, held_after_a_turn(system), (true, false));
    Ok(())
}

// What driving the system of an image puts.
fn put(alloc: Global, image: &[u8]) -> Result<String, Fail> {
    let mut out = MemSink::make(alloc, 10_000, Vec::new(alloc), 0)?;
    match drive(system(alloc, image)?, &mut out) {
        Ok(_) => text_of(alloc, out.text()),
        Err(_) => Err(Fail::new("not driven")),
    }
}

// What driving it puts is what `run` prints.
#[test]
fn driven(rt: HostRuntime) -> Result<(), Fail> {
    let alloc = rt.alloc();
    let image = image_of(alloc, ONE)?;
    let list = [("i", image.as_slice()), ("r", "end 3\n".as_bytes())];
    let printed = printed(alloc, "run i r", &mut files(alloc, &list, "")?)?;
    agree(
        &rt,
        put(alloc, image.as_slice())?.as_str(),
        printed.as_str(),
    );
    assert!(rt; printed.starts_with("0 0 one 0000000000400000 r1=0000000000000005\n"));
    Ok(())
}
