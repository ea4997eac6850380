//! Three subjects in two groups.
use crate::agree::agree;
use event_router::Router;
use image_pack::{EventPart, GroupPart, SubjectPart};
use muen_num::{EventMode, Name, Seq};
use std::alloc::Global;
use std::test::Fail;

fn subject(alloc: Global, group: u8) -> Result<SubjectPart, Fail> {
    let Some(name) = Name::read(b"one") else {
        return Err(Fail::new("no name"));
    };
    Ok(SubjectPart {
        cpu: 0,
        group,
        msrs: 0,
        state: 0,
        iobm: 0,
        msrbm: 0,
        area: 0,
        eptp: 0,
        name,
        calls: Seq::new(alloc),
        traps: Seq::new(alloc),
    })
}

/// The subjects 0 and 2 in group 0, and 1 in group 1.
fn router(alloc: Global) -> Result<Router, Fail> {
    let subjects = [subject(alloc, 0)?, subject(alloc, 1)?, subject(alloc, 0)?];
    let groups = [
        GroupPart { cpu: 0, first: 0 },
        GroupPart { cpu: 0, first: 1 },
    ];
    Ok(Router::start(alloc, &subjects, &groups)?)
}

fn event(mode: EventMode, target: u8, vector: Option<u8>) -> EventPart {
    EventPart {
        mode,
        target,
        vector,
    }
}

#[test]
fn greatest_vector_first(rt: HostRuntime) -> Result<(), Fail> {
    let mut router = router(rt.alloc())?;
    router.raise_irq(1, 40);
    router.raise(&event(EventMode::Own, 1, Some(200)));
    router.raise(&event(EventMode::Async, 1, Some(255)));
    agree(&rt, router.deliver(1, false), Some(200));
    agree(&rt, router.deliver(1, true), Some(255));
    agree(&rt, router.deliver(1, true), Some(40));
    agree(&rt, router.deliver(1, true), None);
    agree(&rt, router.deliver(9, true), None);
    Ok(())
}

#[test]
fn handovers(rt: HostRuntime) -> Result<(), Fail> {
    let mut router = router(rt.alloc())?;
    router.raise(&event(EventMode::Switch, 2, None));
    agree(
        &rt,
        (router.active(0), router.active(1), router.active(2)),
        (Some(2), Some(1), None),
    );
    router.raise(&event(EventMode::Switch, 0, Some(33)));
    agree(&rt, router.active(0), Some(0));
    agree(&rt, router.deliver(0, false), Some(33));
    router.raise(&event(EventMode::Asap, 2, Some(40)));
    agree(&rt, router.deliver(2, false), Some(40));
    agree(&rt, router.active(0), Some(0));
    Ok(())
}
