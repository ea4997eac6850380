//! Two CPUs over three rounds of a plan, against slots that were worked out by hand.
use crate::agree::{agree, agree_at};
use frame_clock::{FrameAt, FrameSlot, GroupPart, Major, Minor, Plan, advance, slot};
use muen_num::Seq;
use std::alloc::{AllocError, Global};
use std::test::Fail;

fn frame(group: u8, ticks: u32) -> Minor {
    Minor { group, ticks }
}

fn group(cpu: u8) -> GroupPart {
    GroupPart { cpu, first: 0 }
}

fn frames(alloc: Global, minors: &[Minor]) -> Result<Seq<Minor>, AllocError> {
    Ok(Seq::of(minors.to_vec(alloc)?))
}

// A major frame of two CPUs.
fn major(alloc: Global, ticks: u32, zero: &[Minor], one: &[Minor]) -> Result<Major, AllocError> {
    let zero = frames(alloc, zero)?;
    let one = frames(alloc, one)?;
    let cpus = Seq::of(vec![in alloc; zero, one]?);
    Ok(Major { ticks, cpus })
}

// Two major frames, of 3 and 2 ticks, over two CPUs with two groups each.
fn plan(alloc: Global) -> Result<Plan, AllocError> {
    let groups = vec![in alloc; group(0), group(0), group(1), group(1)]?;
    let first = major(
        alloc,
        3,
        &[frame(0, 1), frame(1, 2)],
        &[frame(3, 2), frame(2, 1)],
    )?;
    let second = major(alloc, 2, &[frame(1, 2)], &[frame(2, 1), frame(3, 1)])?;
    let majors = vec![in alloc; first, second]?;
    Ok(Plan {
        groups: Seq::of(groups),
        majors: Seq::of(majors),
    })
}

fn frame_slot(major: usize, group: u8, first: bool, remaining: u32) -> FrameSlot {
    FrameSlot {
        major,
        group,
        first,
        remaining,
    }
}

// The slots of CPU 0 and CPU 1 at a tick: the five of a round, over and over.
fn slots_at(tick: usize) -> (FrameSlot, FrameSlot) {
    let round = [
        (frame_slot(0, 0, true, 1), frame_slot(0, 3, true, 2)),
        (frame_slot(0, 1, true, 2), frame_slot(0, 3, false, 1)),
        (frame_slot(0, 1, false, 1), frame_slot(0, 2, true, 1)),
        (frame_slot(1, 1, true, 2), frame_slot(1, 2, true, 1)),
        (frame_slot(1, 1, false, 1), frame_slot(1, 3, true, 1)),
    ];
    round[tick % 5]
}

#[test]
fn the_frames_begin_anew(rt: HostRuntime) -> Result<(), Fail> {
    let plan = plan(rt.alloc())?;
    let mut at = FrameAt::first();
    for tick in 0usize..13 {
        at = advance(&plan, at, None, tick as u32);
        let (zero, one) = slots_at(tick);
        let found = (
            slot(&plan, at, 0, tick as u32),
            slot(&plan, at, 1, tick as u32),
        );
        agree_at(&rt, found, (Some(zero), Some(one)), tick);
    }
    Ok(())
}

#[test]
fn frames_picked(rt: HostRuntime) -> Result<(), Fail> {
    let plan = plan(rt.alloc())?;
    let first = FrameAt::first();
    // within a major frame nothing is picked
    agree(&rt, advance(&plan, first, Some(1), 2), first);
    let start = 3;
    let cases = [
        (Some(0u8), 0usize),
        (Some(1), 1),
        (Some(2), 0),
        (Some(255), 0),
        (None, 1),
    ];
    for (pick, major) in cases {
        agree(
            &rt,
            advance(&plan, first, pick, 3),
            FrameAt { major, start },
        );
    }
    let last = FrameAt { major: 1, start: 3 };
    let again = FrameAt { major: 1, start: 5 };
    agree(
        &rt,
        advance(&plan, last, None, 5),
        FrameAt { major: 0, start: 5 },
    );
    agree(&rt, advance(&plan, last, Some(9), 5), again);
    // no such CPU, no such tick of the major frame
    agree(&rt, slot(&plan, first, 2, 0), None);
    agree(&rt, slot(&plan, first, 0, 3), None);
    Ok(())
}
