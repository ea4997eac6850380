//! Reads major frames.
#![tactic(auto, unfolding(binary_form::specs::Form::only, binary_form::specs::Form::field, binary_form::specs::Form::gap, binary_form::specs::Form::done))]

ghost use Rattle.std.specs.Prelude.{◌≡◌};
ghost use Rattle.binary_form.specs.Form.{Form, items};
ghost use Rattle.image_pack.specs.Image.{is_between_inclusive, is_ticks, add_ticks, minor_frame_form, frames, next_cpu, major, nothing_left};

use crate::items::{Item, items_of};
use crate::outline::Outline;
use crate::reading::header::is_between;
use crate::reading::subjects::is_group_on;
use crate::writing::{put_frames, put_major, put_minor};
use binary_form::reading::{bad, byte_of, gap_of, u16_of, u32_of};
use binary_form::{Field, FormError};
use frame_clock::{Major, Minor};
use muen_num::Seq;
use muen_num::limits::{MOST_MINOR_FRAMES, MOST_TICKS};
use std::alloc::{AllocError, Global};

/// A CPU whose minor frames come next, and how many ticks they are to have in all.
#[derive(Clone, Copy, Debug)]
pub struct CpuTicks {
    pub cpu: u8,
    pub total: u32,
}

/// What the minor frames of a CPU before one leave: how many ticks all are to have, how many those
/// before have, and how many frames are still to come.
#[derive(Clone, Copy, Debug)]
pub struct FramesBefore {
    pub cpu: u8,
    pub total: u32,
    pub sum: u32,
    pub left: u16,
}

fn is_ticks(before: &FramesBefore, ticks: u32) -> bool
    ensures { result ≡ is_ticks before.now ticks }
{
    0 < ticks
        && (before.left != 1 || u64::from(before.sum) + u64::from(ticks) == u64::from(before.total))
}

impl Item for Minor {
    ghost use Rattle.image_pack.specs.Image.{minor_frame_form, add_ticks};

    type Among = Outline;

    type Before = FramesBefore;

    ghost next = { add_ticks };

    ghost form = { minor_frame_form };

    #[tactic(auto, unfolding(binary_form::specs::Form::only, binary_form::specs::Form::field, binary_form::specs::Form::gap, binary_form::specs::Form::done, crate::specs::Image::minor_frame_form))]
    fn read<'a>(
        alloc: Global,
        among: &Outline,
        before: &mut FramesBefore,
        bytes: &'a [u8],
    ) -> Result<(Minor, &'a [u8]), FormError> {
        let (group, rest) = byte_of(bytes)?;
        if !is_group_on(among.groups.items(), before.cpu, group) {
            return Err(bad(bytes, Field::Group));
        }
        let at = gap_of(rest, 3, Field::Zero)?;
        let (ticks, rest) = u32_of(at)?;
        if !is_ticks(before, ticks) {
            return Err(bad(at, Field::Ticks));
        }
        before.sum = before.sum.saturating_add(ticks);
        before.left = before.left.saturating_sub(1);
        Ok((Minor { group, ticks }, rest))
    }

    fn put(&self, out: &mut Vec<u8>) -> Result<(), AllocError> {
        put_minor(out, self)
    }
}

impl Item for Seq<Minor> {
    ghost use Rattle.image_pack.specs.Image.{frames, next_cpu};

    type Among = Outline;

    type Before = CpuTicks;

    ghost next = { next_cpu };

    ghost form = { frames };

    #[tactic(auto, unfolding(binary_form::specs::Form::only, binary_form::specs::Form::field, binary_form::specs::Form::gap, crate::specs::Image::frames))]
    fn read<'a>(
        alloc: Global,
        among: &Outline,
        before: &mut CpuTicks,
        bytes: &'a [u8],
    ) -> Result<(Seq<Minor>, &'a [u8]), FormError> {
        let (count, rest) = u16_of(bytes)?;
        if !is_between(1, MOST_MINOR_FRAMES as u64, u64::from(count)) {
            return Err(bad(bytes, Field::Count));
        }
        let rest = gap_of(rest, 2, Field::Zero)?;
        let first = FramesBefore {
            cpu: before.cpu,
            total: before.total,
            sum: 0,
            left: count,
        };
        let (frames, rest) = items_of::<Minor>(alloc, among, first, count as usize, rest)?;
        before.cpu = before.cpu.saturating_add(1);
        Ok((frames, rest))
    }

    fn put(&self, out: &mut Vec<u8>) -> Result<(), AllocError> {
        put_frames(out, self)
    }
}

impl Item for Major {
    ghost use Rattle.image_pack.specs.Image.{major, nothing_left};

    type Among = Outline;

    type Before = u8;

    ghost next = { nothing_left };

    ghost form = { major };

    #[tactic(auto, unfolding(binary_form::specs::Form::only, binary_form::specs::Form::field, binary_form::specs::Form::done, crate::specs::Image::major))]
    fn read<'a>(
        alloc: Global,
        among: &Outline,
        before: &mut u8,
        bytes: &'a [u8],
    ) -> Result<(Major, &'a [u8]), FormError> {
        let (ticks, rest) = u32_of(bytes)?;
        if !is_between(1, MOST_TICKS, u64::from(ticks)) {
            return Err(bad(bytes, Field::Ticks));
        }
        let first = CpuTicks {
            cpu: 0,
            total: ticks,
        };
        let cpus = among.header.cpus as usize;
        let (cpus, rest) = items_of::<Seq<Minor>>(alloc, among, first, cpus, rest)?;
        Ok((Major { ticks, cpus }, rest))
    }

    fn put(&self, out: &mut Vec<u8>) -> Result<(), AllocError> {
        put_major(out, self)
    }
}
