//! Major frames: the minor frames of each CPU, by the CPU's number.
ghost use Rattle.std.specs.Prelude.{◌≡◌, ◌==◌, true, map, option_map, IfOk};
ghost use Rattle.std.specs.List.{find, list_all};
ghost use Rattle.muen_num.specs.Range.{numbers_below};
ghost use Rattle.plan_emit.specs.Emitted.{minor_part, cpu_part, first_ticks, major_part, fits_minor, fits_entry, fits_major};

use frame_clock::{Major, Minor};
use muen_num::{NoMemory, Seq};
use policy_lawful::resolved::{CpuFrames, MajorFrame, MinorFrame};
use std::alloc::Global;

fn minor_part(frame: &MinorFrame) -> Minor
    requires { fits_minor frame.now ≡ true }
    ensures { result ≡ minor_part frame.now }
{
    Minor {
        group: frame.group as u8,
        ticks: frame.ticks as u32,
    }
}

fn minor_parts(alloc: Global, frames: &[MinorFrame]) -> Result<Seq<Minor>, NoMemory>
    requires { list_all fits_minor frames.now ≡ true }
    ensures { IfOk result (λ parts. parts ≡ map minor_part frames.now) }
{
    let mut parts = Seq::new(alloc);
    for frame in frames {
        parts.push(minor_part(frame))?;
    }
    Ok(parts)
}

// The entry that names a CPU.
fn entry_of(entries: &[CpuFrames], cpu: u64) -> Option<&CpuFrames>
    ensures { option_map (λ e. e.now) result ≡ find (λ e. e.cpu == cpu) entries.now }
{
    entries.iter().find(|entry| entry.cpu == cpu)
}

// The minor frames of the entry that names a CPU.
fn cpu_part(alloc: Global, entries: &[CpuFrames], cpu: u64) -> Result<Seq<Minor>, NoMemory>
    requires { list_all fits_entry entries.now ≡ true }
    ensures { IfOk result (λ parts. parts ≡ cpu_part entries.now cpu) }
{
    match entry_of(entries, cpu) {
        None => Ok(Seq::new(alloc)),
        Some(entry) => minor_parts(alloc, entry.minor_frames.items()),
    }
}

// The minor frames of each CPU, from 0 on.
fn cpu_parts(alloc: Global, entries: &[CpuFrames], count: u64) -> Result<Seq<Seq<Minor>>, NoMemory>
    requires { list_all fits_entry entries.now ≡ true }
    ensures { IfOk result (λ parts. parts ≡ map (cpu_part entries.now) (numbers_below count)) }
{
    let mut parts = Seq::new(alloc);
    for cpu in 0..count {
        parts.push(cpu_part(alloc, entries, cpu)?)?;
    }
    Ok(parts)
}

// The ticks of the first entry. The others have as many.
fn first_ticks(entries: &[CpuFrames]) -> u32
    requires { list_all fits_entry entries.now ≡ true }
    ensures { result ≡ first_ticks entries.now }
{
    match entries.first() {
        None => 0,
        Some(entry) => entry.ticks() as u32,
    }
}

fn major_part(alloc: Global, count: u64, frame: &MajorFrame) -> Result<Major, NoMemory>
    requires { fits_major frame.now ≡ true }
    ensures { IfOk result (λ part. part ≡ major_part count frame.now) }
{
    let entries = frame.cpus.items();
    Ok(Major {
        ticks: first_ticks(entries),
        cpus: cpu_parts(alloc, entries, count)?,
    })
}

/// The major frames for so many CPUs, in order.
pub(crate) fn major_parts(
    alloc: Global,
    count: u64,
    frames: &[MajorFrame],
) -> Result<Seq<Major>, NoMemory>
    requires { list_all fits_major frames.now ≡ true }
    ensures { IfOk result (λ parts. parts ≡ map (major_part count) frames.now) }
{
    let mut parts = Seq::new(alloc);
    for frame in frames {
        parts.push(major_part(alloc, count, frame)?)?;
    }
    Ok(parts)
}
