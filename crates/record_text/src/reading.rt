//! The device record of a text.
ghost use Rattle.std.specs.Prelude.{◌≡◌, IfOk, nat_lt};
ghost use Rattle.std.specs.List.{list_any};
ghost use Rattle.muen_num.specs.Answers.{Answers};
ghost use Rattle.record_text.specs.Bench.{bench_of};
ghost use Rattle.record_text.specs.Law.{IsRecordOf};
ghost use Rattle.record_text.specs.Made.{IsInOrder, made_with, standing_of};
ghost use Rattle.record_text.specs.Resolving.{resolved};
ghost use Rattle.record_text.specs.Reading.{all_ascii, at_start, entry_at, record_after, record_of};
ghost use Rattle.text_words.specs.Steps.{mapped};
ghost use Rattle.text_words.specs.Parts.{lines_of};

use crate::devices::Devices;
use crate::fault::RecordFault;
use crate::line::read_line;
use crate::made::{Made, nothing, with_line};
use crate::number::LineError;
use crate::record::{Input, Record};
use std::alloc::Global;
use text_words::first_line;

// Whether the line has a byte above 127.
fn has_high_byte(line: &[u8]) -> bool
    ensures { result ≡ list_any (λ c. nat_lt 127 c) line.now }
{
    line.iter().any(|c| *c > 127)
}

// The first line with a byte above 127 is a fault.
#[tactic(auto, using(text_words::proofs::Cuts::no_lines))]
fn check_ascii(bytes: &[u8]) -> Result<(), RecordFault>
    ensures { result ≡ all_ascii 1 (lines_of bytes.now) }
{
    let mut rest = bytes;
    let mut number: u64 = 1;
    while !rest.is_empty() {
        let (line, behind) = first_line(rest);
        if has_high_byte(line) {
            return Err(RecordFault::NotAscii { line: number });
        }
        rest = behind;
        number += 1;
    }
    Ok(())
}

// What was read, with one line more.
#[tactic(auto, unfolding(crate::specs::Reading::entry_at), using(crate::proofs::Lines::lines_made))]
fn add_line(
    alloc: Global,
    devices: &Devices,
    made: Made,
    number: u64,
    text: &[u8],
) -> Result<Made, RecordFault>
    requires { IsInOrder made }
    ensures { Answers RecordFault.NoMemory (mapped (made_with devices.now made) (entry_at (bench_of devices.now) (standing_of made) number text.now)) result }
{
    if made.ended {
        return Err(RecordFault::TooMany { line: number });
    }
    match read_line(alloc, devices, text) {
        Ok(line) => with_line(made, number, line),
        Err(LineError::Want(want)) => Err(RecordFault::Line { line: number, want }),
        Err(LineError::NoMemory) => Err(RecordFault::NoMemory),
    }
}

// All that the lines say.
fn read_lines(alloc: Global, bytes: &[u8], devices: &Devices) -> Result<Record<Input>, RecordFault>
    ensures { Answers RecordFault.NoMemory (mapped (resolved devices.now) (record_after (bench_of devices.now) at_start 1 (lines_of bytes.now))) result }
{
    let mut made = nothing(alloc);
    let mut rest = bytes;
    let mut number: u64 = 1;
    while !rest.is_empty() {
        let (line, behind) = first_line(rest);
        made = add_line(alloc, devices, made, number, line)?;
        rest = behind;
        number += 1;
    }
    let Made {
        tick,
        ended,
        inputs,
        orders,
    } = made;
    if !ended {
        return Err(RecordFault::NoEnd { line: number });
    }
    Ok(Record {
        end: tick,
        inputs,
        orders,
    })
}

// The record, or its first fault.
#[tactic(auto, unfolding(crate::specs::Reading::record_of))]
fn read_text(alloc: Global, bytes: &[u8], devices: &Devices) -> Result<Record<Input>, RecordFault>
    ensures { Answers RecordFault.NoMemory (mapped (resolved devices.now) (record_of bytes.now (bench_of devices.now))) result }
{
    check_ascii(bytes)?;
    read_lines(alloc, bytes, devices)
}

/// The device record that a text is, or its first fault. `devices` says what it may name, and where
/// each input goes. `NoMemory` comes only where memory was refused, and then in place of any answer.
/// The time is linear in the number of bytes.
#[tactic(auto, using(crate::proofs::Lawful::lawful))]
pub fn read(alloc: Global, bytes: &[u8], devices: &Devices) -> Result<Record<Input>, RecordFault>
    ensures exact { Answers RecordFault.NoMemory (mapped (resolved devices.now) (record_of bytes.now (bench_of devices.now))) result }
    ensures lawful { IfOk result (IsRecordOf devices.now) }
{
    read_text(alloc, bytes, devices)
}
