//! The device record that bytes are for an image.
ghost use Rattle.std.specs.Prelude.{IfOk};
ghost use Rattle.image_load.specs.Resolving.{image_bench, image_record};
ghost use Rattle.muen_num.specs.Answers.{Answers};
ghost use Rattle.record_text.specs.Law.{IsOrderly};
ghost use Rattle.record_text.specs.Reading.{record_of};
ghost use Rattle.record_text.specs.Steps.{mapped};

use crate::record_devices::devices_of;
use image_pack::Parts;
use record_text::{Input, Record, RecordFault, read};
use std::alloc::Global;

/// The record that the bytes are for this image.
///
/// # Errors
/// The first fault of the bytes; memory is refused.
pub fn read_record(alloc: Global, parts: &Parts, bytes: &[u8]) -> Result<Record<Input>, RecordFault>
    // It is the record that the text is, by the image's addresses and numbers, or its first fault.
    ensures exact { Answers RecordFault.NoMemory (mapped (image_record parts.now) (record_of bytes.now (image_bench parts.now))) result }
    // Its ticks are in order, and no write of it ends too high for a machine.
    ensures orderly { IfOk result IsOrderly }
{
    let devices = devices_of(alloc, parts.image())?;
    read(alloc, bytes, &devices)
}
