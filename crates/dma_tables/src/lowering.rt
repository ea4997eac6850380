//! A record as it reaches a machine: with writes of memory in place of its lines of direct memory
//! access.
ghost use Rattle.std.specs.Prelude.{◌≡◌, ◌++◌, ◌∷◌, [], ℕ, IfOk, List, OnOk, Option, Some, map, option_map, unwrap_or};
ghost use Rattle.std.specs.List.{flat_map};
ghost use Rattle.image_pack.specs.Parts.{IsParts};
ghost use Rattle.image_pack.specs.declared.parts.Image.{Image};
ghost use Rattle.device_bench.specs.Devices.{CanRun};
ghost use Rattle.device_bench.specs.declared.effect.Effect.{Effect};
ghost use Rattle.record_text.specs.Law.{IsOrderly, IsRecordOf};
ghost use Rattle.record_text.specs.declared.devices.Devices.{Devices};
ghost use Rattle.record_text.specs.declared.record.Input.{Input};
ghost use Rattle.record_text.specs.declared.record.Record.{Record};
ghost use Rattle.dma_tables.specs.LineWrites.{AreByPages, WritesBytes, one_write, two_writes};
ghost use Rattle.dma_tables.specs.Lowered.{goes, in_tick, is_in_spans, is_line, line_writes, lowered, lowered_at};
ghost use Rattle.dma_tables.specs.LoweredRecord.{HaveMemoriesIn, IsRecordIn};
ghost use Rattle.dma_tables.specs.declared.file.DmaFile.{DmaFile};

use crate::tables::DmaTables;
use device_bench::Effect;
use image_pack::{Image, Parts, SpanPart};
use muen_num::limits::{GUEST_END, PAGE};
use muen_num::{NoMemory, Seq};
use record_text::{INPUT_MOST, Input, Record, TickInput};
use std::alloc::Global;

// Whether one of the spans has the byte of this address.
fn is_in_spans(spans: &[SpanPart], place: u64) -> bool
    ensures { result ≡ is_in_spans spans.now place }
{
    spans.iter().any(|span| span.address <= place
        && (place - span.address) / PAGE < u64::from(span.pages))
}

// Where a write of a device goes by an address.
#[tactic(auto, unfolding(crate::specs::Lowered::goes))]
fn goes(tables: Option<&DmaTables>, image: &Image, device: u8, addr: u64) -> Option<u64>
    ensures { result ≡ goes (option_map (λ t. t.now) tables.entry) image.now device addr }
{
    let tables = tables?;
    let device = image.devices.items().get(device as usize)?;
    let place = tables.walk(&device.name, addr, true)?;
    if is_in_spans(image.spans.items(), place) {
        Some(place)
    } else {
        None
    }
}

// A write of these bytes from an address on.
fn write_at(alloc: Global, at: u64, bytes: &[u8]) -> Result<Effect, NoMemory>
    ensures { IfOk result (λ w. w ≡ Effect.Mem at bytes.now) }
{
    Ok(Effect::Mem {
        at,
        bytes: Seq::of(Vec::from_slice(alloc, bytes)?),
    })
}

// The write of a line in one page, if it goes somewhere.
fn one_write(alloc: Global, at: Option<u64>, bytes: &[u8]) -> Result<Vec<Effect>, NoMemory>
    ensures { IfOk result (λ v. v.items ≡ one_write at bytes.now) }
{
    let mut writes = Vec::new(alloc);
    if let Some(at) = at {
        writes.push(write_at(alloc, at, bytes)?)?;
    }
    Ok(writes)
}

// The writes of a line in two pages, if both go somewhere.
fn two_writes(
    alloc: Global,
    at: Option<u64>,
    front: &[u8],
    next: Option<u64>,
    back: &[u8],
) -> Result<Vec<Effect>, NoMemory>
    ensures { IfOk result (λ v. v.items ≡ two_writes at front.now next back.now) }
{
    let mut writes = Vec::new(alloc);
    if let Some(at) = at {
        if let Some(next) = next {
            writes.push(write_at(alloc, at, front)?)?;
            writes.push(write_at(alloc, next, back)?)?;
        }
    }
    Ok(writes)
}

// Whether a line of a record may have these bytes.
fn is_line(bytes: &[u8]) -> bool
    ensures { result ≡ is_line bytes.now }
{
    !bytes.is_empty() && bytes.len() <= INPUT_MOST
}

// The writes of a line, none where it is dropped.
fn line_writes(
    alloc: Global,
    tables: Option<&DmaTables>,
    image: &Image,
    device: u8,
    addr: u64,
    bytes: &[u8],
) -> Result<Vec<Effect>, NoMemory>
    requires { IsParts image.now }
    ensures { IfOk result (λ v. v.items ≡ unwrap_or (line_writes (goes (option_map (λ t. t.now) tables.entry) image.now device) addr bytes.now) []) }
{
    if !is_line(bytes) {
        return Ok(Vec::new(alloc));
    }
    if addr >= GUEST_END {
        return Ok(Vec::new(alloc));
    }
    let left = (PAGE - addr % PAGE) as usize;
    let at = goes(tables, image, device, addr);
    if bytes.len() <= left {
        return one_write(alloc, at, bytes);
    }
    let (front, back) = bytes.split_at(left);
    let next = goes(tables, image, device, addr + left as u64);
    two_writes(alloc, at, front, next, back)
}

// Appends an effect in this tick.
fn add(effects: &mut Vec<TickInput<Effect>>, tick: u32, effect: Effect) -> Result<(), NoMemory>
    ensures { OnOk result (effects.new.items ≡ effects.old.items ++ in_tick tick effect ∷ []) }
{
    effects.push(TickInput {
        tick,
        input: effect,
    })?;
    Ok(())
}

// Appends these effects, all in this tick.
fn add_all(
    effects: &mut Vec<TickInput<Effect>>,
    tick: u32,
    added: Vec<Effect>,
) -> Result<(), NoMemory>
    ensures { OnOk result (effects.new.items ≡ effects.old.items ++ map (in_tick tick) added.items) }
{
    for effect in added {
        add(effects, tick, effect)?;
    }
    Ok(())
}

// Appends what of an input reaches the machine.
fn add_lowered(
    alloc: Global,
    tables: Option<&DmaTables>,
    image: &Image,
    effects: &mut Vec<TickInput<Effect>>,
    entry: TickInput<Input>,
) -> Result<(), NoMemory>
    requires { IsParts image.now }
    ensures { OnOk result (effects.new.items ≡ effects.old.items ++ lowered_at (option_map (λ t. t.now) tables.entry) image.now entry) }
{
    let TickInput { tick, input } = entry;
    match input {
        Input::Port { port, value } => add(effects, tick, Effect::Port { port, value }),
        Input::Mem { at, bytes } => add(effects, tick, Effect::Mem { at, bytes }),
        Input::Irq { subject, vector } => add(effects, tick, Effect::Irq { subject, vector }),
        Input::Idle => Ok(()),
        Input::Dma {
            device,
            addr,
            bytes,
        } => {
            let writes = line_writes(alloc, tables, image, device, addr, bytes.items())?;
            add_all(effects, tick, writes)
        }
    }
}

// What of the inputs reaches the machine, in their order.
fn lowered_inputs(
    alloc: Global,
    tables: Option<&DmaTables>,
    image: &Image,
    entries: Vec<TickInput<Input>>,
) -> Result<Vec<TickInput<Effect>>, NoMemory>
    requires { IsParts image.now }
    ensures { IfOk result (λ v. v.items ≡ flat_map (lowered_at (option_map (λ t. t.now) tables.entry) image.now) entries.items) }
{
    let mut effects = Vec::new(alloc);
    for entry in entries {
        add_lowered(alloc, tables, image, &mut effects, entry)?;
    }
    Ok(effects)
}

// The record as it reaches the machine.
#[tactic(auto, unfolding(crate::specs::Lowered::lowered))]
fn lowered_record(
    alloc: Global,
    given: Record<Input>,
    image: &Image,
    tables: Option<&DmaTables>,
) -> Result<Record<Effect>, NoMemory>
    requires { IsParts image.now }
    ensures { IfOk result (λ r. r ≡ lowered (option_map (λ t. t.now) tables.entry) image.now given) }
{
    let Record {
        end,
        inputs,
        orders,
    } = given;
    let effects = lowered_inputs(alloc, tables, image, inputs.into_vec())?;
    Ok(Record {
        end,
        inputs: Seq::of(effects),
        orders,
    })
}

/// The record as it reaches the machine of an image, with writes of memory in place of its lines of
/// direct memory access. A line becomes a write for each page that it touches, in their order, where it
/// has 1 to 64 bytes and the tables let its device write each of them into the spans of the image;
/// otherwise, and without tables, it is dropped. So is an interrupt that nobody has; all else stays. A
/// device is found in the tables by its name.
///
/// # Errors
/// Memory is refused.
pub fn lower(
    alloc: Global,
    given: Record<Input>,
    parts: &Parts,
    tables: Option<&DmaTables>,
) -> Result<Record<Effect>, NoMemory>
    // Which record it is.
    ensures exact { IfOk result (λ r. r ≡ lowered (option_map (λ t. t.now) tables.entry) parts.now given) }
    // A machine can run it, where the record's ticks are in order and no write of it ends too high.
    ensures can_run { IsOrderly given → IfOk result CanRun }
    // A record of devices whose memories lie in the spans is one of the same devices, whose writes lie there.
    ensures record_in { (devices : Devices) → IsRecordOf devices given → HaveMemoriesIn parts.now.spans devices → IfOk result (λ r. IsRecordIn devices parts.now.spans r) }
{
    lowered_record(alloc, given, parts.image(), tables)
}

/// What records are that reach a machine.
pub fn lowered_records()
    // A record of the same devices, whose writes lie in the spans.
    ensures records { (t : Option DmaFile) (i : Image) (devices : Devices) (r : Record Input) → IsParts i → HaveMemoriesIn i.spans devices → IsRecordOf devices r → IsRecordIn devices i.spans (lowered t i r) }
    // The ticks stay in order, and no write goes past what addresses have room for.
    ensures can_run { (t : Option DmaFile) (i : Image) (r : Record Input) → IsParts i → IsOrderly r → CanRun (lowered t i r) }
    // Each byte of a line is written where the tables lead, and no other byte is.
    ensures each_byte { (t : Option DmaFile) (i : Image) (device addr : ℕ) (bytes : List ℕ) (writes : List Effect) → IsParts i → WritesBytes (goes t i device) addr bytes writes }
    // There is a write for each page that a line touches, and each stays in one page.
    ensures each_page { (t : Option DmaFile) (i : Image) (device addr : ℕ) (bytes : List ℕ) (writes : List Effect) → IsParts i → AreByPages (goes t i device) addr bytes writes }
{}
