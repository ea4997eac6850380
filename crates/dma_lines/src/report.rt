//! What the lines of a record did.
ghost use Rattle.std.specs.Prelude.{◌≡◌, [], option_map};
ghost use Rattle.std.specs.List.{flat_map, slice_get};
ghost use Rattle.muen_outside.specs.Prints.{Prints};
ghost use Rattle.muen_outside.specs.Puts.{Puts};
ghost use Rattle.image_pack.specs.Parts.{IsParts};
ghost use Rattle.dma_tables.specs.Lowered.{is_line};
ghost use Rattle.dma_lines.specs.LinesText.{bytes_text, input_text, line_outcome, line_text, lines_text, lost_text, span_with};

use crate::loss::Loss;
use crate::steps::comes;
use crate::texts::{HeadText, LostText, PieceText};
use dma_tables::DmaTables;
use image_pack::{Image, Parts, SpanPart};
use muen_num::Name;
use muen_num::limits::PAGE;
use muen_outside::{Buffer, BufferedSink, Sink, SinkFault};
use record_text::{INPUT_MOST, Input, Record, TickInput};

// The span that has the byte of this address.
fn span_with(spans: &[SpanPart], place: u64) -> Option<&SpanPart>
    ensures { option_map (λ s. s.now) result ≡ span_with spans.now place }
{
    spans.iter().find(|span| span.address <= place
        && (place - span.address) / PAGE < u64::from(span.pages))
}

// So many bytes from an address on, if it lies in a span.
#[tactic(auto, using(muen_outside::proofs::Buffered::gives))]
fn put_bytes<S: Sink>(
    image: &Image,
    at: u64,
    count: usize,
    out: &mut BufferedSink<'_, S>,
) -> Result<(), SinkFault>
    ensures { Prints S.state (bytes_text image.now.spans at count) out.old out.new result }
{
    let Some(span) = span_with(image.spans.items(), at) else {
        return Ok(());
    };
    let piece = PieceText {
        at,
        count: count as u64,
        region: span.tag,
    };
    out.put_line(&piece)
}

// Why nothing is written for an address.
fn put_lost<S: Sink>(at: u64, why: Loss, out: &mut BufferedSink<'_, S>) -> Result<(), SinkFault>
    ensures { Prints S.state (lost_text at why) out.old out.new result }
{
    let lost = LostText { at, why };
    out.put_line(&lost)
}

// Whether a line of a record may have these bytes.
fn is_line(bytes: &[u8]) -> bool
    ensures { result ≡ is_line bytes.now }
{
    !bytes.is_empty() && bytes.len() <= INPUT_MOST
}

// What a line did.
#[tactic(auto, using(muen_outside::proofs::Buffered::gives))]
fn put_outcome<S: Sink>(
    tables: Option<&DmaTables>,
    image: &Image,
    device: u8,
    addr: u64,
    bytes: &[u8],
    out: &mut BufferedSink<'_, S>,
) -> Result<(), SinkFault>
    requires { IsParts image.now }
    ensures { Prints S.state (line_outcome (option_map (λ t. t.now) tables.entry) image.now device addr bytes.now) out.old out.new result }
{
    if !is_line(bytes) {
        return put_lost(addr, Loss::NoLine, out);
    }
    let at = match comes(tables, image, device, addr) {
        Ok(at) => at,
        Err(why) => return put_lost(addr, why, out),
    };
    let left = (PAGE - addr % PAGE) as usize;
    if bytes.len() <= left {
        return put_bytes(image, at, bytes.len(), out);
    }
    let next = addr + left as u64;
    let to = match comes(tables, image, device, next) {
        Ok(to) => to,
        Err(why) => return put_lost(next, why, out),
    };
    put_bytes(image, at, left, out)?;
    put_bytes(image, to, bytes.len() - left, out)
}

// The name of the device with this number.
fn device_name(image: &Image, device: u8) -> Option<Name>
    ensures { result ≡ option_map (λ d. d.name) (slice_get image.now.devices device) }
{
    let part = image.devices.items().get(device as usize)?;
    Some(part.name)
}

// A line.
#[tactic(auto, using(muen_outside::proofs::Buffered::gives))]
fn put_dma<S: Sink>(
    tables: Option<&DmaTables>,
    image: &Image,
    tick: u32,
    device: u8,
    addr: u64,
    bytes: &[u8],
    out: &mut BufferedSink<'_, S>,
) -> Result<(), SinkFault>
    requires { IsParts image.now }
    ensures { Prints S.state (line_text (option_map (λ t. t.now) tables.entry) image.now tick device addr bytes.now) out.old out.new result }
{
    let head = HeadText {
        tick,
        device: device_name(image, device),
        addr,
        count: bytes.len() as u64,
    };
    out.put_line(&head)?;
    put_outcome(tables, image, device, addr, bytes, out)?;
    out.put(b"\n")
}

// An input, if it is a line of direct memory access.
#[tactic(auto, using(muen_outside::proofs::Buffered::gives))]
fn put_input<S: Sink>(
    tables: Option<&DmaTables>,
    image: &Image,
    entry: &TickInput<Input>,
    out: &mut BufferedSink<'_, S>,
) -> Result<(), SinkFault>
    requires { IsParts image.now }
    ensures { Prints S.state (input_text (option_map (λ t. t.now) tables.entry) image.now entry.now.tick entry.now.input) out.old out.new result }
{
    match &entry.input {
        Input::Dma {
            device,
            addr,
            bytes,
        } => put_dma(
            tables,
            image,
            entry.tick,
            *device,
            *addr,
            bytes.items(),
            out,
        ),
        Input::Port { .. } | Input::Mem { .. } | Input::Irq { .. } | Input::Idle => Ok(()),
    }
}

// The lines among the inputs.
#[tactic(auto, using(muen_outside::proofs::Buffered::items))]
fn put_inputs<S: Sink>(
    tables: Option<&DmaTables>,
    image: &Image,
    entries: &[TickInput<Input>],
    out: &mut BufferedSink<'_, S>,
) -> Result<(), SinkFault>
    requires { IsParts image.now }
    ensures { Prints S.state (flat_map (λ e. input_text (option_map (λ t. t.now) tables.entry) image.now e.tick e.input) entries.now) out.old out.new result }
{
    for entry in entries {
        put_input(tables, image, entry, out)?;
    }
    Ok(())
}

// The text.
#[tactic(auto, unfolding(crate::specs::LinesText::lines_text))]
fn put_text<S: Sink>(
    tables: Option<&DmaTables>,
    image: &Parts,
    record: &Record<Input>,
    out: &mut BufferedSink<'_, S>,
) -> Result<(), SinkFault>
    ensures { Prints S.state (lines_text (option_map (λ t. t.now) tables.entry) image.now record.now) out.old out.new result }
{
    put_inputs(tables, image.image(), record.inputs.items(), out)
}

/// Puts a line for each line of direct memory access of a record, in its order: `TICK DEVICE ADDR
/// LENGTH`, and then ` ADDRESS LENGTH REGION` for each page that is written, one or two; or `
/// dropped at ADDR: WHY`, with the first address of the line for which nothing is written. Ticks
/// and lengths, in bytes, are decimal; addresses have sixteen hexadecimal digits. The text goes
/// through the buffer, in which nothing may wait before, and takes no memory. Where the sink fails
/// it has a front of the text.
#[tactic(auto, using(muen_outside::proofs::Buffered::gives))]
pub fn lines_text<S: Sink>(
    image: &Parts,
    record: &Record<Input>,
    tables: Option<&DmaTables>,
    buffer: &mut Buffer,
    out: &mut S,
) -> Result<(), SinkFault>
    requires { buffer.old ≡ [] }
    ensures { Puts (lines_text (option_map (λ t. t.now) tables.entry) image.now record.now) (S.state out.old) (S.state out.new) result }
{
    let mut out = BufferedSink { buffer, sink: out };
    put_text(tables, image, record, &mut out)?;
    out.flush()
}
