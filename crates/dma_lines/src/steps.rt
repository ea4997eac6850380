//! The way of a byte that a device writes, step by step: the walk of the tables (Intel VT-d specification,
//! legacy mode), and the image's spans.
//!
//! The level of a second-level table is 3 for the one that a context entry refers to, and 0 for the one
//! whose entries refer to pages of memory.
ghost use Rattle.std.specs.Prelude.{◌≡◌, ◌<◌, ◌^◌, IfOk, ok_or, option_map, true};
ghost use Rattle.std.specs.List.{find};
ghost use Rattle.std.specs.Str.{bytes_eq};
ghost use Rattle.dma_tables.specs.DmaWalk.{is_context, is_paging, is_root, page_in, root_page, word_of};
ghost use Rattle.dma_tables.specs.Lowered.{in_spans, is_in_spans};
ghost use Rattle.dma_lines.specs.Losses.{comes, context_step, device_steps, entry_loss, highest_step, name_steps, page_steps, paging_loss, paging_step};
ghost use Rattle.dma_lines.specs.declared.loss.Loss.{Loss};

use crate::loss::Loss;
use dma_tables::{DmaDevice, DmaFile, DmaTables};
use image_pack::{Image, SpanPart};
use machine_layout::entries::{ENTRY_BYTES, TABLE_ENTRIES, entry_size};
use machine_layout::{bits, word_at};
use muen_num::Name;
use muen_num::limits::{GUEST_END, PAGE};

// A word of the page with this number, where it is one of the file.
fn word_of(file: &DmaFile, page: u64, i: usize) -> Option<u64>
    requires { i < 512 }
    ensures { result ≡ word_of file.now page i }
{
    let root = file.base / PAGE;
    let count = (file.pages.len() / PAGE as usize) as u64;
    if page < root || page - root >= count {
        return None;
    }
    let at = PAGE * (page - root) + ENTRY_BYTES * i as u64;
    Some(word_at(file.pages.items(), at as usize))
}

// The page that an entry refers to.
fn page_in(entry: u64) -> u64
    ensures value { result ≡ page_in entry }
    ensures small { result < 2 ^ 28 }
{
    bits(entry, 12, 39)
}

// Why a root or context entry leads nowhere, by its low word.
fn entry_loss(low: u64) -> Loss
    ensures { result ≡ entry_loss low }
{
    if bits(low, 0, 0) == 1 {
        Loss::BadEntry
    } else {
        Loss::NoTable
    }
}

// A root entry that is present.
fn is_root(low: u64, high: u64) -> bool
    ensures { result ≡ is_root low high }
{
    bits(low, 0, 0) == 1 && bits(low, 1, 11) == 0 && bits(low, 40, 63) == 0 && high == 0
}

// The context table of a bus.
fn context_step(file: &DmaFile, bus: u8) -> Result<u64, Loss>
    ensures { result ≡ context_step (word_of file.now) (root_page file.now) bus }
{
    let root = file.base / PAGE;
    let low = word_of(file, root, 2 * bus as usize).ok_or(Loss::NoTable)?;
    let high = word_of(file, root, 2 * bus as usize + 1).ok_or(Loss::NoTable)?;
    if is_root(low, high) {
        Ok(page_in(low))
    } else {
        Err(entry_loss(low))
    }
}

// A context entry that is present, with four levels of tables behind it.
fn is_context(low: u64, high: u64) -> bool
    ensures { result ≡ is_context low high }
{
    bits(low, 0, 0) == 1
        && bits(low, 1, 11) == 0
        && bits(low, 40, 63) == 0
        && bits(high, 0, 2) == 2
        && bits(high, 3, 7) == 0
        && bits(high, 24, 63) == 0
}

// The highest second-level table of a device, by the context table of its bus.
fn highest_step(file: &DmaFile, devfn: u8, table: u64) -> Result<u64, Loss>
    ensures { result ≡ highest_step (word_of file.now) devfn table }
{
    let low = word_of(file, table, 2 * devfn as usize).ok_or(Loss::NoTable)?;
    let high = word_of(file, table, 2 * devfn as usize + 1).ok_or(Loss::NoTable)?;
    if is_context(low, high) {
        Ok(page_in(low))
    } else {
        Err(entry_loss(low))
    }
}

// A second-level entry that is present and lets a device write.
fn is_writable(entry: u64) -> bool
    ensures { result ≡ is_paging true entry }
{
    bits(entry, 1, 1) == 1 && bits(entry, 2, 11) == 0 && bits(entry, 40, 63) == 0
}

// Why a second-level entry lets a device write nothing.
fn paging_loss(entry: u64) -> Loss
    ensures { result ≡ paging_loss entry }
{
    if bits(entry, 1, 1) == 1 {
        Loss::BadEntry
    } else if bits(entry, 0, 0) == 1 {
        Loss::NoRight
    } else {
        Loss::NotPresent
    }
}

// What the entry for an address refers to, in a second-level table of this level.
fn paging_step(file: &DmaFile, addr: u64, level: u32, table: u64) -> Result<u64, Loss>
    requires { level < 4 }
    ensures value { result ≡ paging_step (word_of file.now) addr level table }
    ensures small { IfOk result (λ page. page < 2 ^ 28) }
{
    let index = addr / entry_size(level) % TABLE_ENTRIES;
    let entry = word_of(file, table, index as usize).ok_or(Loss::NoTable)?;
    if is_writable(entry) {
        Ok(page_in(entry))
    } else {
        Err(paging_loss(entry))
    }
}

// The page of memory that a device writes by an address.
#[tactic(auto, unfolding(crate::specs::Losses::page_steps))]
fn page_steps(file: &DmaFile, device: &DmaDevice, addr: u64) -> Result<u64, Loss>
    ensures value { result ≡ page_steps (word_of file.now) (root_page file.now) device.now addr }
    ensures small { IfOk result (λ page. page < 2 ^ 28) }
{
    let table = context_step(file, device.bus)?;
    let table = highest_step(file, device.devfn, table)?;
    let table = paging_step(file, addr, 3, table)?;
    let table = paging_step(file, addr, 2, table)?;
    let table = paging_step(file, addr, 1, table)?;
    paging_step(file, addr, 0, table)
}

// Where a device writes by an address.
#[tactic(auto, unfolding(crate::specs::Losses::device_steps))]
fn device_steps(file: &DmaFile, device: &DmaDevice, addr: u64) -> Result<u64, Loss>
    ensures { result ≡ device_steps file.now device.now addr }
{
    if addr >= GUEST_END {
        return Err(Loss::TooHigh);
    }
    let page = page_steps(file, device, addr)?;
    Ok(PAGE * page + addr % PAGE)
}

fn device_named<'a>(devices: &'a [DmaDevice], name: &Name) -> Option<&'a DmaDevice>
    ensures { option_map (λ d. d.now) result ≡ find (λ d. bytes_eq d.name name.now) devices.now }
{
    devices.iter().find(|device| device.name == *name)
}

// Whether one of the spans has the byte of this address.
fn is_in_spans(spans: &[SpanPart], place: u64) -> bool
    ensures { result ≡ is_in_spans spans.now place }
{
    spans.iter().any(|span| span.address <= place
        && (place - span.address) / PAGE < u64::from(span.pages))
}

// A place, if one of the spans has its byte.
fn spans_step(spans: &[SpanPart], place: u64) -> Result<u64, Loss>
    ensures { result ≡ ok_or (in_spans spans.now place) Loss.Outside }
{
    if is_in_spans(spans, place) {
        Ok(place)
    } else {
        Err(Loss::Outside)
    }
}

// Where the device of this name writes by an address.
#[tactic(auto, unfolding(crate::specs::Losses::name_steps))]
fn name_steps(file: &DmaFile, spans: &[SpanPart], name: &Name, addr: u64) -> Result<u64, Loss>
    ensures { result ≡ name_steps file.now spans.now name.now addr }
{
    let Some(device) = device_named(file.devices.items(), name) else {
        return Err(Loss::NoDevice);
    };
    let place = device_steps(file, device, addr)?;
    spans_step(spans, place)
}

/// Where a byte comes that the device of this number among those of an image writes by an address; or
/// why it comes nowhere.
#[tactic(auto, unfolding(crate::specs::Losses::comes))]
pub(crate) fn comes(
    tables: Option<&DmaTables>,
    image: &Image,
    device: u8,
    addr: u64,
) -> Result<u64, Loss>
    ensures { result ≡ comes (option_map (λ t. t.now) tables.entry) image.now device addr }
{
    let Some(tables) = tables else {
        return Err(Loss::NoTables);
    };
    let Some(part) = image.devices.items().get(device as usize) else {
        return Err(Loss::NoDevice);
    };
    name_steps(tables.file(), image.spans.items(), &part.name, addr)
}
