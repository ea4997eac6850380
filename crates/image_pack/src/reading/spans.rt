//! Reads the table of spans.
#![tactic(auto, unfolding(binary_form::specs::Form::only, binary_form::specs::Form::field, binary_form::specs::Form::gap, binary_form::specs::Form::done))]

ghost use Rattle.std.specs.Prelude.{◌≡◌, ◌+◌, ◌*◌, ◌<◌, ◌≤◌, IfOk, IsTrue, length};
ghost use Rattle.binary_form.specs.Form.{Form, Gives, items};
ghost use Rattle.image_pack.specs.Image.{after, pages_with, device_pages_with, is_address, is_span_size, is_new, suits_tau0, spans_have_room, is_kind, title, span, no_spans_before};

use crate::codes::{is_part, kind_byte_of, part_of};
use crate::items::{Item, items_of};
use crate::outline::Header;
use crate::parts::{SpanKind, SpanPart};
use crate::writing::put_span;
use binary_form::reading::{bad, byte_of, gap_of, name_of, u16_of, u32_of, u64_of};
use binary_form::{Field, FormError};
use muen_num::limits::{MOST_BLOCK_BYTES, MOST_DEVICE_BYTES, PAGE, PHYSICAL_END};
use muen_num::{Name, Seq, Tag};
use std::alloc::{AllocError, Global};

/// What the spans before one leave.
#[derive(Drop)]
pub struct SpansBefore {
    /// Where the last of them ends.
    pub end: u64,
    /// Which numbers came.
    pub seen: Seq<bool>,
    /// How many spans are still to come.
    pub left: u16,
    /// How many pages they have, without those of devices.
    pub pages: u32,
    /// How many pages those of devices have.
    pub device_pages: u32,
}

fn is_address(end: u64, address: u64) -> bool
    ensures { result ≡ is_address end address }
{
    address % PAGE == 0 && end <= address
}

// Whether pages from there on are some, and end where memory does or before it.
fn is_size(address: u64, pages: u32) -> bool
    ensures value { result ≡ is_span_size address pages }
    ensures small { IsTrue result → address + PAGE * pages ≤ PHYSICAL_END }
{
    0 < pages && address <= PHYSICAL_END && address + PAGE * u64::from(pages) <= PHYSICAL_END
}

fn is_new(header: &Header, before: &SpansBefore, number: u16) -> bool
    ensures { result ≡ is_new header.now before.now number }
{
    if number >= header.spans {
        return false;
    }
    match before.seen.items().get(number as usize) {
        Some(seen) => !*seen,
        None => false,
    }
}

fn suits_tau0(tau0: Option<u16>, number: u16, kind: SpanKind) -> bool
    ensures { result ≡ suits_tau0 tau0 number kind }
{
    match tau0 {
        None => true,
        Some(tau0) => number != tau0 || kind.is_own(),
    }
}

fn pages_with(before: &SpansBefore, kind: SpanKind, pages: u32) -> u32
    ensures { result ≡ pages_with before.now kind pages }
{
    if kind.is_device() {
        before.pages
    } else {
        before.pages.saturating_add(pages)
    }
}

fn device_pages_with(before: &SpansBefore, kind: SpanKind, pages: u32) -> u32
    ensures { result ≡ device_pages_with before.now kind pages }
{
    if kind.is_device() {
        before.device_pages.saturating_add(pages)
    } else {
        before.device_pages
    }
}

fn has_room(before: &SpansBefore, pages: u32, kind: SpanKind) -> bool
    ensures { result ≡ spans_have_room before.now pages kind }
{
    before.left != 1
        || (PAGE * u64::from(pages_with(before, kind, pages)) <= MOST_BLOCK_BYTES
            && PAGE * u64::from(device_pages_with(before, kind, pages)) <= MOST_DEVICE_BYTES)
}

#[tactic(auto, unfolding(crate::specs::Image::is_kind))]
fn is_kind(header: &Header, before: &SpansBefore, pages: u32, number: u16, kind: SpanKind) -> bool
    ensures { result ≡ is_kind header.now before.now pages number kind }
{
    suits_tau0(header.tau0, number, kind) && has_room(before, pages, kind)
}

#[tactic(auto, unfolding(binary_form::specs::Form::either, binary_form::specs::Form::present, binary_form::specs::Form::absent_value, crate::specs::Image::title))]
fn title_of(code: u8, bytes: &[u8]) -> Result<(Option<Name>, &[u8]), FormError>
    ensures { Gives (λ x. (x.0, x.1.now)) result ((title code).read bytes.now) }
{
    if code == 1 {
        match name_of(bytes) {
            Ok((name, rest)) => Ok((Some(name), rest)),
            Err(error) => Err(error),
        }
    } else {
        let rest = gap_of(bytes, 64, Field::Name)?;
        Ok((None, rest))
    }
}

// Notes a span for those behind it.
#[tactic(auto, unfolding(crate::specs::Image::after))]
fn note(before: &mut SpansBefore, span: &SpanPart)
    requires end { span.now.address + PAGE * span.now.pages ≤ PHYSICAL_END }
    requires number { span.now.number < length before.old.seen }
    ensures { (h : Header) → before.new ≡ after h before.old span.now }
{
    before.pages = pages_with(before, span.kind, span.pages);
    before.device_pages = device_pages_with(before, span.kind, span.pages);
    before.end = span.address + PAGE * u64::from(span.pages);
    before.seen.overwrite(span.number as usize, &[true]);
    before.left = before.left.saturating_sub(1);
}

impl Item for SpanPart {
    ghost use Rattle.image_pack.specs.Image.{after, span};

    type Among = Header;

    type Before = SpansBefore;

    ghost next = { after };

    ghost form = { span };

    #[tactic(auto, unfolding(binary_form::specs::Form::only, binary_form::specs::Form::field, binary_form::specs::Form::gap, binary_form::specs::Form::done, crate::specs::Image::span))]
    fn read<'a>(
        alloc: Global,
        among: &Header,
        before: &mut SpansBefore,
        bytes: &'a [u8],
    ) -> Result<(SpanPart, &'a [u8]), FormError> {
        let (address, rest) = u64_of(bytes)?;
        if !is_address(before.end, address) {
            return Err(bad(bytes, Field::Place));
        }
        let at = rest;
        let (pages, rest) = u32_of(at)?;
        if !is_size(address, pages) {
            return Err(bad(at, Field::Pages));
        }
        let at = rest;
        let (number, rest) = u16_of(at)?;
        if !is_new(among, before, number) {
            return Err(bad(at, Field::Number));
        }
        let at = rest;
        let (kind, rest) = kind_byte_of(at)?;
        if !is_kind(among, before, pages, number, kind) {
            return Err(bad(at, Field::Kind));
        }
        let at = rest;
        let (code, rest) = byte_of(at)?;
        if !is_part(kind, code) {
            return Err(bad(at, Field::Part));
        }
        let (owner, rest) = match name_of(rest) {
            Ok(named) => named,
            Err(error) => return Err(error),
        };
        let (called, rest) = match title_of(code, rest) {
            Ok(titled) => titled,
            Err(error) => return Err(error),
        };
        let rest = gap_of(rest, 16, Field::Zero)?;
        let part = part_of(code, called);
        let span = SpanPart {
            address,
            pages,
            number,
            kind,
            tag: Tag { owner, part },
        };
        note(before, &span);
        Ok((span, rest))
    }

    fn put(&self, out: &mut Vec<u8>) -> Result<(), AllocError> {
        put_span(out, self)
    }
}

fn no_spans_before(alloc: Global, header: &Header) -> Result<SpansBefore, AllocError>
    ensures { IfOk result (λ s. s ≡ no_spans_before header.now) }
{
    let seen = Seq::of(vec![in alloc; false; header.spans as usize]?);
    Ok(SpansBefore {
        end: 0,
        seen,
        left: header.spans,
        pages: 0,
        device_pages: 0,
    })
}

/// The table of spans.
#[tactic(auto, unfolding(binary_form::specs::Form::items))]
pub(crate) fn spans_of<'a>(
    alloc: Global,
    header: &Header,
    bytes: &'a [u8],
) -> Result<(Seq<SpanPart>, &'a [u8]), FormError>
    ensures { Gives (λ x. (x.0, x.1.now)) result ((items (after header.now) (span header.now) (no_spans_before header.now) header.now.spans).read bytes.now) }
{
    let before = no_spans_before(alloc, header)?;
    items_of::<SpanPart>(alloc, header, before, header.spans as usize, bytes)
}
