//! Reads devices.
#![tactic(auto, unfolding(binary_form::specs::Form::only, binary_form::specs::Form::field, binary_form::specs::Form::gap, binary_form::specs::Form::done))]

ghost use Rattle.std.specs.Prelude.{◌≡◌, ◌++◌, ◌∷◌, [], nat_le, not, Some};
ghost use Rattle.binary_form.specs.Form.{Form, Gives, only, byte};
ghost use Rattle.binary_form.specs.Name.{name};
ghost use Rattle.binary_form.specs.declared.fault.Field.{Field};
ghost use Rattle.image_pack.specs.Image.{is_listed_name, range, device_name, window_name, is_window, after_window, window_form, after_irq, irq, after_device, device, nothing_left};

use crate::codes::{is_target, part_name, target_of};
use crate::items::{Item, items_of};
use crate::outline::{Header, Outline};
use crate::parts::{DevicePart, IrqPart, SpanPart, WindowPart, span_numbered};
use crate::writing::{put_device, put_irq, put_range, put_window};
use binary_form::reading::{bad, byte_of, gap_of, name_of, u16_of};
use binary_form::{Field, FormError};
use muen_num::limits::MOST_PER_DEVICE;
use muen_num::{Name, PortSpan, Seq};
use std::alloc::{AllocError, Global};

fn is_listed(names: &[Name], name: &Name) -> bool
    ensures { result ≡ is_listed_name names.now name.now }
{
    names.iter().any(|other| other == name)
}

/// The name that the bytes begin with, and what is behind it. It isn't one of these.
///
/// # Errors
/// No name stands there, or one of these does.
pub fn new_name_of<'a>(names: &[Name], bytes: &'a [u8]) -> Result<(Name, &'a [u8]), FormError>
    ensures { Gives (λ x. (x.0, x.1.now)) result ((only (λ n. not (is_listed_name names.now n)) Field.Name name).read bytes.now) }
{
    match name_of(bytes) {
        Ok((name, rest)) => {
            if is_listed(names, &name) {
                return Err(bad(bytes, Field::Name));
            }
            Ok((name, rest))
        }
        Err(error) => Err(error),
    }
}

// A count of what a device has of a kind.
fn device_count_of(bytes: &[u8]) -> Result<(u8, &[u8]), FormError>
    ensures { Gives (λ x. (x.0, x.1.now)) result ((only (λ n. nat_le n MOST_PER_DEVICE) Field.Count byte).read bytes.now) }
{
    let (count, rest) = byte_of(bytes)?;
    if usize::from(count) > MOST_PER_DEVICE {
        return Err(bad(bytes, Field::Count));
    }
    Ok((count, rest))
}

impl Item for PortSpan {
    ghost use Rattle.image_pack.specs.Image.{range, nothing_left};

    type Among = Header;

    type Before = u8;

    ghost next = { nothing_left };

    ghost form = { range };

    #[tactic(auto, unfolding(binary_form::specs::Form::only, binary_form::specs::Form::field, binary_form::specs::Form::done, crate::specs::Image::range))]
    fn read<'a>(
        alloc: Global,
        among: &Header,
        before: &mut u8,
        bytes: &'a [u8],
    ) -> Result<(PortSpan, &'a [u8]), FormError> {
        let (start, rest) = u16_of(bytes)?;
        let at = rest;
        let (end, rest) = u16_of(at)?;
        if end < start {
            return Err(bad(at, Field::Port));
        }
        Ok((PortSpan { start, end }, rest))
    }

    fn put(&self, out: &mut Vec<u8>) -> Result<(), AllocError> {
        put_range(out, self)
    }
}

fn device_name(span: &SpanPart) -> Option<Name>
    ensures { result ≡ device_name span.now }
{
    if span.kind.is_device() {
        part_name(&span.tag.part)
    } else {
        None
    }
}

// The name of a device's memory, by the number of its span.
#[tactic(auto, unfolding(crate::specs::Image::window_name))]
fn window_name(spans: &[SpanPart], number: u16) -> Option<Name>
    ensures { result ≡ window_name spans.now number }
{
    device_name(span_numbered(spans, usize::from(number))?)
}

impl Item for WindowPart {
    ghost use Rattle.image_pack.specs.Image.{window_form, after_window};

    type Among = Outline;

    type Before = Seq<Name>;

    ghost next = { after_window };

    ghost form = { window_form };

    #[tactic(auto, unfolding(binary_form::specs::Form::only, binary_form::specs::Form::field, binary_form::specs::Form::done, crate::specs::Image::window_form, crate::specs::Image::is_window, crate::specs::Image::after_window))]
    fn read<'a>(
        alloc: Global,
        among: &Outline,
        before: &mut Seq<Name>,
        bytes: &'a [u8],
    ) -> Result<(WindowPart, &'a [u8]), FormError> {
        let (span, rest) = u16_of(bytes)?;
        match window_name(among.spans.items(), span) {
            None => Err(bad(bytes, Field::Span)),
            Some(name) => {
                if is_listed(before.items(), &name) {
                    return Err(bad(bytes, Field::Span));
                }
                before.push(name)?;
                Ok((WindowPart { span }, rest))
            }
        }
    }

    fn put(&self, out: &mut Vec<u8>) -> Result<(), AllocError> {
        put_window(out, self)
    }
}

impl Item for IrqPart {
    ghost use Rattle.image_pack.specs.Image.{irq, after_irq};

    type Among = Header;

    type Before = Seq<Name>;

    ghost next = { after_irq };

    ghost form = { irq };

    #[tactic(auto, unfolding(binary_form::specs::Form::only, binary_form::specs::Form::field, binary_form::specs::Form::gap, binary_form::specs::Form::done, crate::specs::Image::irq))]
    fn read<'a>(
        alloc: Global,
        among: &Header,
        before: &mut Seq<Name>,
        bytes: &'a [u8],
    ) -> Result<(IrqPart, &'a [u8]), FormError> {
        let (name, rest) = match new_name_of(before.items(), bytes) {
            Ok(named) => named,
            Err(error) => return Err(error),
        };
        let (subject, rest) = byte_of(rest)?;
        let at = rest;
        let (vector, rest) = byte_of(at)?;
        if !is_target(among.subjects, subject, vector) {
            return Err(bad(at, Field::Irq));
        }
        let rest = gap_of(rest, 2, Field::Zero)?;
        before.push(name)?;
        let target = target_of(subject, vector);
        Ok((IrqPart { name, target }, rest))
    }

    fn put(&self, out: &mut Vec<u8>) -> Result<(), AllocError> {
        put_irq(out, self)
    }
}

impl Item for DevicePart {
    ghost use Rattle.image_pack.specs.Image.{device, after_device};

    type Among = Outline;

    type Before = Seq<Name>;

    ghost next = { after_device };

    ghost form = { device };

    #[tactic(auto, unfolding(binary_form::specs::Form::only, binary_form::specs::Form::field, binary_form::specs::Form::gap, binary_form::specs::Form::done, crate::specs::Image::device))]
    fn read<'a>(
        alloc: Global,
        among: &Outline,
        before: &mut Seq<Name>,
        bytes: &'a [u8],
    ) -> Result<(DevicePart, &'a [u8]), FormError> {
        let (name, rest) = match new_name_of(before.items(), bytes) {
            Ok(named) => named,
            Err(error) => return Err(error),
        };
        let (ports, rest) = device_count_of(rest)?;
        let (windows, rest) = device_count_of(rest)?;
        let (irqs, rest) = device_count_of(rest)?;
        let rest = gap_of(rest, 1, Field::Zero)?;
        let (ports, rest) = items_of::<PortSpan>(alloc, &among.header, 0, ports as usize, rest)?;
        let (windows, rest) = items_of::<WindowPart>(
            alloc,
            among,
            Seq::new(alloc),
            windows as usize,
            rest,
        )?;
        let (irqs, rest) = items_of::<IrqPart>(
            alloc,
            &among.header,
            Seq::new(alloc),
            irqs as usize,
            rest,
        )?;
        before.push(name)?;
        Ok((
            DevicePart {
                name,
                ports,
                windows,
                irqs,
            },
            rest,
        ))
    }

    fn put(&self, out: &mut Vec<u8>) -> Result<(), AllocError> {
        put_device(out, self)
    }
}
