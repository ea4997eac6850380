//! Reads a file of tables.
#![tactic(auto, unfolding(binary_form::specs::Form::only, binary_form::specs::Form::field, binary_form::specs::Form::tag, binary_form::specs::Form::gap, binary_form::specs::Form::done))]

ghost use Rattle.std.specs.Prelude.{◌≡◌, ◌==◌, [], not, nat_le};
ghost use Rattle.std.specs.Int.{w32, w64};
ghost use Rattle.binary_form.specs.Form.{Form, Gives, byte, items, number, only, tag_at, whole};
ghost use Rattle.binary_form.specs.Name.{name};
ghost use Rattle.binary_form.specs.declared.fault.Field.{Field};
ghost use Rattle.dma_tables.specs.DmaFile.{after_dma_device, device, dma_file, is_dma_size, dma_mark_bytes};
ghost use Rattle.muen_num.specs.Numbers.{is_page_aligned};
ghost use Rattle.image_pack.specs.Image.{is_listed_name};
ghost use Rattle.muen_num.specs.declared.limits.TheConstants.{MOST_DEVICES};

use crate::file::{DmaDevice, DmaFile, MARK, MOST_DMA_PAGES};
use crate::writing::put_device;
use binary_form::reading::{bad, byte_of, bytes_upto, gap_of, name_of, tag_of, u32_of, u64_of};
use binary_form::{Field, FormError, FormFault};
use image_pack::{Item, items_of, new_name_of};
use muen_num::limits::{MOST_DEVICES, PAGE, PHYSICAL_END};
use muen_num::{Name, Seq};
use std::alloc::{AllocError, Global};

/// The bytes that a file begins with.
#[tactic(auto, unfolding(crate::specs::DmaFile::dma_mark_bytes))]
pub(crate) fn mark() -> &'static [u8]
    ensures { result.now ≡ dma_mark_bytes }
{
    MARK
}

// What stands behind the first eight bytes.
fn mark_of(bytes: &[u8]) -> Result<&[u8], FormError>
    ensures { Gives (λ x. x.now) result (tag_at dma_mark_bytes Field.Magic bytes.now) }
{
    tag_of(bytes, mark(), Field::Magic)
}

// The address of the first page.
fn base_of(bytes: &[u8]) -> Result<(u64, &[u8]), FormError>
    ensures { Gives (λ x. (x.0, x.1.now)) result ((only is_page_aligned Field.Place (number w64)).read bytes.now) }
{
    let (base, rest) = u64_of(bytes)?;
    if base % PAGE != 0 {
        return Err(bad(bytes, Field::Place));
    }
    Ok((base, rest))
}

fn is_size(base: u64, pages: u32) -> bool
    ensures { result ≡ is_dma_size base pages }
{
    let pages = u64::from(pages);
    1 <= pages
        && pages <= MOST_DMA_PAGES
        && base <= PHYSICAL_END
        && PAGE * pages <= PHYSICAL_END - base
}

// How many pages there are.
fn pages_of(base: u64, bytes: &[u8]) -> Result<(u32, &[u8]), FormError>
    ensures { Gives (λ x. (x.0, x.1.now)) result ((only (is_dma_size base) Field.Pages (number w32)).read bytes.now) }
{
    let (pages, rest) = u32_of(bytes)?;
    if !is_size(base, pages) {
        return Err(bad(bytes, Field::Pages));
    }
    Ok((pages, rest))
}

// How many devices there are.
fn count_of(bytes: &[u8]) -> Result<(u8, &[u8]), FormError>
    ensures { Gives (λ x. (x.0, x.1.now)) result ((only (λ n. nat_le n MOST_DEVICES) Field.Count byte).read bytes.now) }
{
    let (count, rest) = byte_of(bytes)?;
    if usize::from(count) > MOST_DEVICES {
        return Err(bad(bytes, Field::Count));
    }
    Ok((count, rest))
}

impl Item for DmaDevice {
    ghost use Rattle.dma_tables.specs.DmaFile.{after_dma_device, device};

    type Among = ();

    type Before = Seq<Name>;

    ghost next = { after_dma_device };

    ghost form = { device };

    #[tactic(auto, unfolding(binary_form::specs::Form::only, binary_form::specs::Form::field, binary_form::specs::Form::gap, binary_form::specs::Form::done, crate::specs::DmaFile::device))]
    fn read<'a>(
        alloc: Global,
        among: &(),
        before: &mut Seq<Name>,
        bytes: &'a [u8],
    ) -> Result<(DmaDevice, &'a [u8]), FormError> {
        let (name, rest) = match new_name_of(before.items(), bytes) {
            Ok(named) => named,
            Err(error) => return Err(error),
        };
        let (bus, rest) = byte_of(rest)?;
        let (devfn, rest) = byte_of(rest)?;
        let rest = gap_of(rest, 2, Field::Zero)?;
        before.push(name)?;
        Ok((DmaDevice { name, bus, devfn }, rest))
    }

    fn put(&self, out: &mut Vec<u8>) -> Result<(), AllocError> {
        put_device(out, self)
    }
}

// The devices.
fn devices_of(alloc: Global, count: u8, bytes: &[u8]) -> Result<(Seq<DmaDevice>, &[u8]), FormError>
    ensures { Gives (λ x. (x.0, x.1.now)) result ((items (after_dma_device tt) (device tt) [] count).read bytes.now) }
{
    items_of::<DmaDevice>(alloc, &(), Seq::new(alloc), count as usize, bytes)
}

#[tactic(auto, unfolding(binary_form::specs::Form::field, binary_form::specs::Form::tag, binary_form::specs::Form::gap, binary_form::specs::Form::done, crate::specs::DmaFile::dma_file))]
fn file_of(alloc: Global, bytes: &[u8]) -> Result<(DmaFile, &[u8]), FormError>
    ensures { Gives (λ x. (x.0, x.1.now)) result (dma_file.read bytes.now) }
{
    let rest = mark_of(bytes)?;
    let (base, rest) = base_of(rest)?;
    let (pages, rest) = pages_of(base, rest)?;
    let (count, rest) = count_of(rest)?;
    let rest = gap_of(rest, 3, Field::Zero)?;
    let (devices, rest) = devices_of(alloc, count, rest)?;
    let (pages, rest) = bytes_upto(alloc, rest, PAGE as usize * pages as usize)?;
    Ok((
        DmaFile {
            base,
            pages,
            devices,
        },
        rest,
    ))
}

/// What the bytes say, to the last one.
///
/// # Errors
/// The first fault of the bytes; memory is refused.
#[tactic(auto, unfolding(binary_form::specs::Form::whole))]
pub(crate) fn all_of(alloc: Global, bytes: &[u8]) -> Result<DmaFile, FormError>
    ensures { Gives (λ t. t) result (whole dma_file bytes.now) }
{
    let (file, rest) = file_of(alloc, bytes)?;
    if rest.is_empty() {
        Ok(file)
    } else {
        Err(FormError::At(FormFault::Trailing(rest.len())))
    }
}
