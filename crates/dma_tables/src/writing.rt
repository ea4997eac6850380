//! Writes a file of tables, line for line as its form says.
#![tactic(auto, using(binary_form::proofs::Puts::appended), unfolding(binary_form::specs::Form::only, binary_form::specs::Form::field, binary_form::specs::Form::tag, binary_form::specs::Form::gap, binary_form::specs::Form::done))]

ghost use Rattle.std.specs.Prelude.{◌≡◌, ◌/◌, ◌++◌, List, ℕ, OnOk};
ghost use Rattle.std.specs.Int.{w32};
ghost use Rattle.binary_form.specs.Form.{Form, number};
ghost use Rattle.dma_tables.specs.DmaFile.{device, dma_file, page_count_of};

use crate::file::{DmaDevice, DmaFile};
use crate::reading::mark;
use binary_form::writing::{
    as_u8, put_bytes, put_name, put_tag, put_u8, put_u32, put_u64, put_zeros,
};
use image_pack::put_items;
use muen_num::limits::PAGE;
use std::alloc::AllocError;

/// Writes the bytes of a device behind those that are there.
///
/// # Errors
/// Memory is refused.
#[tactic(auto, using(binary_form::proofs::Puts::appended), unfolding(binary_form::specs::Form::field, binary_form::specs::Form::only, binary_form::specs::Form::gap, binary_form::specs::Form::done, crate::specs::DmaFile::device))]
pub(crate) fn put_device(out: &mut Vec<u8>, d: &DmaDevice) -> Result<(), AllocError>
    ensures { (among : Unit {0}) (names : List (List ℕ)) → OnOk result (out.new.items ≡ out.old.items ++ (device among names).spell d.now) }
{
    put_name(out, &d.name)?;
    put_u8(out, d.bus)?;
    put_u8(out, d.devfn)?;
    put_zeros(out, 2)?;
    Ok(())
}

// How many pages there are.
#[tactic(auto, unfolding(binary_form::specs::Form::number))]
fn page_count(file: &DmaFile) -> u32
    requires { (number w32).fits (page_count_of file.now) }
    ensures { result ≡ page_count_of file.now }
{
    (file.pages.len() / PAGE as usize) as u32
}

/// Writes the bytes of a file behind those that are there.
///
/// # Errors
/// Memory is refused.
#[tactic(auto, using(binary_form::proofs::Puts::appended), unfolding(binary_form::specs::Form::field, binary_form::specs::Form::only, binary_form::specs::Form::tag, binary_form::specs::Form::gap, binary_form::specs::Form::done, crate::specs::DmaFile::dma_file))]
pub(crate) fn put_file(out: &mut Vec<u8>, file: &DmaFile) -> Result<(), AllocError>
    requires { dma_file.fits file.now }
    ensures { OnOk result (out.new.items ≡ out.old.items ++ dma_file.spell file.now) }
{
    put_tag(out, mark())?;
    put_u64(out, file.base)?;
    put_u32(out, page_count(file))?;
    put_u8(out, as_u8(file.devices.len()))?;
    put_zeros(out, 3)?;
    put_items(file.devices.items(), out)?;
    put_bytes(out, file.pages.items())?;
    Ok(())
}
