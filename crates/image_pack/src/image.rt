//! An image that is known to be one, read from its bytes and written as them.
ghost use Rattle.std.specs.Prelude.{◌≡◌, ◌≤◌, ◌<◌, Err, ◌++◌, ℕ, List, length, Ok, IfOk};
ghost use Rattle.binary_form.specs.Form.{IsBytes, whole};
ghost use Rattle.binary_form.specs.Faults.{Tells, unpacked, IsShort};
ghost use Rattle.binary_form.specs.declared.fault.Field.{Field};
ghost use Rattle.image_pack.specs.Image.{image};
ghost use Rattle.image_pack.specs.ImageConditions.{KeepsConditions};
ghost use Rattle.image_pack.specs.Parts.{IsParts, IsImage, counted_image};
ghost use Rattle.image_pack.specs.Sizes.{most_image_bytes};
ghost use Rattle.image_pack.specs.declared.parts.Image.{Image};
ghost use Rattle.muen_num.specs.declared.limits.TheConstants.{IMAGE_MOST};

use crate::outline::Header;
use crate::parts::{DevicePart, Image, SpanPart, SubjectPart};
use crate::reading::whole::all_of;
use crate::writing::put_image;
use binary_form::writing::{as_u8, as_u16};
use binary_form::{ImageFault, fault_of};
use frame_clock::Plan;
use muen_num::{NoMemory, Seq};
use std::alloc::{AllocError, Global};
use std::marker::Model;

/// The parts of an image, which keep its conditions.
#[derive(Debug, Drop)]
pub struct Parts {
    image: Image,
}

impl Model for Parts {
    ghost use Rattle.image_pack.specs.declared.parts.Image.{Image};
    ghost use Rattle.image_pack.specs.Parts.{IsParts};

    ghost Value = { Image };

    ghost view = { λ p. p.image };

    ghost invariant = { λ p. IsParts p.image };
}

impl Parts {
    /// The parts that these are. `contents` has the bytes of each span, in the order of the spans,
    /// and none of a device's memory; `tau0` is the number of the span whose first byte chooses the
    /// next major frame.
    pub fn make(
        cpus: u8,
        tau0: Option<u16>,
        spans: Seq<SpanPart>,
        subjects: Seq<SubjectPart>,
        plan: Plan,
        devices: Seq<DevicePart>,
        contents: Seq<Seq<u8>>,
    ) -> Parts
        requires { IsParts (counted_image cpus tau0 spans subjects plan devices contents) }
        ensures { result ≡ counted_image cpus tau0 spans subjects plan devices contents }
    {
        let header = Header {
            cpus,
            subjects: as_u8(subjects.len()),
            groups: as_u8(plan.groups.len()),
            majors: as_u8(plan.majors.len()),
            devices: as_u8(devices.len()),
            spans: as_u16(spans.len()),
            tau0,
        };
        Parts {
            image: Image {
                header,
                spans,
                subjects,
                plan,
                devices,
                contents,
            },
        }
    }

    /// The parts, lent.
    pub fn image(&self) -> &Image
        ensures same { result.now ≡ self.now }
        ensures parts { IsParts self.now }
    {
        &self.image
    }

    /// The parts, given back.
    pub fn into_image(self) -> Image
        ensures same { result ≡ self }
        ensures parts { IsParts self }
    {
        let Parts { image } = self;
        image
    }
}

/// The parts that the bytes spell.
///
/// # Errors
/// The first fault of the bytes, with the offset of its field; memory is refused.
pub fn unpack(alloc: Global, bytes: &[u8]) -> Result<Parts, ImageFault>
    // What is read is spelled so, each byte of it.
    ensures found { IfOk result (λ p. IsImage bytes.now p) }
    // What is spelled so is read, unless memory runs out.
    ensures only { (i : Image) → IsImage bytes.now i → Tells (Ok i) result }
    // Which fault it is.
    ensures exact { Tells (unpacked image bytes.now) result }
{
    match all_of(alloc, bytes) {
        Ok(image) => Ok(Parts { image }),
        Err(error) => Err(fault_of(bytes.len(), error)),
    }
}

// The bytes of parts that keep the conditions.
fn packed(alloc: Global, i: &Image) -> Result<Vec<u8>, AllocError>
    requires { IsParts i.now }
    ensures { IfOk result (λ v. IsImage v.items i.now) }
{
    let mut out = Vec::new(alloc);
    put_image(&mut out, i)?;
    Ok(out)
}

/// The one spelling of the parts.
///
/// # Errors
/// Memory is refused.
pub fn pack(alloc: Global, parts: &Parts) -> Result<Vec<u8>, NoMemory>
    ensures { IfOk result (λ v. IsImage v.items parts.now) }
{
    let bytes = packed(alloc, parts.image())?;
    Ok(bytes)
}

/// Bytes and parts determine each other.
pub fn one_to_one()
    // What is packed is unpacked again.
    ensures back { (i : Image) → IsParts i → unpacked image (image.spell i) ≡ Ok i }
    // No other bytes spell what was unpacked, and no byte is left over.
    ensures spelled { (bytes : List ℕ) (i : Image) → IsBytes bytes → unpacked image bytes ≡ Ok i → IsImage bytes i }
    // Different parts have different bytes.
    ensures apart { (i j : Image) → IsParts i → IsParts j → image.spell i ≡ image.spell j → i ≡ j }
{}

/// The conditions of an image in plain words.
pub fn conditions()
    // Parts that keep them are parts of an image,
    ensures enough { (i : Image) → KeepsConditions i → IsParts i }
    // and so do all parts of one.
    ensures kept { (i : Image) → IsParts i → KeepsConditions i }
{}

/// What an image is made of.
pub fn images_are_bytes()
    // Parts are spelled in bytes,
    ensures spelled { (i : Image) → IsParts i → IsBytes (image.spell i) }
    // so an image is made of bytes,
    ensures bytes { (bytes : List ℕ) (i : Image) → IsImage bytes i → IsBytes bytes }
    // of no more than the longest image has,
    ensures bounded { (bytes : List ℕ) (i : Image) → IsImage bytes i → length bytes ≤ most_image_bytes }
    // which the file of an image may have.
    ensures within { most_image_bytes ≤ IMAGE_MOST }
{}

/// The fault is the first one.
pub fn first_fault()
    // Whatever follows the field, the fault is this one.
    ensures stays { (bytes more : List ℕ) (at : ℕ) (f : Field) → unpacked image bytes ≡ Err (ImageFault.Bad at f) → unpacked image (bytes ++ more) ≡ Err (ImageFault.Bad at f) }
    // What ends before the field has no fault but that it ends.
    ensures before { (bytes more : List ℕ) (at : ℕ) (f : Field) → length bytes < at → unpacked image (bytes ++ more) ≡ Err (ImageFault.Bad at f) → IsShort (unpacked image bytes) }
    ensures short { (bytes more : List ℕ) (at : ℕ) → unpacked image (bytes ++ more) ≡ Err (ImageFault.Short at) → IsShort (unpacked image bytes) }
{}
