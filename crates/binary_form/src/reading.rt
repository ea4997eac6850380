//! Readers of single fields: each gives the value and the bytes behind it, or says how many bytes
//! are left from where the field begins.
#![tactic(auto, unfolding(crate::specs::Form::number, crate::specs::Form::number_at, crate::specs::Form::byte, crate::specs::Form::byte_at, crate::specs::Form::fixed_bytes, crate::specs::Form::bytes_at, crate::specs::Form::tag_at, crate::specs::Form::gap_at))]

ghost use Rattle.std.specs.Prelude.{◌≡◌, ◌==◌, length};
ghost use Rattle.std.specs.Int.{w16, w32, w64};
ghost use Rattle.std.specs.List.{list_all};
ghost use Rattle.binary_form.specs.Form.{Form, Gives, byte, fixed_bytes, gap_at, number, tag_at};
ghost use Rattle.binary_form.specs.Name.{name, name_in};

use crate::fault::{Field, FormError, FormFault};
use muen_num::limits::NAME_MOST;
use muen_num::{Name, Seq};
use std::alloc::Global;

/// The field that begins here isn't as it has to be.
pub fn bad(here: &[u8], field: Field) -> FormError
    ensures { result ≡ FormError.At (FormFault.Bad (length here.now) field) }
{
    FormError::At(FormFault::Bad(here.len(), field))
}

/// The bytes end before the field that begins here.
pub fn short(here: &[u8]) -> FormError
    ensures { result ≡ FormError.At (FormFault.Short (length here.now)) }
{
    FormError::At(FormFault::Short(here.len()))
}

/// A byte. `Short` where there is none.
pub fn byte_of(bytes: &[u8]) -> Result<(u8, &[u8]), FormError>
    ensures { Gives (λ x. (x.0, x.1.now)) result (byte.read bytes.now) }
{
    match bytes {
        [] => Err(short(bytes)),
        [b, rest @ ..] => Ok((*b, rest)),
    }
}

/// A number of 2 bytes, its low byte first. `Short` where there are fewer.
pub fn u16_of(bytes: &[u8]) -> Result<(u16, &[u8]), FormError>
    ensures { Gives (λ x. (x.0, x.1.now)) result ((number w16).read bytes.now) }
{
    if bytes.len() < 2 {
        return Err(short(bytes));
    }
    let (front, rest) = bytes.split_at(2);
    Ok((u16::from_le_bytes([front[0], front[1]]), rest))
}

/// A number of 4 bytes, its low byte first. `Short` where there are fewer.
pub fn u32_of(bytes: &[u8]) -> Result<(u32, &[u8]), FormError>
    ensures { Gives (λ x. (x.0, x.1.now)) result ((number w32).read bytes.now) }
{
    if bytes.len() < 4 {
        return Err(short(bytes));
    }
    let (front, rest) = bytes.split_at(4);
    let number = u32::from_le_bytes([front[0], front[1], front[2], front[3]]);
    Ok((number, rest))
}

/// A number of 8 bytes, its low byte first. `Short` where there are fewer.
pub fn u64_of(bytes: &[u8]) -> Result<(u64, &[u8]), FormError>
    ensures { Gives (λ x. (x.0, x.1.now)) result ((number w64).read bytes.now) }
{
    if bytes.len() < 8 {
        return Err(short(bytes));
    }
    let (front, rest) = bytes.split_at(8);
    let number = u64::from_le_bytes([
        front[0], front[1], front[2], front[3], front[4], front[5], front[6], front[7],
    ]);
    Ok((number, rest))
}

fn all_zero(bytes: &[u8]) -> bool
    ensures { result ≡ list_all (λ b. b == 0) bytes.now }
{
    bytes.iter().all(|b| *b == 0)
}

/// What stands behind these bytes. `Short` where there are fewer, and `Bad` where they are others.
pub fn tag_of<'a>(bytes: &'a [u8], wanted: &[u8], field: Field) -> Result<&'a [u8], FormError>
    ensures { Gives (λ x. x.now) result (tag_at wanted.now field bytes.now) }
{
    if bytes.len() < wanted.len() {
        return Err(short(bytes));
    }
    let (front, rest) = bytes.split_at(wanted.len());
    if front == wanted {
        Ok(rest)
    } else {
        Err(bad(bytes, field))
    }
}

/// What stands behind so many zeros. `Short` where there are fewer bytes, and `Bad` where one of
/// them isn't 0.
pub fn gap_of(bytes: &[u8], n: usize, field: Field) -> Result<&[u8], FormError>
    ensures { Gives (λ x. x.now) result (gap_at n field bytes.now) }
{
    if bytes.len() < n {
        return Err(short(bytes));
    }
    let (front, rest) = bytes.split_at(n);
    if all_zero(front) {
        Ok(rest)
    } else {
        Err(bad(bytes, field))
    }
}

/// So many bytes. `Short` where there are fewer, and `NoMemory` where memory for them was refused.
pub fn bytes_upto(alloc: Global, bytes: &[u8], n: usize) -> Result<(Seq<u8>, &[u8]), FormError>
    ensures { Gives (λ x. (x.0, x.1.now)) result ((fixed_bytes n).read bytes.now) }
{
    if bytes.len() < n {
        return Err(short(bytes));
    }
    let (front, rest) = bytes.split_at(n);
    Ok((Seq::of(Vec::from_slice(alloc, front)?), rest))
}

// The name of 64 bytes: as long as the first says, with zeros behind it.
fn name_in(bytes: &[u8]) -> Option<Name>
    requires { length bytes.now ≡ 64 }
    ensures { result ≡ name_in bytes.now }
{
    match bytes {
        [] => None,
        [n, body @ ..] => {
            let n = *n as usize;
            if n > NAME_MOST {
                return None;
            }
            let (text, zeros) = body.split_at(n);
            if !all_zero(zeros) {
                return None;
            }
            Name::read(text)
        }
    }
}

/// A name: a byte that says its length, its bytes, and zeros, 64 bytes in all. `Short` where there
/// are fewer, and `Bad` where they spell no name, or a byte behind it isn't 0.
#[tactic(auto, unfolding(crate::specs::Form::coded, crate::specs::Form::coded_at, crate::specs::Name::name))]
pub fn name_of(bytes: &[u8]) -> Result<(Name, &[u8]), FormError>
    ensures { Gives (λ x. (x.0, x.1.now)) result (name.read bytes.now) }
{
    if bytes.len() < NAME_MOST + 1 {
        return Err(short(bytes));
    }
    let (front, rest) = bytes.split_at(NAME_MOST + 1);
    match name_in(front) {
        Some(text) => Ok((text, rest)),
        None => Err(bad(bytes, Field::Name)),
    }
}
