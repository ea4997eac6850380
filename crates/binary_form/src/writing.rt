//! Writers of single fields: each writes what the form spells behind what is there. On a refusal of
//! memory some of it may have been written.
#![tactic(auto, using(crate::proofs::Puts::appended))]

ghost use Rattle.std.specs.Prelude.{◌≡◌, ℕ, ◌++◌, replicate, OnOk};
ghost use Rattle.std.specs.Int.{w16, w32, w64};
ghost use Rattle.binary_form.specs.Form.{Form, byte, fixed_bytes, number};
ghost use Rattle.binary_form.specs.Name.{name};

use muen_num::Name;
use muen_num::limits::NAME_MOST;
use std::alloc::AllocError;

/// Writes so many zeros.
pub fn put_zeros(out: &mut Vec<u8>, n: usize) -> Result<(), AllocError>
    ensures { OnOk result (out.new.items ≡ out.old.items ++ replicate n 0) }
{
    for _ in 0..n {
        out.push(0)?;
    }
    Ok(())
}

/// Writes these bytes, where the form has them as a tag.
pub fn put_tag(out: &mut Vec<u8>, bytes: &[u8]) -> Result<(), AllocError>
    ensures { OnOk result (out.new.items ≡ out.old.items ++ bytes.now) }
{
    out.extend_from_slice(bytes)?;
    Ok(())
}

/// Writes these bytes, where the form has them as a value.
#[tactic(auto, unfolding(crate::specs::Form::fixed_bytes))]
pub fn put_bytes(out: &mut Vec<u8>, bytes: &[u8]) -> Result<(), AllocError>
    ensures { (n : ℕ) → OnOk result (out.new.items ≡ out.old.items ++ (fixed_bytes n).spell bytes.now) }
{
    out.extend_from_slice(bytes)?;
    Ok(())
}

/// Writes a byte.
#[tactic(auto, unfolding(crate::specs::Form::byte))]
pub fn put_u8(out: &mut Vec<u8>, n: u8) -> Result<(), AllocError>
    ensures { OnOk result (out.new.items ≡ out.old.items ++ byte.spell n) }
{
    out.push(n)?;
    Ok(())
}

/// Writes a number in 2 bytes, its low byte first.
#[tactic(auto, unfolding(crate::specs::Form::number))]
pub fn put_u16(out: &mut Vec<u8>, n: u16) -> Result<(), AllocError>
    ensures { OnOk result (out.new.items ≡ out.old.items ++ (number w16).spell n) }
{
    out.extend_from_slice(&n.to_le_bytes())?;
    Ok(())
}

/// Writes a number in 4 bytes, its low byte first.
#[tactic(auto, unfolding(crate::specs::Form::number))]
pub fn put_u32(out: &mut Vec<u8>, n: u32) -> Result<(), AllocError>
    ensures { OnOk result (out.new.items ≡ out.old.items ++ (number w32).spell n) }
{
    out.extend_from_slice(&n.to_le_bytes())?;
    Ok(())
}

/// Writes a number in 8 bytes, its low byte first.
#[tactic(auto, unfolding(crate::specs::Form::number))]
pub fn put_u64(out: &mut Vec<u8>, n: u64) -> Result<(), AllocError>
    ensures { OnOk result (out.new.items ≡ out.old.items ++ (number w64).spell n) }
{
    out.extend_from_slice(&n.to_le_bytes())?;
    Ok(())
}

/// The number, which has a spelling in 2 bytes.
#[tactic(auto, unfolding(crate::specs::Form::number))]
pub fn as_u16(n: usize) -> u16
    requires { (number w16).fits n }
    ensures { result ≡ n }
{
    n as u16
}

/// The number, which has a spelling in one byte.
#[tactic(auto, unfolding(crate::specs::Form::byte))]
pub fn as_u8(n: usize) -> u8
    requires { byte.fits n }
    ensures { result ≡ n }
{
    n as u8
}

/// Writes a name: a byte that says its length, its bytes, and zeros, 64 bytes in all.
#[tactic(auto, using(crate::proofs::Puts::appended), unfolding(crate::specs::Form::coded, crate::specs::Name::name, muen_num::specs::Naming::name_room))]
pub fn put_name(out: &mut Vec<u8>, text: &Name) -> Result<(), AllocError>
    ensures { OnOk result (out.new.items ≡ out.old.items ++ name.spell text.now) }
{
    let bytes = text.bytes();
    out.push(bytes.len() as u8)?;
    out.extend_from_slice(bytes)?;
    put_zeros(out, NAME_MOST - bytes.len())?;
    Ok(())
}
