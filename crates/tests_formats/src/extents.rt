//! The calls that take memory, with ample of it.
ghost use Rattle.std.specs.Prelude.{◌≡◌};

use crate::agree::agree;
use muen_num::Name;
use policy_lawful::{Extent, Offence};
use rules_extents::{first_fault, first_overlap};
use std::test::Fail;

// The name of one letter.
fn letter(letter: u8) -> Result<Name, Fail> {
    match Name::read(&[letter]) {
        Some(name) => Ok(name),
        None => Err(Fail::new("no name")),
    }
}

fn extent(name: Name, address: u64, size: u64) -> Extent
    ensures { result.size ≡ size }
{
    Extent {
        name,
        address,
        size,
    }
}

#[test]
fn finds_the_first_fault(rt: HostRuntime) -> Result<(), Fail> {
    let (upper, lower, last, inner) = (letter(b'u')?, letter(b'l')?, letter(b'e')?, letter(b'i')?);
    let extents = [
        extent(upper, 8, 8),
        extent(lower, 0, 8),
        extent(last, u64::MAX, 1),
        extent(inner, 12, 1),
    ];
    let pair = Offence {
        first: upper,
        second: inner,
    };
    agree(&rt, first_overlap(rt.alloc(), &extents[..3])?, None);
    agree(&rt, first_overlap(rt.alloc(), &extents)?, Some(pair));
    agree(&rt, first_fault(rt.alloc(), &extents, 4)?, Some(pair));
    agree(
        &rt,
        first_fault(rt.alloc(), &extents, 3)?,
        Some(Offence::alone(inner)),
    );
    Ok(())
}
