//! Pages of tables, counted by hand.
ghost use Rattle.std.specs.Prelude.{◌≡◌};

use crate::agree::agree;
use ept_emit::{GuestRange, pages};
use std::test::Fail;

fn range(guest: u64, size: u64) -> GuestRange
    ensures { (result.guest ≡ guest) × (result.size ≡ size) }
{
    GuestRange { guest, size }
}

#[test]
fn pages_of_few_windows(rt: HostRuntime) -> Result<(), Fail> {
    agree(&rt, pages(&[]), 1);
    agree(&rt, pages(&[range(0x40_0000, 4096)]), 4);
    agree(
        &rt,
        pages(&[range(0x40_0000, 4096), range(0x80_0000, 0x20_0000)]),
        5,
    );
    agree(
        &rt,
        pages(&[range(0, 1 << 48)]),
        1 + (1 << 9) + (1 << 18) + (1 << 27),
    );
    Ok(())
}
