//! The area of MSRs.
ghost use Rattle.std.specs.Prelude.{◌≡◌, ℕ, ◌+◌, ◌-◌, ◌*◌, ◌≤◌, List, ◌++◌, length};
ghost use Rattle.machine_layout.specs.Exits.{area_bytes, entry_bytes, entry_size};
ghost use Rattle.machine_layout.specs.PageFields.{padded};
ghost use Rattle.msrbm_emit.specs.Area.{area_of, msr_count, grant_area_entries, zero_area_entry, size_of};

use machine_layout::{AREA_ENTRY, AREA_VALUE, clear_all, put_word};
use muen_num::limits::{MOST_MSRS, PAGE};
use policy_types::MsrGrant;

// Puts an entry behind those that are there.
fn put_entry(area: &mut [u8], at: usize, index: u32)
    requires { at + entry_size ≤ length area.old }
    ensures { (front : List ℕ) → length front ≡ at → area.old ≡ padded (length area.old) front
        → area.new ≡ padded (length area.old) (front ++ entry_bytes (zero_area_entry index)) }
{
    put_word(area, at, u64::from(index));
    put_word(area, at + AREA_VALUE as usize, 0);
}

// Puts the entries of a grant behind those that are there, and tells where they end.
fn put_entries(area: &mut [u8], at: usize, grant: &MsrGrant) -> usize
    requires { at + entry_size * size_of grant.now ≤ length area.old }
    ensures end { result ≡ at + entry_size * size_of grant.now }
    ensures area { (front : List ℕ) → length front ≡ at → area.old ≡ padded (length area.old) front
        → area.new ≡ padded (length area.old) (front ++ area_bytes (grant_area_entries grant.now)) }
{
    let mut end = at;
    for index in grant.start..=grant.end {
        put_entry(area, end, index);
        end += AREA_ENTRY as usize;
    }
    end
}

/// Writes the area of MSRs, a page, whatever stood there before: an entry with the value 0 for each
/// granted MSR, in the grants' order and ascending in each, and zeros behind them. There are at most
/// 64 granted MSRs.
pub fn emit_area(msrs: &[MsrGrant], area: &mut [u8])
    requires page { length area.old ≡ PAGE }
    requires few { msr_count msrs.now ≤ MOST_MSRS }
    ensures { area.new ≡ padded PAGE (area_bytes (area_of msrs.now)) }
{
    clear_all(area);
    let mut end = 0;
    for grant in msrs {
        end = put_entries(area, end, grant);
    }
}
