//! The MSR bitmap.
ghost use Rattle.std.specs.Prelude.{◌≡◌, ◌&&◌, ℕ, Bool, not, IsTrue, length};
ghost use Rattle.std.specs.List.{list_all};
ghost use Rattle.machine_layout.specs.Exits.{msr_exits};
ghost use Rattle.msrbm_emit.specs.Msrs.{is_covered};
ghost use Rattle.policy_types.specs.MsrGrants.{allows, has_msr, is_granted};

use machine_layout::{clear_bits, msr_bit, set_all};
use muen_num::limits::PAGE;
use policy_types::MsrGrant;

// What a grant allows.
fn is_allowed(grant: &MsrGrant, write: bool) -> bool
    ensures { result ≡ allows grant.now write }
{
    if write { grant.write } else { grant.read }
}

// Clears the bits of a grant for reads or for writes, if it allows them.
fn allow(bitmap: &mut [u8], grant: &MsrGrant, write: bool)
    requires page { length bitmap.old ≡ PAGE }
    requires covered { IsTrue (is_covered grant.now) }
    ensures same { (index : ℕ) → msr_exits bitmap.new index write
        ≡ (msr_exits bitmap.old index write && not (has_msr grant.now index && allows grant.now write)) }
    ensures other { (index : ℕ) → msr_exits bitmap.new index (not write) ≡ msr_exits bitmap.old index (not write) }
{
    if !is_allowed(grant, write) {
        return;
    }
    let Some(first) = msr_bit(grant.start, write) else {
        return;
    };
    let count = (grant.end - grant.start) as usize + 1;
    clear_bits(bitmap, first, first + count);
}

/// Writes the MSR bitmap, a page, whatever stood there before. A read or a write of an MSR doesn't
/// exit where one of the grants has the MSR and allows it; every other access exits, and so does an
/// MSR outside both ranges of the bitmap. Each grant lies in one of them, and isn't empty.
pub fn emit(msrs: &[MsrGrant], bitmap: &mut [u8])
    requires page { length bitmap.old ≡ PAGE }
    requires covered { IsTrue (list_all is_covered msrs.now) }
    ensures { (index : ℕ) (write : Bool) → msr_exits bitmap.new index write ≡ not (is_granted msrs.now index write) }
{
    set_all(bitmap);
    for grant in msrs {
        allow(bitmap, grant, false);
        allow(bitmap, grant, true);
    }
}
