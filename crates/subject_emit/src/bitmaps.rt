//! The pages that the kernel keeps for a subject beside its tables, a page each or two.
ghost use Rattle.std.specs.Prelude.{◌≡◌, ◌*◌, ◌≤◌, ℕ, not, Bool, IfOk, IsTrue, length, take, drop};
ghost use Rattle.std.specs.List.{list_all};
ghost use Rattle.iobm_emit.specs.Ports.{is_granted_access};
ghost use Rattle.machine_layout.specs.Exits.{area_bytes, msr_exits, port_exits};
ghost use Rattle.msrbm_emit.specs.Area.{area_of, msr_count};
ghost use Rattle.msrbm_emit.specs.Msrs.{is_covered};
ghost use Rattle.policy_lawful.specs.MsrGrants.{is_granted};
ghost use Rattle.machine_layout.specs.PageFields.{padded};
ghost use Rattle.state_page.specs.StatePage.{page_bytes};
ghost use Rattle.state_page.specs.States.{started};

use muen_num::limits::{MOST_MSRS, PAGE};
use muen_num::{NoMemory, Seq};
use policy_lawful::{MsrGrant, PortRange};
use state_page::SubjectState;
use std::alloc::{AllocError, Global};

fn blank_page(alloc: Global) -> Result<Vec<u8>, AllocError>
    ensures { IfOk result (λ page. length page.items ≡ PAGE) }
{
    vec![in alloc; 0u8; PAGE as usize]
}

/// The state page with which a subject with this entry begins.
///
/// Answers `NoMemory` where memory was refused, as all here.
pub(crate) fn first_state(alloc: Global, entry: u64) -> Result<Seq<u8>, NoMemory>
    ensures { IfOk result (λ page. page ≡ page_bytes (started entry)) }
{
    let mut page = blank_page(alloc)?;
    state_page::write(&SubjectState::start(entry), page.as_mut_slice());
    Ok(Seq::of(page))
}

/// I/O bitmap A and then B, for these granted ports.
pub(crate) fn port_bitmaps(alloc: Global, ports: &[PortRange]) -> Result<Seq<u8>, NoMemory>
    ensures len { IfOk result (λ bitmaps. length bitmaps ≡ 2 * PAGE) }
    ensures exits { IfOk result (λ bitmaps. (port size : ℕ) → port_exits (take PAGE bitmaps) (drop PAGE bitmaps) port size ≡ not (is_granted_access ports.now port size)) }
{
    let mut a = blank_page(alloc)?;
    let mut b = blank_page(alloc)?;
    iobm_emit::emit(ports, a.as_mut_slice(), b.as_mut_slice());
    a.extend_from_slice(&b)?;
    Ok(Seq::of(a))
}

/// The MSR bitmap for these grants.
pub(crate) fn msr_bitmap(alloc: Global, msrs: &[MsrGrant]) -> Result<Seq<u8>, NoMemory>
    requires { IsTrue (list_all is_covered msrs.now) }
    ensures len { IfOk result (λ bitmap. length bitmap ≡ PAGE) }
    ensures exits { IfOk result (λ bitmap. (index : ℕ) (write : Bool) → msr_exits bitmap index write ≡ not (is_granted msrs.now index write)) }
{
    let mut bitmap = blank_page(alloc)?;
    msrbm_emit::emit(msrs, bitmap.as_mut_slice());
    Ok(Seq::of(bitmap))
}

/// The MSR area for these grants.
pub(crate) fn msr_area(alloc: Global, msrs: &[MsrGrant]) -> Result<Seq<u8>, NoMemory>
    requires { msr_count msrs.now ≤ MOST_MSRS }
    ensures { IfOk result (λ area. area ≡ padded PAGE (area_bytes (area_of msrs.now))) }
{
    let mut area = blank_page(alloc)?;
    msrbm_emit::emit_area(msrs, area.as_mut_slice());
    Ok(Seq::of(area))
}
