//! The MSRs that are granted to a subject.
ghost use Rattle.std.specs.Prelude.{◌≡◌, true, map, IfOk};
ghost use Rattle.std.specs.List.{list_all};
ghost use Rattle.expand_grants.specs.ByIndex.{fits_msrs};
ghost use Rattle.expand_grants.specs.Resources.{msr_grant};

use muen_num::{NoMemory, Seq};
use policy_lawful::MsrGrant;
use policy_lawful::source::Msrs;
use std::alloc::Global;

fn msr_grant(msrs: &Msrs) -> MsrGrant
    requires { fits_msrs msrs.now ≡ true }
    ensures { result ≡ msr_grant msrs.now }
{
    MsrGrant {
        start: msrs.start as u32,
        end: msrs.end as u32,
        read: msrs.rights.read,
        write: msrs.rights.write,
    }
}

/// The grants of these ranges of MSRs, in order.
///
/// Answers `NoMemory` where memory was refused.
pub(crate) fn msr_grants(alloc: Global, ranges: &[Msrs]) -> Result<Seq<MsrGrant>, NoMemory>
    requires { list_all fits_msrs ranges.now ≡ true }
    ensures { IfOk result (λ grants. grants ≡ map msr_grant ranges.now) }
{
    let mut grants = Seq::new(alloc);
    for range in ranges {
        grants.push(msr_grant(range))?;
    }
    Ok(grants)
}
