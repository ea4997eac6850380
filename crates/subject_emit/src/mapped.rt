//! The windows of a subject as its tables map them.
ghost use Rattle.std.specs.Prelude.{◌≡◌, map, IfOk, All};
ghost use Rattle.expand_kernel.specs.Numbered.{IsWhole};
ghost use Rattle.expand_kernel.specs.Numbered.{caching_of};
ghost use Rattle.subject_emit.specs.Mapped.{leaf_for, mapped};

use ept_emit::{Leaf, Window};
use expand_kernel::GrantedWindow;
use machine_layout::entries::HUGE_PAGE;
use muen_num::NoMemory;
use muen_num::limits::LARGE_PAGE;
use policy_lawful::{Caching, Resolved, ThingIndex};
use region_alloc::Placed;
use std::alloc::Global;

// The greatest page that can map a guest address to a physical address.
fn leaf_for(guest: u64, address: u64) -> Leaf
    ensures { result ≡ leaf_for guest address }
{
    if guest % HUGE_PAGE == address % HUGE_PAGE {
        return Leaf::Huge;
    }
    if guest % LARGE_PAGE == address % LARGE_PAGE {
        return Leaf::Large;
    }
    Leaf::Small
}

// The memory type of what has this number.
fn caching_of(policy: &Resolved, thing: ThingIndex) -> Caching
    ensures { result ≡ caching_of policy.now thing }
{
    match thing {
        ThingIndex::Declared(number) => match policy.things().get(number) {
            None => Caching::Wb,
            Some(thing) => thing.caching,
        },
        ThingIndex::State(_) => Caching::Wb,
    }
}

#[tactic(auto, using(crate::proofs::Wholes::whole_there))]
fn mapped(placed: &Placed, window: &GrantedWindow) -> Window
    requires { IsWhole placed.now.expanded.lawful window.now }
    ensures { result ≡ mapped placed.now window.now }
{
    let policy = placed.expanded().lawful().resolved();
    let address = placed.address_of(window.thing);
    Window {
        guest: window.guest,
        size: window.size,
        address,
        rights: window.rights,
        caching: caching_of(policy, window.thing),
        leaf: leaf_for(window.guest, address),
    }
}

/// Windows where what they show lies.
pub(crate) fn mapped_windows(
    alloc: Global,
    placed: &Placed,
    granted: &[GrantedWindow],
) -> Result<Vec<Window>, NoMemory>
    requires { All (IsWhole placed.now.expanded.lawful) granted.now }
    ensures { IfOk result (λ v. v.items ≡ map (mapped placed.now) granted.now) }
{
    let mut windows = Vec::new(alloc);
    for window in granted {
        windows.push(mapped(placed, window))?;
    }
    Ok(windows)
}
