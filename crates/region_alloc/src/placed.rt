//! Policies whose regions are placed.
ghost use Rattle.std.specs.Prelude.{◌≡◌, Ok, unwrap_or};
ghost use Rattle.policy_lawful.specs.Resolution.{source_of};
ghost use Rattle.region_alloc.specs.Placed.{AreDisjoint, AreInside, IsPlaced, IsThere, address_of};
ghost use Rattle.region_alloc.specs.Placement.{placement_of};

use expand_kernel::Expanded;
use muen_num::Seq;
use policy_lawful::{Thing, ThingIndex};
use std::marker::Model;

/// A lawful policy with all that follows from it, and the address of each region.
#[derive(Debug, Drop)]
pub struct Placed {
    expanded: Expanded,
    addresses: Seq<u64>,
}

impl Model for Placed {
    ghost use Rattle.region_alloc.specs.Placed.{IsPlaced, Placement};

    ghost Value = { Placement };

    ghost view = { λ p. record { expanded = p.expanded; addresses = p.addresses } };

    ghost invariant = { λ p. IsPlaced (record { expanded = p.expanded; addresses = p.addresses }) };
}

impl Placed {
    // The policy with all that follows from it but addresses, and the address of each region.
    pub(crate) fn of(expanded: Expanded, addresses: Seq<u64>) -> Placed
        requires { IsPlaced (record { expanded = expanded; addresses = addresses }) }
        ensures { result.expanded ≡ expanded }
    {
        Placed {
            expanded,
            addresses,
        }
    }

    /// The policy with all that follows from it but addresses.
    pub fn expanded(&self) -> &Expanded
        ensures value { result.now ≡ self.now.expanded }
        ensures placed { IsPlaced self.now }
    {
        &self.expanded
    }

    /// The address of each region, by number. Each region lies inside one memory block, and no two
    /// share an address.
    pub fn addresses(&self) -> &[u64]
        ensures value { result.now ≡ self.now.addresses }
        ensures placement { placement_of (source_of self.now.expanded.lawful) ≡ Ok result.now }
        ensures inside { AreInside self.now.expanded.lawful.memory_blocks self.now.expanded.regions result.now }
        ensures disjoint { AreDisjoint self.now.expanded.regions result.now }
    {
        self.addresses.items()
    }

    /// Where what has this number lies.
    pub fn address_of(&self, thing: ThingIndex) -> u64
        requires { IsThere self.now.expanded.lawful thing }
        ensures { result ≡ address_of self.now thing }
    {
        let addresses = self.addresses();
        match thing {
            ThingIndex::Declared(number) => {
                let policy = self.expanded().lawful().resolved();
                let placed = policy.placed_things().len();
                if number < placed {
                    return addresses[number];
                }
                fixed_address(&policy.device_things()[number - placed])
            }
            ThingIndex::State(subject) => addresses[self.expanded().kernel_first(subject)],
        }
    }
}

// Where a thing has to be; 0, where it may be anywhere.
fn fixed_address(thing: &Thing) -> u64
    ensures { result ≡ unwrap_or thing.now.fixed 0 }
{
    match thing.fixed {
        None => 0,
        Some(address) => address,
    }
}
