//! The placement of a policy's regions.
ghost use Rattle.std.specs.Prelude.{◌≡◌, ◌+◌, ◌≤◌, ◌<◌, ◌==◌, [], map, All, IfOk, IfErr, Ok};
ghost use Rattle.std.specs.List.{find};
ghost use Rattle.std.specs.Option.{option_copied};
ghost use Rattle.muen_num.specs.Answers.{Explains};
ghost use Rattle.muen_num.specs.Range.{numbers_below};
ghost use Rattle.muen_num.specs.declared.limits.TheConstants.{PHYSICAL_END};
ghost use Rattle.policy_lawful.specs.Resolution.{source_of};
ghost use Rattle.region_alloc.specs.Placed.{IsPlaced};
ghost use Rattle.region_alloc.specs.Placement.{address_in, no_room, no_room_for, placed_after, placement_in, placement_of};

use crate::gaps::{gaps_of, lowest, remaining_of};
use crate::placed::Placed;
use crate::spot::Spot;
use crate::turns::in_turn;
use expand_kernel::{Expanded, Region};
use muen_num::{NoMemory, Seq};
use policy_lawful::Refusal;
use policy_lawful::source::Block;
use std::alloc::Global;

// These regions, one after another: where each is placed.
fn place_each(
    alloc: Global,
    blocks: &[Block],
    turns: &[(usize, Region)],
) -> Result<Vec<Spot>, Refusal>
    requires blocks { All (λ b. b.physical_address + b.size ≤ PHYSICAL_END) blocks.now }
    requires regions { All (λ x. (0 < x.1.size) × (0 < x.1.alignment)) turns.now }
    ensures ok { IfOk result (λ v. placed_after blocks.now turns.now [] ≡ Ok v.items) }
    ensures err { IfErr result (Explains Refusal.NoMemory (no_room_for (placed_after blocks.now turns.now []))) }
{
    let mut gaps = gaps_of(alloc, blocks)?;
    let mut spots = Vec::new(alloc);
    for (number, region) in turns {
        match lowest(&gaps, region) {
            None => {
                return Err(Refusal::NoRoom {
                    region: region.tag,
                    size: region.size,
                });
            }
            Some(address) => {
                let spot = Spot {
                    number: *number,
                    address,
                    size: region.size,
                };
                gaps = remaining_of(alloc, &gaps, spot)?;
                spots.push(spot)?;
            }
        }
    }
    Ok(spots)
}

// Where the region of this number is placed.
fn spot_of(spots: &[Spot], number: usize) -> Option<&Spot>
    ensures { option_copied result ≡ find (λ q. q.number == number) spots.now }
{
    spots.iter().find(|spot| spot.number == number)
}

// The address of the region of this number; 0 if it is at none.
fn address_in(spots: &[Spot], number: usize) -> u64
    ensures { result ≡ address_in spots.now number }
{
    match spot_of(spots, number) {
        None => 0,
        Some(spot) => spot.address,
    }
}

// The addresses of so many regions, by number.
fn by_number(alloc: Global, spots: &[Spot], many: usize) -> Result<Seq<u64>, NoMemory>
    ensures { IfOk result (λ addresses. addresses ≡ map (address_in spots.now) (numbers_below many)) }
{
    let mut addresses = Seq::new(alloc);
    for number in 0..many {
        addresses.push(address_in(spots, number))?;
    }
    Ok(addresses)
}

// The addresses of these regions, by number.
#[tactic(auto, unfolding(crate::specs::Placement::placement_in))]
fn addresses_in(alloc: Global, blocks: &[Block], regions: &[Region]) -> Result<Seq<u64>, Refusal>
    requires blocks { All (λ b. b.physical_address + b.size ≤ PHYSICAL_END) blocks.now }
    requires regions { All (λ r. (0 < r.size) × (0 < r.alignment)) regions.now }
    ensures ok { IfOk result (λ addresses. placement_in blocks.now regions.now ≡ Ok addresses) }
    ensures err { IfErr result (Explains Refusal.NoMemory (no_room_for (placement_in blocks.now regions.now))) }
{
    let turns = in_turn(alloc, regions)?;
    match place_each(alloc, blocks, &turns) {
        Err(refusal) => Err(refusal),
        Ok(spots) => Ok(by_number(alloc, &spots, regions.len())?),
    }
}

// The addresses of a policy's regions, by number.
fn addresses_of(alloc: Global, expanded: &Expanded) -> Result<Seq<u64>, Refusal>
    ensures ok { IfOk result (λ addresses. placement_of (source_of expanded.now.lawful) ≡ Ok addresses) }
    ensures placed { IfOk result (λ addresses. IsPlaced (record { expanded = expanded.now; addresses = addresses })) }
    ensures err { IfErr result (Explains Refusal.NoMemory (no_room (source_of expanded.now.lawful))) }
{
    let policy = expanded.lawful().resolved();
    addresses_in(alloc, policy.memory_blocks(), expanded.regions())
}

/// Places the regions of a policy: those that have an address of their own, then the others by size
/// downwards and then by number, each at the lowest address of its alignment where it lies inside
/// one memory block and shares no address with a region that was placed before.
///
/// Answers `NoRoom` with the first region for which there is no such address, and `NoMemory` where
/// memory was refused.
pub fn place(alloc: Global, expanded: Expanded) -> Result<Placed, Refusal>
    ensures ok { IfOk result (λ p. p.expanded ≡ expanded) }
    ensures room { IfOk result (λ _. no_room (source_of expanded.lawful) ≡ None) }
    ensures err { IfErr result (Explains Refusal.NoMemory (no_room (source_of expanded.lawful))) }
{
    let addresses = addresses_of(alloc, &expanded)?;
    Ok(Placed::of(expanded, addresses))
}
