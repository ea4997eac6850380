//! The image of a document's policy.
ghost use Rattle.std.specs.Prelude.{◌≡◌, ℕ, IfErr, IfOk, List, Ok};
ghost use Rattle.std.specs.FinMap.{insert};
ghost use Rattle.proof_build.specs.Built.{HasGreatestPages, HasKernelSpans, HasMemoryTypes, HasNoSpareTables, HasSpans, IsMadeFor, TablesAscend};
ghost use Rattle.proof_build.specs.Paths.{HasOnePathPerTable};
ghost use Rattle.proof_build.specs.Sound.{ForEachSubject, IsSound};
ghost use Rattle.muen_build.specs.Accepting.{Accepts, FailsWith, looks_of};
ghost use Rattle.muen_build.specs.Building.{Builds};
ghost use Rattle.muen_build.specs.ImageFor.{IsImageFor};
ghost use Rattle.muen_build.specs.Refusals.{lawful_policy_of};
ghost use Rattle.muen_outside.specs.Looks.{ShowAll};
ghost use Rattle.muen_outside.specs.Store.{Store};
ghost use Rattle.policy_lawful.specs.Resolution.{source_of};
ghost use Rattle.policy_lawful.specs.source.Source.{Source};

use crate::accept;
use crate::accepted::{Accepted, BuildError, ComponentFiles};
use crate::given::Given;
use crate::things::things;
use image_emit::emit;
use image_pack::{Parts, pack};
use muen_num::NoMemory;
use muen_outside::Files;
use region_alloc::Placed;
use std::alloc::Global;

// The parts of the image of a policy that is accepted with these files.
fn parts(
    alloc: Global,
    name: &str,
    document: &[u8],
    placed: &Placed,
    found: &ComponentFiles,
) -> Result<Parts, NoMemory>
    requires lawful { lawful_policy_of document.now ≡ Ok (source_of placed.now.expanded.lawful) }
    requires accepts { Accepts name.now (looks_of found.now) document.now (source_of placed.now.expanded.lawful) }
    ensures made { IfOk result (λ i. (files : Store) → ShowAll files (looks_of found.now) → IsMadeFor (source_of placed.now.expanded.lawful) (insert files name.now document.now) i) }
    ensures sound { IfOk result (λ i. (files : Store) → ShowAll files (looks_of found.now) → IsSound (source_of placed.now.expanded.lawful) (insert files name.now document.now) i) }
    ensures spans { IfOk result (HasSpans (source_of placed.now.expanded.lawful)) }
    ensures kernel { IfOk result (λ i. ForEachSubject (source_of placed.now.expanded.lawful) i (HasKernelSpans i)) }
    ensures paths { IfOk result HasOnePathPerTable }
    ensures ascending { IfOk result (λ i. ForEachSubject (source_of placed.now.expanded.lawful) i (λ s q. TablesAscend i q)) }
    ensures spare { IfOk result (λ i. ForEachSubject (source_of placed.now.expanded.lawful) i (HasNoSpareTables i)) }
    ensures leaves { IfOk result (λ i. ForEachSubject (source_of placed.now.expanded.lawful) i (HasGreatestPages (source_of placed.now.expanded.lawful) i)) }
    ensures types { IfOk result (λ i. ForEachSubject (source_of placed.now.expanded.lawful) i (HasMemoryTypes (source_of placed.now.expanded.lawful) i)) }
{
    let expanded = placed.expanded();
    let policy = expanded.lawful().resolved();
    let given = [Given {
        name,
        bytes: document,
    }];
    let things = things(alloc, &given, found, policy)?;
    emit(alloc, placed, things)
}

/// The image of a policy that is accepted with these files, where its document stands under this
/// name.
///
/// Answers `NoMemory` where memory was refused.
pub fn image(
    alloc: Global,
    name: &str,
    document: &[u8],
    placed: &Placed,
    found: &ComponentFiles,
) -> Result<Vec<u8>, NoMemory>
    requires lawful { lawful_policy_of document.now ≡ Ok (source_of placed.now.expanded.lawful) }
    requires accepts { Accepts name.now (looks_of found.now) document.now (source_of placed.now.expanded.lawful) }
    ensures { IfOk result (λ image. (files : Store) → ShowAll files (looks_of found.now) → IsImageFor (source_of placed.now.expanded.lawful) (insert files name.now document.now) image.items) }
{
    let parts = parts(alloc, name, document, placed, found)?;
    let image = pack(alloc, &parts)?;
    Ok(image)
}

/// The image of the policy of a document, with the component files that its contents name. These
/// bytes stand for the policy's name. Files are looked at as `accept` does it.
///
/// Answers as `accept` does where the policy is refused or a look at files fails, and `NoMemory`
/// where memory was refused.
pub fn build<F: Files>(
    alloc: Global,
    name: &str,
    document: &[u8],
    files: &mut F,
) -> Result<Vec<u8>, BuildError>
    ensures builds { IfOk result (λ image. Builds name.now (F.held files.old) (F.history files.old) (F.history files.new) document.now image.items) }
    ensures err { IfErr result (FailsWith name.now document.now (F.held files.old) (F.history files.old) (F.history files.new)) }
    ensures held { F.held files.new ≡ F.held files.old }
{
    let Accepted {
        placed,
        files: found,
    } = accept(alloc, name, document, files)?;
    let image = image(alloc, name, document, &placed, &found);
    drop(placed);
    Ok(image?)
}

/// Of a policy and files there is one image: two builds of the policy over the same files have the same
/// bytes, whoever builds.
pub fn images_are_one()
    ensures { (policy : Source) (files : Store) (a b : List ℕ) → IsImageFor policy files a → IsImageFor policy files b → a ≡ b }
{}
