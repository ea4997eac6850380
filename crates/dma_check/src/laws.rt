//! What a verdict on tables tells. The function here carries the laws; no command calls it.
ghost use Rattle.std.specs.Prelude.{◌≡◌, None, Some};
ghost use Rattle.dma_check.specs.Sound.{AreSound, HasOnePathPerTable};
ghost use Rattle.dma_check.specs.Verdict.{ReachAsDeclared, listing_fault, of_tables, verdict};
ghost use Rattle.dma_check.specs.Views.{view_of};
ghost use Rattle.dma_check.specs.declared.fault.FaultKind.TheVariants.{Twice};
ghost use Rattle.dma_check.specs.declared.fault.TableFault.{TableFault};
ghost use Rattle.dma_tables.specs.DmaConditions.{KeepsConditions};
ghost use Rattle.dma_tables.specs.declared.file.DmaFile.{DmaFile};
ghost use Rattle.image_pack.specs.declared.parts.Image.{Image};
ghost use Rattle.policy_lawful.specs.Lawful.{IsLawful};
ghost use Rattle.policy_lawful.specs.source.Source.{Source};

/// What a verdict on tables tells, for every policy and image. A policy, an image and tables have one,
/// since it is a function of them.
#[tactic(auto, using(crate::proofs::Listings::sound_tables, crate::proofs::Listings::sound_paths, crate::proofs::Listings::reaches, crate::proofs::Listings::no_verdict, crate::proofs::Listings::unsound_tables))]
pub fn verdicts_tell()
    // without a fault the tables are sound: each of the 65,536 sources reads and writes where it is declared, and nowhere else,
    ensures sound { (p : Source) (i : Image) (t : DmaFile) → verdict p i t ≡ None → AreSound (view_of p i t) }
    // and each of them is come to on one path;
    ensures one_path { (p : Source) (i : Image) (t : DmaFile) → verdict p i t ≡ None → HasOnePathPerTable (view_of p i t) }
    // so each device of a lawful policy, by its name, reads and writes where it is declared, and nowhere else
    ensures devices { (p : Source) (i : Image) (t : DmaFile) → IsLawful p → KeepsConditions t → verdict p i t ≡ None → ReachAsDeclared p i t }
    // sound tables of which each is come to on one path have none, where the list of devices has none
    ensures complete { (p : Source) (i : Image) (t : DmaFile) → listing_fault p t ≡ None → AreSound (view_of p i t) → HasOnePathPerTable (view_of p i t) → verdict p i t ≡ None }
    // any other fault of tables than that one is come to on two paths tells that they aren't sound
    ensures unsound { (p : Source) (i : Image) (t : DmaFile) (f : TableFault) → verdict p i t ≡ Some (of_tables f) → AreSound (view_of p i t) → f.kind ≡ Twice }
{}
