//! The image that is made of a placed policy is sound for the policy, and it is the only one.
//!
//! The functions here carry the laws; no command calls one. The definitions of what else holds of such
//! an image stand in specs/ (`Built`).
#![tactic(auto)]

ghost use Rattle.proof_build.specs.Laws.{ImagesAreOne, ImagesAreSound, KernelSpansAreOwn, NoTableIsSpare, PagesAreGreatest, PagesHaveTheirTypes, SpansAreThePolicys, TablesHaveOnePath, WalksAscend};

/// An image that is made of a placed policy, whose regions hold what the policy says over some files, where
/// each file that contents name is held, is sound for the policy and these files.
pub fn images_of_policies_are_sound()
    ensures { ImagesAreSound }
{}

/// Its spans are the policy's regions where the policy's placement has them, and the devices' memory; the
/// numbers of a subject's part are those of the kernel's regions for this subject; no table is read at two
/// paths, along a walk tables ascend, and what no walk reads of them is zero; and each window is mapped by
/// the greatest pages that it allows, with the memory type of what it shows.
pub fn images_of_policies_are_laid_out()
    ensures spans { SpansAreThePolicys }
    ensures kernel { KernelSpansAreOwn }
    ensures paths { TablesHaveOnePath }
    ensures ascending { WalksAscend }
    ensures spare { NoTableIsSpare }
    ensures leaves { PagesAreGreatest }
    ensures types { PagesHaveTheirTypes }
{}

/// Of a policy and files there is one image: whatever placement of the policy an image is made of, and
/// whoever makes it, its parts are the same.
pub fn images_of_policies_are_one()
    ensures { ImagesAreOne }
{}
