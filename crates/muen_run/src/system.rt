//! Systems that are ready to run.
ghost use Rattle.std.specs.Prelude.{◌≡◌, []};
ghost use Rattle.image_load.specs.Memory.{AreLow};

use ept_walk::CachedWalk;
use image_pack::SpanPart;
use kernel_core::Kernel;
use muen_num::Seq;
use muen_outside::Buffer;
use phys_mem::FrameMem;

/// The kernel of a system on a memory that finds pages by tables, and a walk that keeps translations.
pub type Running = Kernel<FrameMem, CachedWalk>;

/// A system that is ready to run on what reaches its machine.
#[derive(Drop)]
pub struct Ready {
    /// The kernel.
    pub kernel: Running,
    /// The spans of memory, whose digests are printed in the end.
    pub spans: Seq<SpanPart>,
    pub(crate) buffer: Buffer,
    ghost low: { AreLow spans },
    ghost empty: { buffer ≡ [] },
}
