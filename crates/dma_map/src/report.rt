//! The text of the windows of devices.
ghost use Rattle.std.specs.Prelude.{◌≡◌, []};
ghost use Rattle.muen_outside.specs.Puts.{Puts};
ghost use Rattle.dma_map.specs.DmaMapText.{windows_text};
ghost use Rattle.dma_map.specs.Told.{LeadAsTold, LeadNowhereElse, RiseApart};
ghost use Rattle.region_alloc.specs.Placed.{IsPlaced, Placement};

use crate::window::DeviceWindow;
use muen_outside::{Buffer, BufferedSink, Sink, SinkFault};

/// Puts a line for each window of a device: `window DEVICE ADDR PHYSICAL SIZE RIGHTS REGION`.
/// Addresses and sizes have sixteen hexadecimal digits. The text goes through the buffer, in which
/// nothing may wait before, and takes no memory. Where the sink fails it has a front of the text.
#[tactic(auto, using(muen_outside::proofs::Buffered::gives), unfolding(crate::specs::DmaMapText::windows_text))]
pub fn dma_map_text<S: Sink>(
    windows: &[DeviceWindow],
    buffer: &mut Buffer,
    out: &mut S,
) -> Result<(), SinkFault>
    requires { buffer.old ≡ [] }
    ensures { Puts (windows_text windows.now) (S.state out.old) (S.state out.new) result }
{
    let mut out = BufferedSink { buffer, sink: out };
    out.put_lines(windows)?;
    out.flush()
}

/// What the windows tell of a policy whose regions are placed.
pub fn device_windows_told()
    // Those of a device share no address, and each ends before the next one.
    ensures rise { (x : Placement) → IsPlaced x → RiseApart x }
    // What the policy declares for a device leads through each window to the physical address that is told.
    ensures lead { (x : Placement) → IsPlaced x → LeadAsTold x }
    // And by no other address does the device reach anything.
    ensures nowhere { (x : Placement) → IsPlaced x → LeadNowhereElse x }
{}
