//! The parts of a line of the text.
ghost use Rattle.std.specs.Prelude.{◌≡◌, ◌+◌, ◌≤◌, ◌++◌, codes, take, unwrap_or};

use crate::loss::Loss;
use muen_num::text::{append, append_decimal, append_decimal32, append_hex16};
use muen_num::{Name, Tag};
use muen_outside::PrintedLine;

// Writes the name of a device, or `?`, behind the number of a tick.
fn append_device(space: &mut [u8; 256], at: usize, device: &Option<Name>) -> usize
    requires { at ≤ 11 }
    ensures end { result ≤ at + 63 }
    ensures text { take result space.new ≡ take at space.old ++ unwrap_or device.now (codes "?") }
{
    match device {
        Some(name) => append(space, at, name.bytes()),
        None => append(space, at, b"?"),
    }
}

/// What stands before what a line did.
#[derive(Clone, Copy)]
pub(crate) struct HeadText {
    pub tick: u32,
    /// `None` where the image hasn't the device.
    pub device: Option<Name>,
    /// An address of the device's own.
    pub addr: u64,
    /// In bytes.
    pub count: u64,
}

impl PrintedLine for HeadText {
    ghost use Rattle.dma_lines.specs.LinesText.{head_text};

    ghost text = { λ l. head_text l.tick l.device l.addr l.count };

    #[tactic(auto, unfolding(crate::specs::LinesText::head_text))]
    fn write(&self, space: &mut [u8; 256]) -> usize {
        let at = append_decimal32(space, 0, self.tick);
        let at = append(space, at, b" ");
        let at = append_device(space, at, &self.device);
        let at = append(space, at, b" ");
        let at = append_hex16(space, at, self.addr);
        let at = append(space, at, b" ");
        append_decimal(space, at, self.count)
    }
}

/// What is written in one page.
#[derive(Clone, Copy)]
pub(crate) struct PieceText {
    /// The physical address of the first byte.
    pub at: u64,
    /// In bytes.
    pub count: u64,
    /// The name of what has the first byte.
    pub region: Tag,
}

impl PrintedLine for PieceText {
    ghost use Rattle.dma_lines.specs.LinesText.{piece_text};

    ghost text = { λ l. piece_text l.at l.count l.region };

    #[tactic(auto, unfolding(crate::specs::LinesText::piece_text))]
    fn write(&self, space: &mut [u8; 256]) -> usize {
        let mut name = [0u8; 128];
        let len = self.region.write(&mut name);
        let at = append(space, 0, b" ");
        let at = append_hex16(space, at, self.at);
        let at = append(space, at, b" ");
        let at = append_decimal(space, at, self.count);
        let at = append(space, at, b" ");
        append(space, at, &name[..len])
    }
}

/// Where a line was dropped.
#[derive(Clone, Copy)]
pub(crate) struct LostText {
    /// The device's address of the byte that goes nowhere.
    pub at: u64,
    pub why: Loss,
}

impl PrintedLine for LostText {
    ghost use Rattle.dma_lines.specs.LinesText.{lost_text};

    ghost text = { λ l. lost_text l.at l.why };

    #[tactic(auto, unfolding(crate::specs::LinesText::lost_text))]
    fn write(&self, space: &mut [u8; 256]) -> usize {
        let at = append(space, 0, b" dropped at ");
        let at = append_hex16(space, at, self.at);
        let at = append(space, at, b": ");
        append(space, at, self.why.word())
    }
}
