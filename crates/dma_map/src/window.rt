//! A window of a device, and its line.
ghost use Rattle.std.specs.Prelude.{◌≡◌, ◌≤◌, length};
ghost use Rattle.map_report.specs.MapText.{rights_text};

use muen_num::text::{append, append_hex16};
use muen_num::{Name, Tag};
use muen_outside::PrintedLine;
use policy_lawful::Rights;

fn rights_text(rights: Rights) -> &'static [u8]
    ensures value { result.now ≡ rights_text rights }
    ensures within { length result.now ≤ 3 }
{
    match rights {
        Rights::R => b"r",
        Rights::Rw => b"rw",
        Rights::Rx => b"rx",
        Rights::Rwx => b"rwx",
    }
}

/// A window through which a device reaches a region of memory by itself.
#[derive(Clone, Copy, Debug)]
pub struct DeviceWindow {
    /// The name of the device.
    pub device: Name,
    /// An address of the device's own.
    pub addr: u64,
    /// The physical address of the region.
    pub physical: u64,
    /// In bytes.
    pub size: u64,
    pub rights: Rights,
    /// The name of the region.
    pub region: Tag,
}

impl PrintedLine for DeviceWindow {
    ghost use Rattle.dma_map.specs.DmaMapText.{window_line};

    ghost text = { window_line };

    #[tactic(auto, unfolding(crate::specs::DmaMapText::window_line))]
    fn write(&self, space: &mut [u8; 256]) -> usize {
        let mut name = [0u8; 128];
        let len = self.region.write(&mut name);
        let at = append(space, 0, b"window ");
        let at = append(space, at, self.device.bytes());
        let at = append(space, at, b" ");
        let at = append_hex16(space, at, self.addr);
        let at = append(space, at, b" ");
        let at = append_hex16(space, at, self.physical);
        let at = append(space, at, b" ");
        let at = append_hex16(space, at, self.size);
        let at = append(space, at, b" ");
        let at = append(space, at, rights_text(self.rights));
        let at = append(space, at, b" ");
        let at = append(space, at, &name[..len]);
        append(space, at, b"\n")
    }
}
