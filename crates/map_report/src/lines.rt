//! The lines of a map.
ghost use Rattle.std.specs.Prelude.{◌≡◌, ◌+◌, ◌≤◌, ◌++◌, length};
ghost use Rattle.map_report.specs.Lines.{laid_word};
ghost use Rattle.map_report.specs.MapText.{rights_text};

use muen_num::text::{append, append_hex16};
use muen_num::{Name, Tag};
use muen_outside::PrintedLine;
use policy_lawful::Rights;

fn rights_text(rights: Rights) -> &'static [u8]
    ensures value { result.now ≡ rights_text rights }
    ensures within { length result.now ≤ 3 }
{
    match rights {
        Rights::R => b"r",
        Rights::Rw => b"rw",
        Rights::Rx => b"rx",
        Rights::Rwx => b"rwx",
    }
}

/// What lies at an address in physical memory.
#[derive(Clone, Copy)]
pub(crate) enum Laid {
    /// A region.
    Region,
    /// A device's memory.
    Device,
}

fn laid_word(laid: Laid) -> &'static [u8]
    ensures value { result.now ≡ laid_word laid }
    ensures within { length result.now ≤ 6 }
{
    match laid {
        Laid::Region => b"region",
        Laid::Device => b"device",
    }
}

/// The line of a region, or of a device's memory.
#[derive(Clone, Copy)]
pub(crate) struct RegionLine {
    pub laid: Laid,
    pub address: u64,
    /// In bytes.
    pub size: u64,
    pub tag: Tag,
}

impl PrintedLine for RegionLine {
    ghost use Rattle.map_report.specs.MapText.{region_line};
    ghost use Rattle.map_report.specs.Lines.{laid_word};

    ghost text = { λ l. region_line (laid_word l.laid) l.address l.size l.tag };

    #[tactic(auto, unfolding(crate::specs::MapText::region_line))]
    fn write(&self, space: &mut [u8; 256]) -> usize {
        let mut name = [0u8; 128];
        let len = self.tag.write(&mut name);
        let at = append(space, 0, laid_word(self.laid));
        let at = append(space, at, b" ");
        let at = append_hex16(space, at, self.address);
        let at = append(space, at, b" ");
        let at = append_hex16(space, at, self.size);
        let at = append(space, at, b" ");
        let at = append(space, at, &name[..len]);
        append(space, at, b"\n")
    }
}

/// The line of a window.
#[derive(Clone, Copy)]
pub(crate) struct WindowLine {
    pub subject: Name,
    pub guest: u64,
    /// In bytes.
    pub size: u64,
    pub rights: Rights,
    /// The name of what it shows.
    pub tag: Tag,
}

impl PrintedLine for WindowLine {
    ghost use Rattle.map_report.specs.MapText.{window_line};

    ghost text = { λ l. window_line l.subject l.guest l.size l.rights l.tag };

    #[tactic(auto, unfolding(crate::specs::MapText::window_line))]
    fn write(&self, space: &mut [u8; 256]) -> usize {
        let mut name = [0u8; 128];
        let len = self.tag.write(&mut name);
        let at = append(space, 0, b"window ");
        let at = append(space, at, self.subject.bytes());
        let at = append(space, at, b" ");
        let at = append_hex16(space, at, self.guest);
        let at = append(space, at, b" ");
        let at = append_hex16(space, at, self.size);
        let at = append(space, at, b" ");
        let at = append(space, at, rights_text(self.rights));
        let at = append(space, at, b" ");
        let at = append(space, at, &name[..len]);
        append(space, at, b"\n")
    }
}
