ghost use Rattle.std.specs.Prelude.{◌≡◌, ◌≤◌, ◌++◌, take};
ghost use Rattle.muen_num.specs.Tag.{part_text, tag_text};

use crate::name::Name;
use crate::text::append;
use std::fmt;

/// Which part of its owner a region of memory is.
#[derive(Clone, Copy, Debug, PartialEq, Eq)]
pub enum TagPart {
    /// The whole of a memory region or channel.
    Whole,
    /// What its owner knows under this name: a provided region, or a device's memory.
    Named(Name),
    /// A subject's state page.
    State,
    /// A subject's EPT tables.
    Ept,
    /// A subject's I/O bitmaps.
    Iobm,
    /// A subject's MSR bitmap.
    Msrbm,
    /// A subject's MSR area.
    Msrs,
}

/// The printed name of a region of memory.
#[derive(Clone, Copy, Debug, PartialEq, Eq)]
pub struct Tag {
    pub owner: Name,
    pub part: TagPart,
}

impl Tag {
    /// Writes the name as it is printed, at most 127 bytes, and answers its length.
    pub fn write(&self, out: &mut [u8; 128]) -> usize
        ensures within { result ≤ 127 }
        ensures text { take result out.new ≡ tag_text self.now }
    {
        let at = append(out, 0, self.owner.bytes());
        append_part(out, at, &self.part)
    }

    /// The printed name in three pieces: the owner, what stands behind it, and the name of the
    /// part, empty where it has none.
    pub fn pieces(&self) -> (&str, &str, &str)
        ensures { result.0.now ++ (result.1.now ++ result.2.now) ≡ tag_text self.now }
    {
        let owner = self.owner.as_str();
        match &self.part {
            TagPart::Whole => (owner, "", ""),
            TagPart::Named(name) => (owner, "|", name.as_str()),
            TagPart::State => (owner, ":state", ""),
            TagPart::Ept => (owner, ":ept", ""),
            TagPart::Iobm => (owner, ":iobm", ""),
            TagPart::Msrbm => (owner, ":msrbm", ""),
            TagPart::Msrs => (owner, ":msrs", ""),
        }
    }
}

/// A tag is written as its printed name.
impl fmt::Display for Tag {
    ghost use Rattle.std.specs.Prelude.{Some};
    ghost use Rattle.muen_num.specs.Tag.{tag_text};

    ghost output = { λ tag. Some (tag_text tag) };

    fn fmt<W: fmt::Write>(&self, f: &mut fmt::Formatter<W>) -> fmt::Result {
        let (owner, between, name) = self.pieces();
        write!(f, "{owner}{between}{name}")
    }
}

fn append_part(out: &mut [u8; 128], at: usize, part: &TagPart) -> usize
    requires { at ≤ 63 }
    ensures within { result ≤ 127 }
    ensures text { take result out.new ≡ take at out.old ++ part_text part.now }
{
    match part {
        TagPart::Whole => at,
        TagPart::Named(name) => {
            let at = append(out, at, b"|");
            append(out, at, name.bytes())
        }
        TagPart::State => append(out, at, b":state"),
        TagPart::Ept => append(out, at, b":ept"),
        TagPart::Iobm => append(out, at, b":iobm"),
        TagPart::Msrbm => append(out, at, b":msrbm"),
        TagPart::Msrs => append(out, at, b":msrs"),
    }
}
