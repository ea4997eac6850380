//! Why bytes are no image.
ghost use Rattle.std.specs.Prelude.{◌≡◌};
ghost use Rattle.muen_num.specs.Pieces.{whole};
ghost use Rattle.binary_form.specs.declared.fault.FormError.TheVariants.{NoMemory as OutOfMemory};
ghost use Rattle.binary_form.specs.Faults.{IsFaultOf, IsErrorOf};
ghost use Rattle.binary_form.specs.FaultText.{fault_offset_text, field_text, image_fault_text, image_refused_at};

use itoa::Buffer;
use muen_num::{NoMemory, Pieces};
use std::alloc::{AllocError, AllocFailed};
use std::fmt;
use thiserror::Error;

/// Which field of an image isn't as it has to be.
#[derive(Clone, Copy, Debug, PartialEq, Eq)]
pub enum Field {
    /// The eight bytes that an image begins with: `MUENIMG1` or `MUENIMG2`.
    Magic,
    /// How many of something follow: in the header the logical CPUs, subjects, scheduling groups,
    /// major frames, devices and spans; in a major frame the minor frames of a CPU; in a device its
    /// port ranges, memories and IRQs.
    Count,
    /// Bytes that are 0 in each image, all that lie side by side: in the header, a span, a scheduling
    /// group, a subject, behind the count and the group of minor frames, in a device and in an IRQ.
    Zero,
    /// The physical address of a span's first byte.
    Place,
    /// How many pages of 4,096 bytes a span has.
    Pages,
    /// The number of a span, by which other parts name it.
    Number,
    /// Of which kind a span is. It is refused too where tau0 names a span that is no region of the
    /// policy, and at the last span where all spans together have too many pages.
    Kind,
    /// Which part of its owner a span is.
    Part,
    /// A name in 64 bytes: that of a span's owner, of a span's part (or the zeros in its place), of a
    /// subject, of a device or of an IRQ.
    Name,
    /// The number of the logical CPU of a scheduling group or of a subject.
    Cpu,
    /// The number of the subject that is a scheduling group's first member.
    First,
    /// The number of the scheduling group of a subject or of a minor frame.
    Group,
    /// How many entries a subject's MSR area has.
    Msrs,
    /// The number of a span that another part names: the header that of tau0, a subject those of its
    /// state page, I/O bitmaps, MSR bitmap and MSR area, a device those of its memories.
    Span,
    /// A subject's extended-page-table pointer (Intel SDM volume 3).
    Eptp,
    /// What a call or a trap of a subject raises: mode, target, vector and a zero, four bytes.
    Event,
    /// How many ticks a major or a minor frame has.
    Ticks,
    /// The last port of a device's range.
    Port,
    /// The vector of a device's IRQ at the subject that it reaches, 0 where it reaches nobody.
    Irq,
}

/// The first fault of bytes, with how many bytes are left from where its field begins.
#[derive(Clone, Copy, Debug, PartialEq, Eq)]
pub enum FormFault {
    /// The bytes end before the field does.
    Short(usize),
    /// The field isn't as it has to be, by itself or by what stands before it.
    Bad(usize, Field),
    /// Bytes follow the last field.
    Trailing(usize),
}

/// Why a reader stops.
#[derive(Clone, Copy, Debug, PartialEq, Eq)]
pub enum FormError {
    /// Memory was refused.
    NoMemory,
    /// The bytes have a fault.
    At(FormFault),
}

/// Why bytes are no image: the first fault, and the offset at which its field begins.
#[derive(Clone, Copy, Debug, Error)]
pub enum ImageFault {
    /// The bytes end before the field does.
    Short { at: u64 },
    /// The field isn't as it has to be, by itself or by what stands before it.
    Bad { at: u64, field: Field },
    /// Bytes follow the last field.
    Trailing { at: u64 },
    /// Memory was refused.
    NoMemory,
}

impl From<AllocError> for FormError {
    ghost from_gives = { λ _ error. error ≡ OutOfMemory };

    fn from(_: AllocError) -> FormError {
        FormError::NoMemory
    }
}

impl<T: Drop> From<AllocFailed<T>> for FormError {
    ghost from_gives = { λ _ error. error ≡ OutOfMemory };

    fn from(_: AllocFailed<T>) -> FormError {
        FormError::NoMemory
    }
}

impl From<NoMemory> for FormError {
    ghost from_gives = { λ _ error. error ≡ OutOfMemory };

    fn from(_: NoMemory) -> FormError {
        FormError::NoMemory
    }
}

impl Field {
    /// The field in a word.
    pub fn as_str(self) -> &'static str
        ensures { result.now ≡ field_text self }
    {
        match self {
            Field::Magic => "magic",
            Field::Count => "count",
            Field::Zero => "zero",
            Field::Place => "place",
            Field::Pages => "pages",
            Field::Number => "number",
            Field::Kind => "kind",
            Field::Part => "part",
            Field::Name => "name",
            Field::Cpu => "cpu",
            Field::First => "first",
            Field::Group => "group",
            Field::Msrs => "msrs",
            Field::Span => "span",
            Field::Eptp => "eptp",
            Field::Event => "event",
            Field::Ticks => "ticks",
            Field::Port => "port",
            Field::Irq => "irq",
        }
    }
}

// Words that are too long for the search among others.
#[tactic(auto, unfolding(crate::specs::FaultText::image_refused_at))]
fn image_refused_at() -> &'static str
    ensures { result.now ≡ image_refused_at }
{
    "image refused at "
}

impl ImageFault {
    // The offset, and what is wrong there; no offset where memory was refused.
    fn place(self) -> (Option<u64>, &'static str)
        ensures { fault_offset_text result.0 result.1.now ≡ image_fault_text self }
    {
        match self {
            ImageFault::Short { at } => (Some(at), "short"),
            ImageFault::Bad { at, field } => (Some(at), field.as_str()),
            ImageFault::Trailing { at } => (Some(at), "trailing"),
            ImageFault::NoMemory => (None, "out of memory"),
        }
    }

    /// The text in pieces. The digits of the offset stand in the buffer.
    pub fn pieces(self, one: &mut Buffer) -> Pieces<'_>
        ensures { whole result ≡ image_fault_text self }
    {
        match self.place() {
            (Some(at), why) => {
                let at = one.format(at);
                (image_refused_at(), at, ": ", why).into()
            }
            (None, why) => why.into(),
        }
    }
}

/// The printed text: the offset, and what is wrong there.
impl fmt::Display for ImageFault {
    ghost use Rattle.std.specs.Prelude.{Some};
    ghost use Rattle.binary_form.specs.FaultText.{image_fault_text};

    ghost output = { λ fault. Some (image_fault_text fault) };

    fn fmt<W: fmt::Write>(&self, f: &mut fmt::Formatter<W>) -> fmt::Result {
        let mut one = Buffer::new();
        write!(f, "{}", self.pieces(&mut one))
    }
}

/// Why the reading of so many bytes stopped, with the offset in place of what is left.
pub fn fault_of(total: usize, error: FormError) -> ImageFault
    requires { IsErrorOf total error }
    ensures { IsFaultOf total error result }
{
    match error {
        FormError::NoMemory => ImageFault::NoMemory,
        FormError::At(FormFault::Short(left)) => ImageFault::Short {
            at: (total - left) as u64,
        },
        FormError::At(FormFault::Bad(left, field)) => ImageFault::Bad {
            at: (total - left) as u64,
            field,
        },
        FormError::At(FormFault::Trailing(left)) => ImageFault::Trailing {
            at: (total - left) as u64,
        },
    }
}
