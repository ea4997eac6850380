//! Why a text is no source.
ghost use Rattle.std.specs.Prelude.{◌≡◌};
ghost use Rattle.muen_num.specs.Pieces.{whole};
ghost use Rattle.asm_text.specs.FaultTexts.{source_fault_text, want_text};

use itoa::Buffer;
use muen_num::{NoMemory, Pieces};
use std::alloc::AllocError;
use std::fmt;
use thiserror::Error;

/// What should have stood in a line, or should hold of it.
#[derive(Clone, Copy, Debug, PartialEq, Eq)]
pub enum Want {
    /// An instruction's word, or that of data or of an offset.
    Mnemonic,
    /// `r0` to `r15`.
    Register,
    /// A size of access: `1 byte`, `2 bytes`, `4 bytes` or `8 bytes`; for a port not the last.
    Size,
    Comma,
    /// `at`
    At,
    /// `to`
    To,
    /// `port`
    Port,
    /// A number below 2^64.
    Number,
    /// A number or a name.
    Term,
    /// A name.
    Name,
    /// The end of the line.
    End,
    /// A name that no line before defines.
    NewName,
    /// An offset that isn't behind.
    Ahead,
    /// At most 64 MiB.
    Room,
    /// An instruction at a multiple of 8.
    Aligned,
    /// A name that some line defines.
    KnownName,
    /// A number within its range.
    Range,
    /// A jump that 32 bits can tell.
    Near,
    /// A jump to one label, or by a number.
    Target,
}

impl Want {
    /// What is wanted, or wrong, in words.
    #[tactic(auto, unfolding(crate::specs::FaultTexts::want_text))]
    pub fn as_str(self) -> &'static str
        ensures { result.now ≡ want_text self }
    {
        match self {
            Want::Mnemonic => "want an instruction, data, .at or a name",
            Want::Register => "want a register",
            Want::Size => "want a size of access",
            Want::Comma => "want a comma",
            Want::At => "want at",
            Want::To => "want to",
            Want::Port => "want port",
            Want::Number => "want a number",
            Want::Term => "want a number or a name",
            Want::Name => "want a name",
            Want::End => "want the end of the line",
            Want::NewName => "the name stands before",
            Want::Ahead => "the offset is behind",
            Want::Room => "more than 64 MiB",
            Want::Aligned => "an instruction off a multiple of 8",
            Want::KnownName => "no such name",
            Want::Range => "out of range",
            Want::Near => "the jump is too far",
            Want::Target => "want one label or a distance",
        }
    }
}

/// Why a line says nothing.
#[derive(Clone, Copy, Debug)]
pub enum LineError {
    /// Where so many bytes of the line are left, something else is wanted.
    Wanted { left: usize, want: Want },
    /// Memory was refused.
    NoMemory,
}

/// What is wanted isn't there.
pub(crate) fn wanted(left: usize, want: Want) -> LineError
    ensures { result ≡ LineError.Wanted left want }
{
    LineError::Wanted { left, want }
}

impl From<NoMemory> for LineError {
    ghost use Rattle.std.specs.Prelude.{◌≡◌};
    ghost use Rattle.asm_text.specs.declared.fault.LineError.TheVariants.{NoMemory as RanOut};

    ghost from_gives = { λ _ error. error ≡ RanOut };

    fn from(_: NoMemory) -> Self {
        LineError::NoMemory
    }
}

impl From<AllocError> for LineError {
    ghost use Rattle.std.specs.Prelude.{◌≡◌};
    ghost use Rattle.asm_text.specs.declared.fault.LineError.TheVariants.{NoMemory as RanOut};

    ghost from_gives = { λ _ error. error ≡ RanOut };

    fn from(_: AllocError) -> Self {
        LineError::NoMemory
    }
}

/// Why a text is no source. Lines and columns are counted from 1; a column is one of bytes.
#[derive(Clone, Copy, Debug, Error)]
pub enum SourceFault {
    At { line: u64, column: u64, want: Want },
    /// Memory was refused.
    NoMemory,
}

impl From<NoMemory> for SourceFault {
    ghost use Rattle.std.specs.Prelude.{◌≡◌};
    ghost use Rattle.asm_text.specs.declared.fault.SourceFault.TheVariants.{NoMemory as RanOut};

    ghost from_gives = { λ _ fault. fault ≡ RanOut };

    fn from(_: NoMemory) -> Self {
        SourceFault::NoMemory
    }
}

impl SourceFault {
    /// The text in pieces. The digits of the line's number and of the column stand in the buffers.
    pub fn pieces<'a>(self, one: &'a mut Buffer, two: &'a mut Buffer) -> Pieces<'a>
        ensures { whole result ≡ source_fault_text self }
    {
        match self {
            SourceFault::At { line, column, want } => {
                let line = one.format(line);
                let column = two.format(column);
                ("line ", line, ", column ", column, ": ", want.as_str()).into()
            }
            SourceFault::NoMemory => "out of memory".into(),
        }
    }
}

/// The printed text: the line, the column, and what is wanted there.
impl fmt::Display for SourceFault {
    ghost use Rattle.std.specs.Prelude.{Some};
    ghost use Rattle.asm_text.specs.FaultTexts.{source_fault_text};

    ghost output = { λ fault. Some (source_fault_text fault) };

    fn fmt<W: fmt::Write>(&self, f: &mut fmt::Formatter<W>) -> fmt::Result {
        let mut one = Buffer::new();
        let mut two = Buffer::new();
        write!(f, "{}", self.pieces(&mut one, &mut two))
    }
}
