//! Why bytes are no device record, and the text of it.
ghost use Rattle.std.specs.Prelude.{◌≡◌};
ghost use Rattle.muen_num.specs.Pieces.{whole};
ghost use Rattle.record_text.specs.FaultTexts.{fault_place_text, line_want_text, record_fault_text, record_refused_at_line};

use itoa::Buffer;
use muen_num::{NoMemory, Pieces};
use std::fmt;
use thiserror::Error;

/// What a word of a record's line should have been.
#[derive(Clone, Copy, Debug)]
pub enum LineWant {
    /// One of the words that a line begins with.
    Word,
    /// Another number of words.
    Count,
    /// A number.
    Number,
    /// A number within its range.
    Range,
    /// 1 to 64 bytes in hexadecimal digits.
    Hex,
    /// Each CPU once, and one order for a tick.
    Order,
}

/// Why bytes are no record. Lines are counted from 1.
#[derive(Clone, Copy, Debug, Error)]
pub enum RecordFault {
    /// The line has a byte above 127.
    NotAscii { line: u64 },
    /// The line follows the one that ends the record.
    TooMany { line: u64 },
    /// A word of the line isn't what it should have been.
    Line { line: u64, want: LineWant },
    /// The tick is less than that of the line before.
    Back { line: u64 },
    /// There is no such device, port, memory or interrupt.
    Unknown { line: u64 },
    /// No line ends the record.
    NoEnd { line: u64 },
    /// Memory was refused.
    NoMemory,
}

impl LineWant {
    /// What should have stood in the line, in words.
    pub fn as_str(self) -> &'static str
        ensures { result.now ≡ line_want_text self }
    {
        match self {
            LineWant::Word => "word",
            LineWant::Count => "count",
            LineWant::Number => "number",
            LineWant::Range => "range",
            LineWant::Hex => "hex",
            LineWant::Order => "order",
        }
    }
}

// Words that are too long for the search among others.
#[tactic(auto, unfolding(crate::specs::FaultTexts::record_refused_at_line))]
fn record_refused_at_line() -> &'static str
    ensures { result.now ≡ record_refused_at_line }
{
    "record refused at line "
}

impl RecordFault {
    // The line, and what is wrong there; no line where memory was refused.
    fn place(self) -> (Option<u64>, &'static str)
        ensures { fault_place_text result.0 result.1.now ≡ record_fault_text self }
    {
        match self {
            RecordFault::NotAscii { line } => (Some(line), "not ASCII"),
            RecordFault::TooMany { line } => (Some(line), "after end"),
            RecordFault::Line { line, want } => (Some(line), want.as_str()),
            RecordFault::Back { line } => (Some(line), "back"),
            RecordFault::Unknown { line } => (Some(line), "unknown"),
            RecordFault::NoEnd { line } => (Some(line), "no end"),
            RecordFault::NoMemory => (None, "out of memory"),
        }
    }

    /// The text in pieces. The digits of the line's number stand in the buffer.
    pub fn pieces(self, one: &mut Buffer) -> Pieces<'_>
        ensures { whole result ≡ record_fault_text self }
    {
        match self.place() {
            (Some(line), why) => {
                let line = one.format(line);
                (record_refused_at_line(), line, ": ", why).into()
            }
            (None, why) => why.into(),
        }
    }
}

/// The printed text: the line, and what is wrong there.
impl fmt::Display for RecordFault {
    ghost use Rattle.std.specs.Prelude.{Some};
    ghost use Rattle.record_text.specs.FaultTexts.{record_fault_text};

    ghost output = { λ fault. Some (record_fault_text fault) };

    fn fmt<W: fmt::Write>(&self, f: &mut fmt::Formatter<W>) -> fmt::Result {
        let mut one = Buffer::new();
        write!(f, "{}", self.pieces(&mut one))
    }
}

impl From<NoMemory> for RecordFault {
    ghost use Rattle.std.specs.Prelude.{◌≡◌};
    ghost use Rattle.record_text.specs.declared.fault.RecordFault.TheVariants.{NoMemory as RanOut};

    ghost from_gives = { λ _ fault. fault ≡ RanOut };

    fn from(_: NoMemory) -> Self {
        RecordFault::NoMemory
    }
}
