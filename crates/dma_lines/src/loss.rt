//! Why a write of a device goes nowhere.
ghost use Rattle.std.specs.Prelude.{◌≡◌, ◌≤◌, length};
ghost use Rattle.dma_lines.specs.LinesText.{loss_word};

/// Why a byte that a device writes goes nowhere: the first step on its way that fails (Intel VT-d
/// specification, legacy mode).
#[derive(Clone, Copy, Debug, PartialEq, Eq)]
pub enum Loss {
    /// The line has no byte, or more than 64; no record that is read has such a line.
    NoLine,
    /// There are no tables.
    NoTables,
    /// The image has no device of this number, or the tables have none of its name.
    NoDevice,
    /// The address is 2^48 or more.
    TooHigh,
    /// A root or context entry isn't present, or an entry leads to a page that isn't one of the tables'.
    NoTable,
    /// An entry is present and has a bit set that the tables don't define.
    BadEntry,
    /// A second-level entry has neither right.
    NotPresent,
    /// A second-level entry lets the device read, and not write.
    NoRight,
    /// The address comes to memory that the image hasn't.
    Outside,
}

impl Loss {
    /// The word by which it is printed.
    pub fn word(self) -> &'static [u8]
        ensures value { result.now ≡ loss_word self }
        ensures within { length result.now ≤ 11 }
    {
        match self {
            Loss::NoLine => b"no line",
            Loss::NoTables => b"no tables",
            Loss::NoDevice => b"no device",
            Loss::TooHigh => b"too high",
            Loss::NoTable => b"no table",
            Loss::BadEntry => b"bad entry",
            Loss::NotPresent => b"not present",
            Loss::NoRight => b"no right",
            Loss::Outside => b"outside",
        }
    }
}
