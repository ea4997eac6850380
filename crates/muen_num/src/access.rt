ghost use Rattle.std.specs.Prelude.{◌≡◌};

/// How many bytes an access touches: 1, 2, 4 or 8 (this project's own instruction set).
#[derive(Clone, Copy, Debug, PartialEq, Eq)]
pub enum AccessSize {
    One,
    Two,
    Four,
    Eight,
}

impl AccessSize {
    ghost use Rattle.muen_num.specs.AccessSize.{bytes_of};

    /// The number of bytes.
    pub fn bytes(self) -> u8
        ensures { result ≡ bytes_of self }
    {
        match self {
            AccessSize::One => 1,
            AccessSize::Two => 2,
            AccessSize::Four => 4,
            AccessSize::Eight => 8,
        }
    }
}

/// What an access of memory does (the rights of an EPT entry, Intel SDM volume 3).
#[derive(Clone, Copy, Debug)]
pub enum AccessKind {
    Read,
    Write,
    /// An instruction is fetched.
    Fetch,
}

impl AccessKind {
    ghost use Rattle.muen_num.specs.Access.{kind_bit};

    /// The bit of the right that it needs, which is also its bit in the qualification of an EPT
    /// violation.
    pub fn bit(self) -> u8
        ensures { result ≡ kind_bit self }
    {
        match self {
            AccessKind::Read => 1,
            AccessKind::Write => 2,
            AccessKind::Fetch => 4,
        }
    }
}
