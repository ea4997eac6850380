ghost use Rattle.std.specs.Prelude.{◌≡◌, ◌∷◌, [], Option, None, Some, OnOk, IfOk, IfSome};
ghost use Rattle.std.specs.FinMap as map;
ghost use Rattle.muen_outside.specs.declared.files.FileError.TheVariants.{NoMemory};
ghost use Rattle.muen_outside.specs.Store.{Store, reading_of, KeepsOtherNames, insert_known};
ghost use Rattle.muen_outside.specs.States.{History, look, looked, write as write_of, written};
ghost use Rattle.muen_outside.specs.ErrorTexts.{file_error_text};
ghost use Rattle.muen_outside.specs.Found.{seen, answered, IsPossible};

use muen_num::Seq;
use std::alloc::{AllocError, Global};
use std::fmt;
use thiserror::Error;

/// What a read has found: all the bytes of the file, no file of this name, or a file of more bytes
/// than the limit, with how many it has, where that is known, and else a number above the limit.
#[derive(Debug, Drop, PartialEq, Eq)]
pub enum Found {
    Bytes(Seq<u8>),
    Missing,
    TooLong(u64),
}

/// Why a call on files came to no answer.
#[derive(Clone, Copy, Debug, PartialEq, Eq, Error)]
pub enum FileError {
    /// The read or the write failed.
    Failed,
    /// Memory was refused.
    NoMemory,
}

impl FileError {
    /// The text of the error.
    pub fn as_str(self) -> &'static str
        ensures { result.now ≡ file_error_text self }
    {
        match self {
            FileError::Failed => "file fault",
            FileError::NoMemory => "out of memory",
        }
    }
}

impl fmt::Display for FileError {
    ghost use Rattle.muen_outside.specs.ErrorTexts.{file_error_text};

    ghost output = { λ e. Some (file_error_text e) };

    fn fmt<W: fmt::Write>(&self, f: &mut fmt::Formatter<W>) -> fmt::Result {
        f.write_str(self.as_str())
    }
}

impl From<AllocError> for FileError {
    ghost from_gives = { λ _ e. e ≡ NoMemory };

    fn from(_: AllocError) -> Self {
        FileError::NoMemory
    }
}

/// Files under names. Clauses see each call that was made on them: a look or a write, in a history
/// that is for them alone, and that code which is generic over files can change by these calls only.
pub trait Files {
    /// The looks and the writes so far.
    ghost history: { Self → History };

    /// What they hold, where they tell it.
    ghost held: { Self → Option Store } = { λ _. None };

    /// The bytes under the name, if there are no more than `most`. It is one look, whatever it
    /// answers.
    fn read(&mut self, alloc: Global, name: &str, most: usize) -> Result<Found, FileError>
        ensures history { history self.new ≡ looked (history self.old) (look name.now most (answered result) ∷ []) }
        ensures possible { IfOk result (λ found. IsPossible most (seen found)) }
        ensures held { held self.new ≡ held self.old }
        ensures told { IfOk result (λ found. IfSome (held self.old) (λ m. reading_of (map.get m name.now) most ≡ seen found)) };

    /// Puts the bytes under the name, in place of what stood there. It is one write, however it ends.
    /// On an error only what stands under this name may have changed.
    fn write(&mut self, alloc: Global, name: &str, bytes: &[u8]) -> Result<(), FileError>
        ensures history { history self.new ≡ written (history self.old) (write_of name.now bytes.now result ∷ []) }
        ensures ok { OnOk result (held self.new ≡ insert_known (held self.old) name.now bytes.now) }
        ensures others { KeepsOtherNames name.now (held self.old) (held self.new) };
}
