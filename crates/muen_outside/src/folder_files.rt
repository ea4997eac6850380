ghost use Rattle.std.specs.Prelude.{◌≡◌, ◌≢◌, ◌+◌, ◌∷◌, [], Ok, Err, IfOk, IfSome};
ghost use Rattle.muen_outside.specs.Devices.{MakesCall, opening, making};
ghost use Rattle.muen_outside.specs.Found.{seen, answered, IsPossible};
ghost use Rattle.muen_outside.specs.States.{look, looked, no_history, write as write_of, written};
ghost use Rattle.muen_outside.specs.FolderFiles.{capped, IsLengthTold, TakesAtMost, IsReadOf, IsWriteTo, Reads, Writes, Holds};
ghost use Rattle.muen_outside.specs.Looks.{Shows};
ghost use Rattle.muen_outside.specs.Store.{Store};

use crate::device::Device;
use crate::disk::{Disk, SystemDisk};
use crate::files::{FileError, Files, Found};
use crate::history::{Calls, Looked, Start, Wrote};
use crate::opened_file::OpenedFile;
use crate::writer_sink::write_through;
use muen_num::{Seq, Told};
use std::alloc::Global;
use std::fs::Files as SystemFiles;
use std::io;
use std::io::{ErrorKind, Read};

/// The files of a disk. It tells nothing of what they hold. Every error of the system is a fault,
/// also a folder in place of a file and a write that a signal interrupts, but for a file that a read
/// does not find, and for a read that a signal interrupts, which is made again.
///
/// The history is for clauses alone. That it is what was done is said by each call, which names what
/// the disk was asked for and what came of it.
#[derive(Drop)]
pub struct FolderFiles<D: Disk> {
    disk: D,
    history: Told<Calls>,
}

impl<D: Disk> FolderFiles<D> {
    /// Over this disk; nothing was done.
    pub fn new(disk: D) -> FolderFiles<D>
        ensures history { result.history.value ≡ no_history }
        ensures disk { result.disk ≡ disk }
    {
        FolderFiles {
            disk,
            history: Told::of(&Start),
        }
    }
}

impl<R: SystemFiles> FolderFiles<SystemDisk<R>> {
    /// Over the system; nothing was done.
    pub fn system(rt: R) -> FolderFiles<SystemDisk<R>>
        ensures { result.history.value ≡ no_history }
    {
        FolderFiles::new(SystemDisk::new(rt))
    }
}

// All the bytes, if there are no more than `most`; else the size, where one above `most` is known. It
// takes one byte above `most` at most from the reader, which may give them in any number of pieces.
#[tactic(auto, using(crate::proofs::ReadSteps::reads))]
fn read_all<I: Read>(
    alloc: Global,
    from: &mut I,
    size: Option<u64>,
    most: usize,
) -> Result<Found, FileError>
    ensures possible { IfOk result (λ found. IsPossible most (seen found)) }
    ensures number { IfOk result (λ found. IsLengthTold size most (seen found)) }
    ensures told { IfOk result (λ found. IfSome (I.remaining from.old) (λ all. seen found ≡ capped all size most)) }
    ensures opened { result ≢ Ok Found.Missing }
    ensures taken { TakesAtMost (most + 1) (I.remaining from.old) (I.remaining from.new) }
{
    let mut bytes = Vec::new(alloc);
    let mut buffer = [0u8; 4096];
    for _ in 0..u64::MAX {
        let room = most - bytes.len();
        let want = room.min(4095) + 1;
        let window = &mut buffer[..want];
        match from.read(window) {
            Ok(0) => return Ok(Found::Bytes(Seq::of(bytes))),
            Ok(n) => {
                if n > room {
                    let least = most as u64 + 1;
                    return Ok(Found::TooLong(size.unwrap_or(0).max(least)));
                }
                bytes.extend_from_slice(&window[..n])?;
            }
            Err(e) => {
                if e.kind() != ErrorKind::Interrupted {
                    return Err(FileError::Failed);
                }
            }
        }
    }
    Err(FileError::Failed)
}

// What is read of the file, if it was opened.
fn read_opened<I: OpenedFile + Drop>(
    alloc: Global,
    opened: io::Result<I>,
    most: usize,
) -> Result<Found, FileError>
    ensures possible { IfOk result (λ found. IsPossible most (seen found)) }
    ensures read { IsReadOf I.sizes I.remaining opened most result }
{
    match opened {
        Ok(mut file) => {
            let size = file.size();
            read_all(alloc, &mut file, size, most)
        }
        Err(e) => {
            if e.kind() == ErrorKind::NotFound {
                return Ok(Found::Missing);
            }
            Err(FileError::Failed)
        }
    }
}

// Writes the bytes into the file, if it was made.
fn write_made<D: Device>(made: &mut io::Result<D>, bytes: &[u8]) -> Result<(), FileError>
    ensures { IsWriteTo D.contents D.failed D.is_flushed made.old made.new bytes.now result }
{
    match made {
        Ok(file) => match write_through(file, bytes) {
            (_, true) => Ok(()),
            (_, false) => Err(FileError::Failed),
        },
        Err(_) => Err(FileError::Failed),
    }
}

impl<D: Disk> Files for FolderFiles<D> {
    ghost history = { λ s. s.history.value };

    fn read(&mut self, alloc: Global, name: &str, most: usize) -> Result<Found, FileError>
        ensures history { self.new.history.value ≡ looked self.old.history.value (look name.now most (answered result) ∷ []) }
        ensures possible { IfOk result (λ found. IsPossible most (seen found)) }

        // What was looked at, by one call on the disk.
        ensures reads { Reads D.opens D.Opened.sizes D.Opened.remaining self.old.disk name.now most result }
        ensures call { MakesCall (D.calls self.old.disk) (D.calls self.new.disk) (opening name.now) }

        // Where the disk gives files whole, with their sizes, these agree with the look.
        ensures shown { (m : Store) → Holds D.opens D.Opened.sizes D.Opened.remaining self.old.disk m → Shows m (look name.now most (answered result)) }
    {
        let got = read_opened(alloc, self.disk.open(name), most);
        self.history = Told::of(&Looked {
            before: &self.history,
            name,
            most,
            got: &got,
        });
        got
    }

    fn write(&mut self, _alloc: Global, name: &str, bytes: &[u8]) -> Result<(), FileError>
        ensures history { self.new.history.value ≡ written self.old.history.value (write_of name.now bytes.now result ∷ []) }

        // What was written to, by one call on the disk. It takes no memory.
        ensures writes { Writes D.makes D.Made.contents D.Made.failed D.Made.is_flushed self.old.disk name.now bytes.now result }
        ensures call { MakesCall (D.calls self.old.disk) (D.calls self.new.disk) (making name.now) }
        ensures err { result ≢ Err FileError.NoMemory }
    {
        let mut made = self.disk.create(name);
        let end = write_made(&mut made, bytes);
        self.history = Told::of(&Wrote {
            before: &self.history,
            name,
            bytes,
            end: &end,
        });
        end
    }
}
