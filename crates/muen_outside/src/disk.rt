ghost use Rattle.muen_outside.specs.Devices.{MakesCall, opening, making};

use crate::device::Device;
use crate::opened_file::OpenedFile;
use std::fs::{File, Files as SystemFiles};
use std::io;

/// Opens files that are there, and makes files. What a file gives or takes, and its size, the file
/// tells, where it tells it. What comes of a name, and which calls were made, a disk may tell or not:
/// what is proved of code over every disk holds over those that tell, so that such code opens the
/// file of this name, and no other, over one that tells nothing too.
pub trait Disk {
    ghost use Rattle.std.specs.Prelude.{ℕ, List, Option, None, Result};
    ghost use Rattle.std.specs.declared.io.Error.{Error};
    ghost use Rattle.muen_outside.specs.Devices.{DiskCall};

    type Opened: OpenedFile + Drop;

    type Made: Device + Drop;

    /// The calls so far, where it tells them.
    ghost calls: { Self → Option (List DiskCall) } = { λ _. None };

    /// This may come of opening the file of this name.
    ghost opens: { Self → List ℕ → Result Self.Opened Error → Type 0 };

    /// This may come of making a file of this name, in place of what stood there.
    ghost makes: { Self → List ℕ → Result Self.Made Error → Type 0 };

    fn open(&mut self, name: &str) -> io::Result<Self::Opened>
        ensures opens { opens self.old name.now result }
        ensures call { MakesCall (calls self.old) (calls self.new) (opening name.now) };

    fn create(&mut self, name: &str) -> io::Result<Self::Made>
        ensures makes { makes self.old name.now result }
        ensures call { MakesCall (calls self.old) (calls self.new) (making name.now) };
}

/// The disk of the system: a name is a path from the current folder. It tells nothing.
#[derive(Drop)]
pub struct SystemDisk<R: SystemFiles> {
    rt: R,
}

impl<R: SystemFiles> SystemDisk<R> {
    /// Over this runtime.
    pub fn new(rt: R) -> SystemDisk<R> {
        SystemDisk { rt }
    }
}

impl<R: SystemFiles> Disk for SystemDisk<R> {
    type Opened = R::File;

    type Made = R::File;

    ghost opens = { λ _ _ _. Unit {0} };

    ghost makes = { λ _ _ _. Unit {0} };

    fn open(&mut self, name: &str) -> io::Result<R::File> {
        File::open(&self.rt, name)
    }

    fn create(&mut self, name: &str) -> io::Result<R::File> {
        File::create(&self.rt, name)
    }
}
