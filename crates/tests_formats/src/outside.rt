//! Runs of the traits' implementations.
ghost use Rattle.std.specs.Prelude.{◌≡◌, Some, IfOk};
ghost use Rattle.muen_outside.specs.Found.{seen};
ghost use Rattle.muen_outside.specs.Store.{reading_of};

use crate::agree::{agree, agree_at};
use muen_num::Seq;
use muen_outside::{
    Buffer, Device, Disk, FileError, Files, FolderFiles, Found, MemFiles, MemSink, OpenedFile,
    Sink, SinkFault, WriterSink, put_pieces,
};
use std::alloc::Global;
use std::io::{ErrorKind, Read};
use std::test::Fail;
use std::{fs, io};

fn bytes_found(alloc: Global, bytes: &[u8]) -> Result<Found, Fail> {
    Ok(Found::Bytes(Seq::of(Vec::from_slice(alloc, bytes)?)))
}

// One file `a` of three bytes; the calls 3 and 5 fail.
#[test]
fn files_in_memory(rt: HostRuntime) -> Result<(), Fail> {
    let alloc = rt.alloc();
    let bytes = Vec::from_slice(alloc, b"xyz")?;
    let held = vec![in alloc; (String::from_str(alloc, "a")?, bytes)]?;
    let mut files = MemFiles::make(held, Vec::from_slice(alloc, &[3, 5])?);
    let whole = bytes_found(alloc, b"xyz")?;
    agree(&rt, files.read(alloc, "a", 3), Ok(whole));
    agree(&rt, files.read(alloc, "a", 2), Ok(Found::TooLong(3)));
    agree(&rt, files.read(alloc, "b", 9), Ok(Found::Missing));
    agree(&rt, files.read(alloc, "a", 9), Err(FileError::Failed));
    agree(&rt, files.write(alloc, "b", b"new"), Ok(()));
    agree(
        &rt,
        files.write(alloc, "b", b"lost"),
        Err(FileError::Failed),
    );
    agree(&rt, files.get("b"), Some(b"new".as_slice()));
    Ok(())
}

#[test]
fn files_in_a_folder(rt: HostRuntime) -> Result<(), Fail> {
    let alloc = rt.alloc();
    let name = "muen_outside_test";
    let mut files = FolderFiles::system(rt);
    agree(&rt, files.write(alloc, name, b"lost"), Ok(()));
    agree(&rt, files.write(alloc, name, b"xyz"), Ok(()));
    let whole = bytes_found(alloc, b"xyz")?;
    agree(&rt, files.read(alloc, name, 3), Ok(whole));
    agree(&rt, files.read(alloc, name, 1), Ok(Found::TooLong(3)));
    let none = "muen_outside_none";
    agree(&rt, files.read(alloc, none, 9), Ok(Found::Missing));
    let endless = "/dev/zero";
    agree(&rt, files.read(alloc, endless, 9), Ok(Found::TooLong(10)));
    agree(&rt, files.read(alloc, ".", 9), Err(FileError::Failed));
    agree(&rt, files.write(alloc, ".", b"xyz"), Err(FileError::Failed));
    fs::remove_file(&rt, name)?;
    Ok(())
}

// Room for eight bytes; call 1 fails, and keeps two bytes.
#[test]
fn sink_in_memory(rt: HostRuntime) -> Result<(), Fail> {
    let alloc = rt.alloc();
    let mut sink = MemSink::make(alloc, 8, Vec::from_slice(alloc, &[1])?, 2)?;
    agree(&rt, sink.put(b"abc"), Ok(()));
    agree(&rt, sink.put(b"def"), Err(SinkFault));
    agree(&rt, sink.put(b"fghi"), Err(SinkFault));
    agree(&rt, sink.text(), b"abcdefgh".as_slice());
    Ok(())
}

// How many calls of the sink come of many puts, which no contract says.
#[test]
fn puts_wait_in_a_buffer(rt: HostRuntime) -> Result<(), Fail> {
    let alloc = rt.alloc();
    let mut sink = MemSink::make(alloc, 1_000_000, Vec::new(alloc), 0)?;
    let mut buffer = Buffer::make(alloc)?;
    for _ in 0..20_000 {
        agree(&rt, buffer.put(b"twelve bytes", &mut sink), Ok(()));
    }
    let large = vec![in alloc; b'!'; 70_000]?;
    agree(&rt, buffer.put(&large, &mut sink), Ok(()));
    agree(&rt, buffer.put(b"1\n2\n", &mut sink), Ok(()));
    agree(&rt, sink.calls(), 5);
    agree(&rt, sink.text().len(), 310_000);
    agree(&rt, buffer.flush(&mut sink), Ok(()));
    agree(&rt, sink.calls(), 6);
    agree(&rt, sink.text().len(), 310_004);
    assert!(rt; sink.text().ends_with(b"!1\n2\n"));
    Ok(())
}

#[test]
fn sink_over_a_writer(rt: HostRuntime) -> Result<(), Fail> {
    let mut text = Vec::new(rt.alloc());
    let mut sink = WriterSink::new(&mut text);
    agree(
        &rt,
        put_pieces(&["one", "", " two", "\n"], &mut sink),
        Ok(()),
    );
    drop(sink);
    agree(&rt, text.as_slice(), b"one two\n".as_slice());
    Ok(())
}

// Takes three bytes a call at most, and keeps them back. Its first two flushes fail, and are counted.
#[derive(Drop)]
struct Clogged {
    failed: u64,
}

impl Device for Clogged {
    ghost use Rattle.std.specs.Prelude.{Some};

    ghost failed = { λ d. Some d.failed };

    fn take_front(&mut self, bytes: &[u8]) -> io::Result<usize> {
        Ok(bytes.len().min(3))
    }

    fn hand_on(&mut self) -> io::Result<()> {
        if self.failed < 2 {
            self.failed += 1;
            return Err(ErrorKind::BrokenPipe.into());
        }
        Ok(())
    }
}

// Gives its bytes one by one, and is interrupted before each. It tells this size.
#[derive(Drop)]
struct Halting {
    rest: u8,
    is_ready: bool,
    size: Option<u64>,
}

impl Read for Halting {
    fn read(&mut self, buf: &mut [u8]) -> io::Result<usize> {
        if !self.is_ready {
            self.is_ready = true;
            return Err(ErrorKind::Interrupted.into());
        }
        self.is_ready = false;
        if self.rest == 0 || buf.is_empty() {
            return Ok(0);
        }
        self.rest -= 1;
        buf[0] = b'x';
        Ok(1)
    }
}

impl OpenedFile for Halting {
    ghost use Rattle.std.specs.Prelude.{◌≡◌};

    ghost sizes = { λ file size. size ≡ file.size };

    fn size(&self) -> Option<u64> {
        self.size
    }
}

// Each file that is opened is a `Halting` one of three bytes with this size, and each that is made a
// `Clogged` one.
#[derive(Drop)]
struct BadDisk {
    size: Option<u64>,
}

impl Disk for BadDisk {
    type Opened = Halting;

    type Made = Clogged;

    ghost opens = { λ _ _ _. Unit {0} };

    ghost makes = { λ _ _ _. Unit {0} };

    fn open(&mut self, _name: &str) -> io::Result<Halting> {
        Ok(Halting {
            rest: 3,
            is_ready: false,
            size: self.size,
        })
    }

    fn create(&mut self, _name: &str) -> io::Result<Clogged> {
        Ok(Clogged { failed: 0 })
    }
}

#[test]
fn a_flush_that_fails_is_a_fault(rt: HostRuntime) {
    let alloc = rt.alloc();
    let mut sink = WriterSink::new(Clogged { failed: 0 });
    agree(&rt, sink.put(b"twelve bytes"), Err(SinkFault));
    agree(&rt, sink.put(b"twelve bytes"), Err(SinkFault));
    agree(&rt, sink.put(b"twelve bytes"), Ok(()));
    let mut files = FolderFiles::new(BadDisk { size: None });
    agree(
        &rt,
        files.write(alloc, "a", b"twelve bytes"),
        Err(FileError::Failed),
    );
}

#[test]
fn an_interrupted_read_is_made_again(rt: HostRuntime) -> Result<(), Fail> {
    let alloc = rt.alloc();
    let mut files = FolderFiles::new(BadDisk { size: None });
    let whole = bytes_found(alloc, b"xxx")?;
    agree(&rt, files.read(alloc, "a", 3), Ok(whole));
    agree(&rt, files.read(alloc, "a", 2), Ok(Found::TooLong(3)));
    Ok(())
}

// Of three bytes, with this limit: what is told where the file tells this size.
const SIZES: [(Option<u64>, usize, u64); 8] = [
    (None, 1, 2),
    (Some(0), 1, 2),
    (Some(1), 1, 2),
    (Some(2), 1, 2),
    (Some(3), 1, 3),
    (Some(3), 2, 3),
    (Some(3), 0, 3),
    (Some(u64::MAX), 2, u64::MAX),
];

#[test]
fn a_file_that_is_too_long_is_told_by_its_size(rt: HostRuntime) -> Result<(), Fail> {
    let alloc = rt.alloc();
    for (row, (size, most, told)) in SIZES.into_iter().enumerate() {
        let mut files = FolderFiles::new(BadDisk { size });
        let too_long = Found::TooLong(told);
        agree_at(&rt, files.read(alloc, "a", most), Ok(too_long), row);
        let whole = bytes_found(alloc, b"xxx")?;
        agree_at(&rt, files.read(alloc, "a", 3), Ok(whole), row);
    }
    Ok(())
}

// Gives these bytes, and tells them and how many they are.
#[derive(Drop)]
struct Text<'a> {
    rest: &'a [u8],
}

impl Read for Text<'_> {
    ghost use Rattle.std.specs.Prelude.{Some};

    ghost remaining = { λ text. Some text.rest.now };

    fn read(&mut self, buf: &mut [u8]) -> io::Result<usize> {
        self.rest.read(buf)
    }
}

impl OpenedFile for Text<'_> {
    ghost use Rattle.std.specs.Prelude.{◌≡◌, Some, length};

    ghost sizes = { λ text size. size ≡ Some (length text.rest.now) };

    fn size(&self) -> Option<u64> {
        Some(self.rest.len() as u64)
    }
}

// Has one file, and tells what it opens.
#[derive(Drop)]
struct OneText<'a> {
    name: &'a str,
    bytes: &'a [u8],
}

impl<'a> Disk for OneText<'a> {
    ghost use Rattle.std.specs.Prelude.{◌≡◌, ◌≢◌, IfOk, IfErr};

    type Opened = Text<'a>;

    type Made = Clogged;

    ghost opens = { λ disk name opened. IfOk opened (λ text. (name ≡ disk.name.now) × (text.rest.now ≡ disk.bytes.now)) × IfErr opened (λ _. name ≢ disk.name.now) };

    ghost makes = { λ _ _ _. Unit {0} };

    fn open(&mut self, name: &str) -> io::Result<Text<'a>> {
        if name == self.name {
            return Ok(Text { rest: self.bytes });
        }
        Err(ErrorKind::NotFound.into())
    }

    fn create(&mut self, _name: &str) -> io::Result<Clogged> {
        Ok(Clogged { failed: 0 })
    }
}

// A disk that tells all: a read under the file's name answers what stands there, with its length.
fn read_one(alloc: Global, name: &str, bytes: &[u8], most: usize) -> Result<Found, FileError>
    ensures { IfOk result (λ found. reading_of (Some bytes.now) most ≡ seen found) }
{
    FolderFiles::new(OneText { name, bytes }).read(alloc, name, most)
}

#[test]
fn a_disk_that_tells_all_agrees_with_the_look(rt: HostRuntime) -> Result<(), Fail> {
    let alloc = rt.alloc();
    let (name, bytes) = ("a", b"five!".as_slice());
    for most in 0..5 {
        let found = read_one(alloc, name, bytes, most);
        agree_at(&rt, found, Ok(Found::TooLong(5)), most);
    }
    let whole = bytes_found(alloc, b"five!")?;
    agree(&rt, read_one(alloc, name, bytes, 5), Ok(whole));
    let mut files = FolderFiles::new(OneText { name, bytes });
    agree(&rt, files.read(alloc, "b", 5), Ok(Found::Missing));
    Ok(())
}

#[test]
fn standard_streams_take_a_line(rt: HostRuntime) {
    let mut out = WriterSink::standard_output(&rt);
    agree(&rt, out.put(b"a line put to the standard output\n"), Ok(()));
    let mut err = WriterSink::standard_error(&rt);
    agree(&rt, err.put(b"a line put to the standard error\n"), Ok(()));
}
