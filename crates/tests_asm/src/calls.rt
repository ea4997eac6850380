//! Each command once, and each status with its line.
use crate::agree::agree_at;
use asm_top::muen_asm;
use muen_outside::{MemFiles, MemSink};
use std::alloc::Global;
use std::test::Fail;

// The files of the calls below. The bytes of `wait` are those of `bytes`, and its source is `printed`.
const FILES: [(&str, &str); 10] = [
    ("wait", "wait: HLT ; for an event\n JMP wait\n.byte 1, -1"),
    ("empty", ""),
    ("word", "\n  HALT"),
    ("number", "LI r1, 0x1_0000_0000"),
    ("label", "JMP there"),
    ("text", "JMP 0\n"),
    ("numbers", "k = 5"),
    ("named", "LI r1, k"),
    ("faulty", "k = 5\nm = k"),
    ("twice", "\nk = 6"),
];

const USAGE: &str =
    "1 muen_asm: usage: hex SOURCE, lines SOURCE BASE, bin SOURCE FILE, text FILE, hex NAMES SOURCE, lines NAMES SOURCE BASE, bin NAMES SOURCE FILE\n";

// They; the calls of these numbers fail.
fn files(alloc: Global, fails: Vec<u64>) -> Result<MemFiles, Fail> {
    let mut held = Vec::new(alloc);
    for (name, text) in FILES {
        let bytes = Vec::from_slice(alloc, text.as_bytes())?;
        held.push((String::from_str(alloc, name)?, bytes))?;
    }
    Ok(MemFiles::make(held, fails))
}

// A call with these words, between which are spaces: its status, a space, what is put to the error
// sink, and what to the output.
pub(crate) fn call(
    alloc: Global,
    words: &str,
    files: &mut MemFiles,
    out: &mut MemSink,
) -> Result<String, Fail> {
    let mut list = Vec::new(alloc);
    for word in words.split(' ') {
        list.push(String::from_str(alloc, word)?)?;
    }
    let mut err = MemSink::make(alloc, 200, Vec::new(alloc), 0)?;
    let status = u8::from(muen_asm(alloc, &list, files, out, &mut err));
    let mut answer = status.to_string(alloc)?;
    answer.push(' ')?;
    for bytes in [err.text(), out.text()] {
        let Ok(text) = String::from_utf8(bytes.to_vec(alloc)?) else {
            return Err(Fail::new("no text"));
        };
        answer.push_str(text.as_str())?;
    }
    Ok(answer)
}

const CALLS: &[(&str, &str)] = &[
    ("hex wait", "0 17000000000000000d000000f8ffffff01ff\n"),
    ("hex empty", "0 \n"),
    (
        "lines wait 0x40_0000",
        "0 0000000000400000  1700000000000000  HLT\n0000000000400008  0d000000f8ffffff  JMP -8\n0000000000400010  01ff              .byte 0x01, 0xff\n",
    ),
    ("lines empty 281474976710655", "0 "),
    ("text text", "0 .byte 0x4a, 0x4d, 0x50, 0x20, 0x30, 0x0a\n"),
    ("text empty", "0 "),
    ("bin empty made", "0 "),
    ("hex", USAGE),
    ("text wait more", USAGE),
    ("lines wait 0x1_0000_0000_0000", USAGE),
    ("bin wait wait", USAGE),
    (
        "hex word",
        "2 muen_asm: line 2, column 3: want an instruction, data, .at or a name\n",
    ),
    (
        "bin number unmade",
        "2 muen_asm: line 1, column 8: out of range\n",
    ),
    (
        "lines label 0",
        "2 muen_asm: line 1, column 5: no such name\n",
    ),
    ("hex absent", "3 muen_asm: missing file absent\n"),
    ("text absent", "3 muen_asm: missing file absent\n"),
    ("bin wait made", "0 "),
    ("hex numbers named", "0 0110000005000000\n"),
    (
        "lines numbers named 8",
        "0 0000000000000008  0110000005000000  LI r1, 5\n",
    ),
    ("bin numbers named one", "0 "),
    (
        "hex faulty named",
        "2 muen_asm: file faulty, line 2, column 5: want a number\n",
    ),
    (
        "lines numbers twice 0",
        "2 muen_asm: file twice, line 2, column 1: the name stands before\n",
    ),
    (
        "bin faulty word unmade",
        "2 muen_asm: file faulty, line 2, column 5: want a number\n",
    ),
    ("hex absent named", "3 muen_asm: missing file absent\n"),
    ("hex numbers absent", "3 muen_asm: missing file absent\n"),
    ("hex numbers named more", USAGE),
    ("bin numbers named numbers", USAGE),
    ("bin numbers named named", USAGE),
];

#[test]
fn answers(rt: HostRuntime) -> Result<(), Fail> {
    let alloc = rt.alloc();
    let mut files = files(alloc, Vec::new(alloc))?;
    for &(words, want) in CALLS {
        let mut out = MemSink::make(alloc, 200, Vec::new(alloc), 0)?;
        let answer = call(alloc, words, &mut files, &mut out)?;
        agree_at(&rt, answer.as_str(), want, words);
    }
    let bytes = b"\x17\0\0\0\0\0\0\0\x0d\0\0\0\xf8\xff\xff\xff\x01\xff";
    assert!(rt; files.get("made") == Some(bytes.as_slice()));
    assert!(rt; files.get("unmade").is_none());
    assert!(rt; files.get("one") == Some(b"\x01\x10\0\0\x05\0\0\0".as_slice()));
    Ok(())
}

// A file of so many blanks is read, and then the output fails, or it is too long.
#[test]
fn the_longest_files(rt: HostRuntime) -> Result<(), Fail> {
    let alloc = rt.alloc();
    for (length, words, want) in [
        (16_777_216, "hex long", "7 muen_asm: output fault\n"),
        (
            16_777_217,
            "hex long",
            "3 muen_asm: file long has 16777217 bytes\n",
        ),
        (67_108_864, "text long", "7 muen_asm: output fault\n"),
        (
            67_108_865,
            "text long",
            "3 muen_asm: file long has 67108865 bytes\n",
        ),
    ] {
        let mut held = Vec::new(alloc);
        held.push((
            String::from_str(alloc, "long")?,
            vec![in alloc; b' '; length]?,
        ))?;
        let mut files = MemFiles::make(held, Vec::new(alloc));
        let mut out = MemSink::make(alloc, 10, vec![in alloc; 0]?, 0)?;
        let answer = call(alloc, words, &mut files, &mut out)?;
        agree_at(&rt, answer.as_str(), want, words);
    }
    Ok(())
}

// The look fails, or the write.
#[test]
fn files_that_fail(rt: HostRuntime) -> Result<(), Fail> {
    let alloc = rt.alloc();
    for (call_that_fails, words) in [
        (0, "hex wait"),
        (0, "text wait"),
        (1, "bin wait made"),
        (0, "hex numbers named"),
        (1, "hex numbers named"),
    ] {
        let mut files = files(alloc, vec![in alloc; call_that_fails]?)?;
        let mut out = MemSink::make(alloc, 200, Vec::new(alloc), 0)?;
        let answer = call(alloc, words, &mut files, &mut out)?;
        agree_at(&rt, answer.as_str(), "4 muen_asm: file fault\n", words);
    }
    Ok(())
}

// What a further look or write would meet.
#[test]
fn files_that_fail_too_late(rt: HostRuntime) -> Result<(), Fail> {
    let alloc = rt.alloc();
    for (call_that_fails, words) in [
        (1, "hex wait"),
        (1, "lines wait 0"),
        (1, "text wait"),
        (1, "bin word made"),
        (2, "bin wait made"),
        (2, "hex numbers named"),
    ] {
        let mut files = files(alloc, vec![in alloc; call_that_fails]?)?;
        let mut out = MemSink::make(alloc, 200, Vec::new(alloc), 0)?;
        let answer = call(alloc, words, &mut files, &mut out)?;
        assert!(rt; !answer.as_str().starts_with("4"), "{words}");
    }
    Ok(())
}

// The first put fails behind three bytes.
#[test]
fn an_output_that_fails(rt: HostRuntime) -> Result<(), Fail> {
    let alloc = rt.alloc();
    let mut files = files(alloc, Vec::new(alloc))?;
    for (words, want) in [
        ("hex wait", "7 muen_asm: output fault\n170"),
        ("lines wait 0", "7 muen_asm: output fault\n000"),
        ("text wait", "7 muen_asm: output fault\n.by"),
    ] {
        let mut out = MemSink::make(alloc, 200, vec![in alloc; 0]?, 3)?;
        let answer = call(alloc, words, &mut files, &mut out)?;
        agree_at(&rt, answer.as_str(), want, words);
    }
    Ok(())
}
