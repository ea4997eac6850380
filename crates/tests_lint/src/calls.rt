//! Policies with what each is refused for, and each status with its line.
use crate::agree::agree_at;
use lint_top::muen_lint;
use muen_outside::{MemFiles, MemSink};
use std::alloc::Global;
use std::test::Fail;

// A policy that is accepted.
const ACCEPTED: &str = r#"{"processor":{"logicalCpus":1},
"memoryBlocks":[{"name":"ram","physicalAddress":1048576,"size":131072}],
"memory":[{"name":"code","size":4096,"content":{"file":"short"}}],
"subjects":[{"name":"one","cpu":0,"entry":4194304,
 "memory":[{"region":"code","virtualAddress":4194304,"rights":"rx"}]}],
"scheduling":{"groups":[{"name":"g","cpu":0,"subjects":["one"]}],
 "majorFrames":[{"cpus":[{"cpu":0,"minorFrames":[{"group":"g","ticks":10}]}]}]}}"#;

// A size that is no multiple of a page, windows that overlap, blocks that do.
const RULES: &str = r#"{"processor":{"logicalCpus":1},
"memoryBlocks":[{"name":"low","physicalAddress":1048576,"size":131072},
 {"name":"high","physicalAddress":1175552,"size":4096}],
"memory":[{"name":"code","size":4096},{"name":"data","size":1000}],
"subjects":[{"name":"one","cpu":0,"entry":4194304,
 "memory":[{"region":"code","virtualAddress":4194304,"rights":"rx"},
  {"region":"data","virtualAddress":4194304,"rights":"rw"}]}],
"scheduling":{"groups":[{"name":"g","cpu":0,"subjects":["one"]}],
 "majorFrames":[{"cpus":[{"cpu":0,"minorFrames":[{"group":"g","ticks":10}]}]}]}}"#;

// The same, and a window onto a region that isn't declared: nothing else can be asked.
const NAMES: &str = r#"{"processor":{"logicalCpus":1},
"memoryBlocks":[{"name":"low","physicalAddress":1048576,"size":131072},
 {"name":"high","physicalAddress":1175552,"size":4096}],
"memory":[{"name":"code","size":4096},{"name":"data","size":1000}],
"subjects":[{"name":"one","cpu":0,"entry":4194304,
 "memory":[{"region":"code","virtualAddress":4194304,"rights":"rx"},
  {"region":"text","virtualAddress":4194304,"rights":"rw"}]}],
"scheduling":{"groups":[{"name":"g","cpu":0,"subjects":["one"]}],
 "majorFrames":[{"cpus":[{"cpu":0,"minorFrames":[{"group":"g","ticks":10}]}]}]}}"#;

// Contents that are too long, aren't there, and are too long once more; and a region that is larger than all memory.
const CONTENTS: &str = r#"{"processor":{"logicalCpus":1},
"memoryBlocks":[{"name":"ram","physicalAddress":1048576,"size":131072}],
"memory":[{"name":"code","size":4096,"content":{"file":"long"}},
 {"name":"table","size":4096,"content":{"file":"absent"}},
 {"name":"large","size":262144},
 {"name":"copy","size":4096,"content":{"file":"long","offset":1}},
 {"name":"rest","size":4096,"content":{"file":"long"}}],
"subjects":[{"name":"one","cpu":0,"entry":4194304,
 "memory":[{"region":"code","virtualAddress":4194304,"rights":"rx"}]}],
"scheduling":{"groups":[{"name":"g","cpu":0,"subjects":["one"]}],
 "majorFrames":[{"cpus":[{"cpu":0,"minorFrames":[{"group":"g","ticks":10}]}]}]}}"#;

const TEXTS: [(&str, &str); 7] = [
    ("accepted", ACCEPTED),
    ("rules", RULES),
    ("names", NAMES),
    ("contents", CONTENTS),
    ("short", "sixteen bytes..."),
    ("text", "no policy"),
    ("list", "[]"),
];

// They, and a file of 4,097 bytes; the calls of these numbers fail.
fn files(alloc: Global, fails: Vec<u64>) -> Result<MemFiles, Fail> {
    let mut held = Vec::new(alloc);
    for (name, text) in TEXTS {
        let bytes = Vec::from_slice(alloc, text.as_bytes())?;
        held.push((String::from_str(alloc, name)?, bytes))?;
    }
    held.push((
        String::from_str(alloc, "long")?,
        vec![in alloc; b' '; 4097]?,
    ))?;
    Ok(MemFiles::make(held, fails))
}

// A call with these words: its status, a space, what is put to the error sink, and what to the output.
fn call(
    alloc: Global,
    words: &[&str],
    files: &mut MemFiles,
    out: &mut MemSink,
) -> Result<String, Fail> {
    let mut list = Vec::new(alloc);
    for &word in words {
        list.push(String::from_str(alloc, word)?)?;
    }
    let mut err = MemSink::make(alloc, 200, Vec::new(alloc), 0)?;
    let status = u8::from(muen_lint(alloc, &list, files, out, &mut err));
    let mut answer = status.to_string(alloc)?;
    answer.push(' ')?;
    for bytes in [err.text(), out.text()] {
        let Ok(text) = String::from_utf8(bytes.to_vec(alloc)?) else {
            return Err(Fail::new("no text"));
        };
        answer.push_str(text.as_str())?;
    }
    Ok(answer)
}

const USAGE: &str = "1 muen_lint: usage: POLICY\n";

const CALLS: &[(&[&str], &str)] = &[
    (&["accepted"], "0 "),
    (
        &["rules"],
        "2 muen_lint: refusals: 3\nrule 4: data data\nrule 5: code data\nrule 18: low high\n",
    ),
    (&["names"], "2 muen_lint: refusals: 1\nrule 2: one text\n"),
    (
        &["contents"],
        "2 muen_lint: refusals: 4\ncode: 4097 bytes in room for 4096\nmissing file absent\nrest: 4097 bytes in room for 4096\nno room for large of 262144 bytes\n",
    ),
    (&["text"], "2 muen_lint: refusals: 1\nnot JSON\n"),
    (
        &["list"],
        "2 muen_lint: refusals: 1\nshape at : want object\n",
    ),
    (&[], USAGE),
    (&["accepted", "rules"], USAGE),
    (&["absent"], "3 muen_lint: missing file absent\n"),
];

#[test]
fn answers(rt: HostRuntime) -> Result<(), Fail> {
    let alloc = rt.alloc();
    let mut files = files(alloc, Vec::new(alloc))?;
    for &(words, want) in CALLS {
        let mut out = MemSink::make(alloc, 200, Vec::new(alloc), 0)?;
        let answer = call(alloc, words, &mut files, &mut out)?;
        agree_at(&rt, answer.as_str(), want, want);
    }
    Ok(())
}

#[test]
fn the_longest_policy(rt: HostRuntime) -> Result<(), Fail> {
    let alloc = rt.alloc();
    for (length, want) in [
        (4_194_304, "2 muen_lint: refusals: 1\nnot JSON\n"),
        (4_194_305, "3 muen_lint: file blank has 4194305 bytes\n"),
    ] {
        let mut held = Vec::new(alloc);
        held.push((
            String::from_str(alloc, "blank")?,
            vec![in alloc; b' '; length]?,
        ))?;
        let mut files = MemFiles::make(held, Vec::new(alloc));
        let mut out = MemSink::make(alloc, 200, Vec::new(alloc), 0)?;
        let answer = call(alloc, &["blank"], &mut files, &mut out)?;
        agree_at(&rt, answer.as_str(), want, length);
    }
    Ok(())
}

// The look at the policy fails, that at a component file, or what a further look would meet.
#[test]
fn looks_that_fail(rt: HostRuntime) -> Result<(), Fail> {
    let alloc = rt.alloc();
    let fault = "4 muen_lint: file fault\n";
    for (call_that_fails, want) in [(0, fault), (1, fault), (2, "0 ")] {
        let mut files = files(alloc, vec![in alloc; call_that_fails]?)?;
        let mut out = MemSink::make(alloc, 200, Vec::new(alloc), 0)?;
        let answer = call(alloc, &["accepted"], &mut files, &mut out)?;
        agree_at(&rt, answer.as_str(), want, call_that_fails);
    }
    Ok(())
}

// Each line is put in nine pieces. The first piece of the first line fails behind three bytes, that of the
// last one, or what a further line would meet.
#[test]
fn an_output_that_fails(rt: HostRuntime) -> Result<(), Fail> {
    let alloc = rt.alloc();
    let mut files = files(alloc, Vec::new(alloc))?;
    for (call_that_fails, want) in [
        (0, "7 muen_lint: output fault\nrul"),
        (
            18,
            "7 muen_lint: output fault\nrule 4: data data\nrule 5: code data\nrul",
        ),
        (
            27,
            "2 muen_lint: refusals: 3\nrule 4: data data\nrule 5: code data\nrule 18: low high\n",
        ),
    ] {
        let mut out = MemSink::make(alloc, 200, vec![in alloc; call_that_fails]?, 3)?;
        let answer = call(alloc, &["rules"], &mut files, &mut out)?;
        agree_at(&rt, answer.as_str(), want, call_that_fails);
    }
    Ok(())
}
