//! Sources: the bytes that each says, or its first fault, as docs/assembly.md has them.
use crate::calls::call;
use muen_outside::{MemFiles, MemSink};
use std::alloc::Global;
use std::test::Fail;

// The digits that each says.
const DIGITS: &[(&str, &str)] = &[
    ("\tLI\tr1,5\r\n\nHLT\r", "01100000050000001700000000000000"),
    ("NOP;é", "0000000000000000"),
    (
        "r1 = -1\nHLT: LI r1, r1\nJMP HLT",
        "01100000ffffffff0d000000f8ffffff",
    ),
    ("_a.9_x = 16#0_A#\nLI r0, _a.9_x", "010000000a000000"),
    (
        "a23456789012345678901234567890123456789012345678901234567890123: HLT",
        "1700000000000000",
    ),
    (
        ".byte 1\nfill: .at 8\nend:\nLI r1, - fill + end",
        "01000000000000000110000007000000",
    ),
    ("LI r1, end\n.at 8\nend:", "0110000008000000"),
    ("LI r1, x\nx = 5", "0110000005000000"),
    (".byte -128, 255, 0x7F", "80ff7f"),
    (".u16 -32768, 65535", "0080ffff"),
    (".u32 -2147483648, 0xFFFF_FFFF", "00000080ffffffff"),
    (
        ".u64 -9223372036854775808, 18446744073709551615",
        "0000000000000080ffffffffffffffff",
    ),
    (
        ".u64 18446744073709551615 + 18446744073709551615 - 18446744073709551615",
        "ffffffffffffffff",
    ),
    (
        "LI r1, 2147483647\nLI r1, -2147483648",
        "01100000ffffff7f0110000000000080",
    ),
    (
        "LIH r15, 0xffff_ffff\nLIH r0, -2147483648",
        "02f00000ffffffff0200000000000080",
    ),
    (
        "here: JMP there - here\nJZ r2, there + 8\nthere: JNZ r3, here - there + there\nJB r1, r2, 8",
        "0d000000100000000e200000100000000f300000f0ffffff1012000008000000",
    ),
    ("JMP -2147483648", "0d00000000000080"),
    ("x = 16\nJMP x", "0d00000010000000"),
    (
        "STORE r1, 1 byte at r2+8-16\nIN r15, 4 bytes at port r14 - 1\nOUT r3, 2 bytes to port r4",
        "0c120000f8ffffff11fe0200ffffffff1234010000000000",
    ),
];

// The line of each one's first fault, the column, and what is wrong there.
const FAULTS: &[(&str, &str)] = &[
    (
        " hlt",
        "1, column 2: want an instruction, data, .at or a name",
    ),
    ("é", "1, column 1: want an instruction, data, .at or a name"),
    (
        "a: b: HLT",
        "1, column 4: want an instruction, data, .at or a name",
    ),
    (":", "1, column 1: want an instruction, data, .at or a name"),
    (
        "= 5",
        "1, column 1: want an instruction, data, .at or a name",
    ),
    ("9: HLT", "1, column 1: want a name"),
    ("9 = 1", "1, column 1: want a name"),
    (
        "a234567890123456789012345678901234567890123456789012345678901234: HLT",
        "1, column 1: want a name",
    ),
    ("\nHLT x ; é", "2, column 5: want the end of the line"),
    ("x = 1 - 1", "1, column 7: want the end of the line"),
    (".at 8 + 8", "1, column 7: want the end of the line"),
    (
        "NOP\r\n\tHALT\r\n",
        "2, column 2: want an instruction, data, .at or a name",
    ),
    ("LI r16, 1", "1, column 4: want a register"),
    ("LI r01, 1", "1, column 4: want a register"),
    ("VMCALL R9", "1, column 8: want a register"),
    ("MOV r1, 1", "1, column 9: want a register"),
    ("LI r1 1", "1, column 7: want a comma"),
    (".byte 1 2", "1, column 9: want a comma"),
    (
        "LOAD r1, 3 bytes at r2",
        "1, column 10: want a size of access",
    ),
    (
        "LOAD r1, 1 bytes at r2",
        "1, column 12: want a size of access",
    ),
    (
        "IN r1,  8 bytes at port r2",
        "1, column 9: want a size of access",
    ),
    ("LOAD r1, 8 bytes to r2", "1, column 18: want at"),
    ("OUT r1, 1 byte at port r2", "1, column 16: want to"),
    ("IN r1, 1 byte at r2", "1, column 18: want port"),
    (".at x", "1, column 5: want a number"),
    ("x = +1", "1, column 5: want a number"),
    ("x = - y", "1, column 7: want a number"),
    ("LI r1, ;x", "1, column 8: want a number or a name"),
    ("LI r1, 5 +", "1, column 11: want a number or a name"),
    ("LI r1, --5", "1, column 9: want a number or a name"),
    ("LI r1, 08", "1, column 8: want a number or a name"),
    ("LI r1, 0x1__0", "1, column 8: want a number or a name"),
    (".byte 1,", "1, column 9: want a number or a name"),
    (
        ".u64 18446744073709551616",
        "1, column 6: want a number or a name",
    ),
    (
        ".u64 0x1_0000_0000_0000_0000",
        "1, column 6: want a number or a name",
    ),
    ("a: HLT\na: HLT", "2, column 1: the name stands before"),
    ("a = 1\n a = 2", "2, column 2: the name stands before"),
    ("b: b = 1", "1, column 4: the name stands before"),
    ("HLT\n .at 7", "2, column 2: the offset is behind"),
    (".at 67108865", "1, column 1: more than 64 MiB"),
    (".at 67108864\n .byte 1", "2, column 2: more than 64 MiB"),
    (".at 67108864\nNOP", "2, column 1: more than 64 MiB"),
    (
        ".byte 1\n HLT",
        "2, column 2: an instruction off a multiple of 8",
    ),
    ("LI r1, 5 - x", "1, column 12: no such name"),
    (".byte 1, 256", "1, column 10: out of range"),
    (".byte -129", "1, column 7: out of range"),
    (".u16 65536", "1, column 6: out of range"),
    (".u32 0x1_0000_0000", "1, column 6: out of range"),
    (".u64 -9223372036854775809", "1, column 6: out of range"),
    ("LI r1, 0xc000_0082", "1, column 8: out of range"),
    ("LI r1, -2147483649", "1, column 8: out of range"),
    ("LIH r1, 0x1_0000_0000", "1, column 9: out of range"),
    ("LIH r1, -2147483649", "1, column 9: out of range"),
    (
        "LOAD r1, 1 byte at r2 + 2147483648",
        "1, column 23: out of range",
    ),
    ("a: JMP a + 2147483648", "1, column 8: the jump is too far"),
    ("JMP 2147483648", "1, column 5: the jump is too far"),
    ("a: JMP a + a", "1, column 8: want one label or a distance"),
    ("a: JMP 8 - a", "1, column 8: want one label or a distance"),
    (
        "JMP x\nHALT",
        "2, column 1: want an instruction, data, .at or a name",
    ),
    ("JMP x\nLI r1, 0x1_0000_0000", "1, column 5: no such name"),
    (
        "a: JMP a + a\nJMP x",
        "1, column 8: want one label or a distance",
    ),
];

// What `hex` answers to a source with this text.
fn answer(alloc: Global, text: &str) -> Result<String, Fail> {
    let mut held = Vec::new(alloc);
    let bytes = Vec::from_slice(alloc, text.as_bytes())?;
    held.push((String::from_str(alloc, "source")?, bytes))?;
    let mut files = MemFiles::make(held, Vec::new(alloc));
    let mut out = MemSink::make(alloc, 200, Vec::new(alloc), 0)?;
    call(alloc, "hex source", &mut files, &mut out)
}

// A text between these, where it stands so.
fn between<'a>(text: &'a str, before: &str, behind: &str) -> Option<&'a str> {
    text.strip_prefix(before)?.strip_suffix(behind)
}

#[test]
fn what_is_said(rt: HostRuntime) -> Result<(), Fail> {
    let alloc = rt.alloc();
    for &(text, want) in DIGITS {
        let answer = answer(alloc, text)?;
        assert!(rt;
            between(answer.as_str(), "0 ", "\n") == Some(want),
            "{text}: {answer}"
        );
    }
    Ok(())
}

#[test]
fn what_is_refused(rt: HostRuntime) -> Result<(), Fail> {
    let alloc = rt.alloc();
    for &(text, want) in FAULTS {
        let answer = answer(alloc, text)?;
        assert!(rt;
            between(answer.as_str(), "2 muen_asm: line ", "\n") == Some(want),
            "{text}: {answer}"
        );
    }
    Ok(())
}
