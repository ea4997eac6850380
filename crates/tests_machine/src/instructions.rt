//! The table, spelled by hand. What instructions do is worked out in `proofs/Examples.antt`.
use crate::agree::agree;
use guest_isa::{decode, encode};
use std::test::Fail;

// Each row has eight bytes, and the instruction that they spell, or `None`.
const TABLE: &str =
    r#"0000000000000000=>Some(Instr { opcode: Nop, rd: 0, rs: 0, size: One, imm: 0 })
01300000feffffff=>Some(Instr { opcode: Li, rd: 3, rs: 0, size: One, imm: -2 })
02f0000000000080=>Some(Instr { opcode: Lih, rd: 15, rs: 0, size: One, imm: -2147483648 })
0312000000000000=>Some(Instr { opcode: Mov, rd: 1, rs: 2, size: One, imm: 0 })
0412000000000000=>Some(Instr { opcode: Add, rd: 1, rs: 2, size: One, imm: 0 })
0512000000000000=>Some(Instr { opcode: Sub, rd: 1, rs: 2, size: One, imm: 0 })
0612000000000000=>Some(Instr { opcode: And, rd: 1, rs: 2, size: One, imm: 0 })
0712000000000000=>Some(Instr { opcode: Or, rd: 1, rs: 2, size: One, imm: 0 })
0812000000000000=>Some(Instr { opcode: Xor, rd: 1, rs: 2, size: One, imm: 0 })
0912000000000000=>Some(Instr { opcode: Shl, rd: 1, rs: 2, size: One, imm: 0 })
0a12000000000000=>Some(Instr { opcode: Shr, rd: 1, rs: 2, size: One, imm: 0 })
0b120300f8ffffff=>Some(Instr { opcode: Load, rd: 1, rs: 2, size: Eight, imm: -8 })
0c12020004030201=>Some(Instr { opcode: Store, rd: 1, rs: 2, size: Four, imm: 16909060 })
0d00000008000000=>Some(Instr { opcode: Jmp, rd: 0, rs: 0, size: One, imm: 8 })
0e40000008000000=>Some(Instr { opcode: Jz, rd: 4, rs: 0, size: One, imm: 8 })
0f40000008000000=>Some(Instr { opcode: Jnz, rd: 4, rs: 0, size: One, imm: 8 })
1045000008000000=>Some(Instr { opcode: Jb, rd: 4, rs: 5, size: One, imm: 8 })
11120100f8030000=>Some(Instr { opcode: In, rd: 1, rs: 2, size: Two, imm: 1016 })
12120200ffffffff=>Some(Instr { opcode: Out, rd: 1, rs: 2, size: Four, imm: -1 })
1312000000000000=>Some(Instr { opcode: Rdmsr, rd: 1, rs: 2, size: One, imm: 0 })
1412000000000000=>Some(Instr { opcode: Wrmsr, rd: 1, rs: 2, size: One, imm: 0 })
1510000000000000=>Some(Instr { opcode: Rdtsc, rd: 1, rs: 0, size: One, imm: 0 })
1602000000000000=>Some(Instr { opcode: Vmcall, rd: 0, rs: 2, size: One, imm: 0 })
1700000000000000=>Some(Instr { opcode: Hlt, rd: 0, rs: 0, size: One, imm: 0 })
1800000000000000=>Some(Instr { opcode: Sti, rd: 0, rs: 0, size: One, imm: 0 })
1900000000000000=>Some(Instr { opcode: Cli, rd: 0, rs: 0, size: One, imm: 0 })
1a02000000000000=>Some(Instr { opcode: Setv, rd: 0, rs: 2, size: One, imm: 0 })
1b00000000000000=>Some(Instr { opcode: Reti, rd: 0, rs: 0, size: One, imm: 0 })
1c00000000000000=>None
ff00000000000000=>None
0000000100000000=>None
0b12040000000000=>None
1112030000000000=>None
1212030000000000=>None
1312010000000000=>None
1511000000000000=>None
1612000000000000=>None
1a02000001000000=>None
1b10000000000000=>None"#;

fn spelled(digits: &str) -> Result<[u8; 8], Fail> {
    match u64::from_str_radix(digits, 16) {
        Ok(word) => Ok(word.to_be_bytes()),
        Err(_) => Err(Fail::new("no bytes")),
    }
}

#[test]
fn decodes_and_encodes(rt: HostRuntime) -> Result<(), Fail> {
    let alloc = rt.alloc();
    for row in TABLE.split('\n') {
        let Some((digits, want)) = row.split_once("=>") else {
            return Err(Fail::new("no row"));
        };
        let bytes = spelled(digits)?;
        let found = decode(bytes);
        agree(&rt, format!(in alloc; "{found:?}")?.as_str(), want);
        if let Some(i) = found {
            agree(&rt, encode(&i), bytes);
        }
    }
    Ok(())
}
