//! Rows of calls, each with what it comes to: of each call the status and the line of errors, how often
//! something was put to the output and in brackets what was kept of it, with strokes for its lines' ends;
//! and what stands in files that the calls have made. Three points stand for anything. Behind bars come
//! the calls on files that fail; the puts that fail, how many bytes are kept of each, and the room of the
//! output; the calls' words, and changes to the system.

/// A call of each command that ends well: so many calls on files it makes, and those behind them fail.
pub(crate) const OF_EACH_COMMAND: &str = r#"0, image MUENIMG1 | 23 |  | build p image
0, image MUENIMG1, tables MUENDMA1 | 3 |  | build p image tables
0, puts ... [0 0 one 0000000000400000 r1=0000000000000005/1 0 one 0000000000400008 exit 12 0000000000000000 0000000000000000 halt/end one 0000000000400010 0000000000000000 0000000000000000 10/regs one 0 0000000000000000 0000000000000005 0000000000000000 0000000000000000/regs one 4 0000000000000000 0000000000000000 0000000000000000 0000000000000000/regs one 8 0000000000000000 0000000000000000 0000000000000000 0000000000000000/regs one 12 0000000000000000 0000000000000000 0000000000000000 0000000000000000/region code d4837ed1427735f0510903e5523cb11cd438da2eb85d4aaea180ec5efa8719aa/] | 23 |  | run i three
0, puts ... [0 0 one 0000000000400000 r1=0000000000000005/1 0 one 0000000000400008 exit 12 0000000000000000 0000000000000000 halt/end one 0000000000400010 0000000000000000 0000000000000000 10/regs one 0 0000000000000000 0000000000000005 0000000000000000 0000000000000000/regs one 4 0000000000000000 0000000000000000 0000000000000000 0000000000000000/regs one 8 0000000000000000 0000000000000000 0000000000000000 0000000000000000/regs one 12 0000000000000000 0000000000000000 0000000000000000 0000000000000000/region code d4837ed1427735f0510903e5523cb11cd438da2eb85d4aaea180ec5efa8719aa/] | 3 |  | run i three t
0, puts ... [0 0 one 0000000000400000 r1=0000000000000005/1 0 one 0000000000400008 exit 12 0000000000000000 0000000000000000 halt/end one 0000000000400010 0000000000000000 0000000000000000 10/regs one 0 0000000000000000 0000000000000005 0000000000000000 0000000000000000/regs one 4 0000000000000000 0000000000000000 0000000000000000 0000000000000000/regs one 8 0000000000000000 0000000000000000 0000000000000000 0000000000000000/regs one 12 0000000000000000 0000000000000000 0000000000000000 0000000000000000/region code d4837ed1427735f0510903e5523cb11cd438da2eb85d4aaea180ec5efa8719aa/] | 23 |  | boot p three
0, puts ... [region 0000000000106000 0000000000001000 code/region 0000000000107000 0000000000001000 one:state/region 0000000000100000 0000000000004000 one:ept/region 0000000000104000 0000000000002000 one:iobm/region 0000000000108000 0000000000001000 one:msrbm/region 0000000000109000 0000000000001000 one:msrs/window one 0000000000400000 0000000000001000 rx code/] | 123 |  | map p
0, puts ... [flow one from one/] | 123 |  | flows p
0, puts ... [sound/] | 23 |  | verify i p
0, puts ... [subjects 2/ticks 20000/trace 956825/sha256 ad893307bcd939ce24cde01ab1d804f663e4e4f7b94a4be7cdcf5aa5c3ede6ae/] | 0123 |  | load 0"#;

/// A call on files fails, or the first put, or it has no room.
pub(crate) const OF_ONE: &str = r#"4 muen: file fault | 0 |  | build p new
4 muen: file fault | 1 |  | build p new
4 muen: file fault | 0 |  | build p new tables
4 muen: file fault | 1 |  | build p new tables
4 muen: file fault | 2 |  | build p new tables
4 muen: file fault | 1 |  | build p image tables
4 muen: file fault, image MUENIMG1 | 2 |  | build p image tables
4 muen: file fault | 0 |  | boot p three
4 muen: file fault | 1 |  | boot p three
4 muen: file fault | 0 |  | run i three
4 muen: file fault | 1 |  | run i three
4 muen: file fault | 0 |  | map p
4 muen: file fault | 0 |  | flows p
4 muen: file fault | 0 |  | verify i p
4 muen: file fault | 1 |  | verify i p
7 muen: output fault, puts 1 [] |  | 0 0 1000 | boot p three
7 muen: output fault, puts 1 [0] |  | 0 1 1000 | boot p three
7 muen: output fault, puts 1 [0 0] |  | 0 3 1000 | boot p three
7 muen: output fault, puts 1 [0 0 one 0000000000400000 r1=0000000000000005/1 0 one 0000000] |  | 0 60 1000 | boot p three
7 muen: output fault, puts 1 [0 0 one 0000000000400000 r1=0000000000000005/1 0 one 0000000] |  | 9 3 60 | boot p three
7 muen: output fault, puts ... | 1 | 9 0 10 | map p
7 muen: output fault, puts ... | 1 | 9 0 10 | flows p
7 muen: output fault, puts 1 [sou] |  | 0 3 1000 | verify i p
7 muen: output fault, puts 1 [s] |  | 0 1 500 | load 0
4 muen: file fault | 0 |  | verify i p | "hex":"01100000050000001700000000000000"=>"file":"short"
4 muen: file fault | 1 |  | verify i p | "hex":"01100000050000001700000000000000"=>"file":"short"
4 muen: file fault | 2 |  | verify i p | "hex":"01100000050000001700000000000000"=>"file":"short"
0, puts ... [sound/] | 3 |  | verify i p | "hex":"01100000050000001700000000000000"=>"file":"short"
0, puts ... [sound/] | 2 |  | verify i p | "hex":"01100000050000001700000000000000"=>"file":"i","length":8"#;

/// A file that is named twice is read once, and the policy's own name is no call; so it is with the name of
/// the record, which isn't looked at again where it is too long. Call 0 reads the policy.
pub(crate) const OF_CONTENTS: &str =
    r#"3 muen: missing file absent | 3 |  | boot p absent | MEMORY=>{"name":"r","size":4096,"content":{"file":"page"}},{"name":"q","size":4096,"content":{"file":"page"}}
4 muen: file fault | 2 |  | boot p absent | MEMORY=>{"name":"r","size":4096,"content":{"file":"page"}},{"name":"q","size":8192,"content":{"file":"long"}}
3 muen: missing file absent | 2 |  | boot p absent | MEMORY=>{"name":"r","size":4096,"content":{"file":"p"}}
6 muen: record refused at line 1: word | 2 |  | boot p page | MEMORY=>{"name":"r","size":4096,"content":{"file":"page"}}
6 muen: record refused at line 1: word | 1 |  | boot p p | MEMORY=>{"name":"r","size":4096,"content":{"file":"p"}}
0, puts ... [0 0 one 0000000000000000 exit 48 0000000000000004 0000000000000000 stop/end one 0000000000000000 0000000000000000 0000000000000000 12/... | 2 |  | boot p three | MEMORY=>{"name":"r","size":4096,"content":{"file":"three"}}
3 muen: file longer has 16777217 bytes | 2 |  | boot p longer | MEMORY=>{"name":"r","size":4096,"content":{"file":"longer","length":1}}"#;

/// `build` reads three files of contents by the calls 1 to 3, and writes the image by call 4.
pub(crate) const OF_THREE_FILES: &str = r#"4 muen: file fault | 0 |  | build p image
4 muen: file fault | 1 |  | build p image
4 muen: file fault | 2 |  | build p image
4 muen: file fault | 3 |  | build p image
4 muen: file fault | 4 |  | build p image
0, image MUENIMG1 | 5 |  | build p image"#;

/// A text of more than 64 KiB is put in blocks of at most so many bytes, each of whole lines: one goes on
/// where fewer than 256 bytes, the most that a line has, would fit behind it. Each line of this text has 30,
/// and 65,310 leave 226.
pub(crate) const OF_LOOP: &str = r#"0, puts ... [89345 bytes] |  |  | boot p thousands
7 muen: output fault, puts 2 [65313 bytes] |  | 1 3 200000 | boot p thousands"#;

/// The calls on files of `run`. A record that is the image's file is read once.
pub(crate) const OF_CHANNEL: &str = r#"4 muen: file fault | 0 |  | run i one
4 muen: file fault | 1 |  | run i one
6 muen: record refused at line 1: ... | 1 |  | run i i"#;

/// Call 0 reads the policy, and the calls 1 and 2 write the image and the tables; 3, 4 and 5 read the
/// image, the tables and the record. Nothing is put before the last.
pub(crate) const OF_NIC: &str =
    r#"4 muen: file fault; 3 muen: missing file i | 0 |  | build p i t, run i none t
4 muen: file fault; 3 muen: missing file i | 1 |  | build p i t, run i none t
4 muen: file fault; 3 muen: missing file t | 2 |  | build p i t, run i none t
0; 4 muen: file fault | 3 |  | build p i t, run i none t
0; 4 muen: file fault | 4 |  | build p i t, run i none t
0; 4 muen: file fault | 5 |  | build p i t, run i none t
0; 0, puts ... [end one ... | 6 |  | build p i t, run i none t
7 muen: output fault, puts 1 [end] |  | 0 3 1000 | run i none t"#;

/// Three blocks of text. Each put fails in turn, with nothing kept of it, one byte, or all.
pub(crate) const OF_GATEWAY: &str =
    r#"7 muen: output fault, puts 1 [] |  | 0 0 1000000 | run i inputs
7 muen: output fault, puts 2 [... |  | 1 0 1000000 | run i inputs
7 muen: output fault, puts 3 [... |  | 2 0 1000000 | run i inputs
0, puts 3 [... |  | 34 0 1000000 | run i inputs
7 muen: output fault, puts 1 [0] |  | 0 1 1000000 | run i inputs
7 muen: output fault, puts 2 [... |  | 1 1 1000000 | run i inputs
7 muen: output fault, puts 3 [... |  | 2 1 1000000 | run i inputs
0, puts 3 [... |  | 34 1 1000000 | run i inputs
7 muen: output fault, puts 1 [... |  | 0 1000000 1000000 | run i inputs
7 muen: output fault, puts 2 [... |  | 1 1000000 1000000 | run i inputs
7 muen: output fault, puts 3 [... |  | 2 1000000 1000000 | run i inputs
0, puts 3 [... |  | 34 1000000 1000000 | run i inputs"#;
