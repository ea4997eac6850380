//! The systems of whole calls.

/// A subject that loads a number and halts.
pub(crate) const ONE: &str = r#"{"processor":{"logicalCpus":1},
"memoryBlocks":[{"name":"ram","physicalAddress":1048576,"size":65536}],
"memory":[{"name":"code","size":4096,"content":{"hex":"01100000050000001700000000000000"}}],
"subjects":[{"name":"one","cpu":0,"entry":4194304,
"memory":[{"region":"code","virtualAddress":4194304,"rights":"rx"}]}],
"scheduling":{"groups":[{"name":"g","cpu":0,"subjects":["one"]}],
"majorFrames":[{"cpus":[{"cpu":0,"minorFrames":[{"group":"g","ticks":10}]}]}]}}"#;

/// Contents from files stand in place of `MEMORY`.
pub(crate) const FROM_FILES: &str = r#"{"processor":{"logicalCpus":1},
"memoryBlocks":[{"name":"ram","physicalAddress":1048576,"size":131072}],"memory":[MEMORY],
"subjects":[{"name":"one","cpu":0,"entry":0}],
"scheduling":{"groups":[{"name":"g","cpu":0,"subjects":["one"]}],
"majorFrames":[{"cpus":[{"cpu":0,"minorFrames":[{"group":"g","ticks":1}]}]}]}}"#;

/// Three regions whose contents are in files.
pub(crate) const THREE_FILES: &str = r#"{"processor":{"logicalCpus":1},
"memoryBlocks":[{"name":"ram","physicalAddress":1048576,"size":131072}],"memory":[{"name":"r0","size":4096,"content":{"file":"zero"}},
{"name":"r1","size":4096,"content":{"file":"three"}},
{"name":"r2","size":4096,"content":{"file":"late"}}],
"subjects":[{"name":"one","cpu":0,"entry":0}],
"scheduling":{"groups":[{"name":"g","cpu":0,"subjects":["one"]}],
"majorFrames":[{"cpus":[{"cpu":0,"minorFrames":[{"group":"g","ticks":1}]}]}]}}"#;

/// A jump to itself.
pub(crate) const LOOP: &str = r#"{"processor":{"logicalCpus":1},
"memoryBlocks":[{"name":"ram","physicalAddress":1048576,"size":131072}],
"memory":[{"name":"code","size":4096,"content":{"hex":"0d00000000000000"}}],
"subjects":[{"name":"one","cpu":0,"entry":0,
"memory":[{"region":"code","virtualAddress":0,"rights":"rx"}]}],
"scheduling":{"groups":[{"name":"g","cpu":0,"subjects":["one"]}],
"majorFrames":[{"cpus":[{"cpu":0,"minorFrames":[{"group":"g","ticks":10}]}]}]}}"#;

/// The writer and the reader of a channel, on two CPUs.
pub(crate) const CHANNEL: &str =
    r#"{"processor":{"logicalCpus":2},"memoryBlocks":[{"name":"ram","physicalAddress":1048576,"size":1048576}],
"memory":[{"name":"writer_code","size":4096,"content":{"hex":"01100000070000000120000000006000000000000000000000000000000000000c12030000000000"}},
{"name":"reader_code","size":4096,"content":{"hex":"01200000000060000000000000000000000000000000000000000000000000000b52030000000000"}}],
"subjects":[{"name":"writer","cpu":0,"entry":4194304,
"memory":[{"region":"writer_code","virtualAddress":4194304,"rights":"rx"}],"channels":[{"channel":"ch","role":"writer","virtualAddress":6291456}]},
{"name":"reader","cpu":1,"entry":4194304,
"memory":[{"region":"reader_code","virtualAddress":4194304,"rights":"rx"}],"channels":[{"channel":"ch","role":"reader","virtualAddress":6291456}]}],
"scheduling":{"groups":[{"name":"gw","cpu":0,
"subjects":["writer"]},
{"name":"gr","cpu":1,
"subjects":["reader"]}],"majorFrames":[{"cpus":[{"cpu":0,"minorFrames":[{"group":"gw","ticks":5}]},{"cpu":1,"minorFrames":[{"group":"gr","ticks":5}]}]}]},"channels":[{"name":"ch","size":4096}]}"#;

/// A device in a domain with `buf`, to write, and with `log`, to read.
pub(crate) const NIC: &str = r#"{"processor":{"logicalCpus":1},
"memoryBlocks":[{"name":"ram","physicalAddress":1048576,"size":1048576}],
"devices":[{"name":"nic","bdf":{"bus":0,"device":3,"function":0}},{"name":"card"}],
"memory":[{"name":"code","size":4096,"content":{"hex":"01200000000050000b12030008000000"}},
{"name":"buf","size":4096},{"name":"log","size":4096}],
"subjects":[{"name":"one","cpu":0,"entry":4194304,
"memory":[{"region":"code","virtualAddress":4194304,"rights":"rx"},
{"region":"buf","virtualAddress":5242880,"rights":"r"}]}],
"scheduling":{"groups":[{"name":"g","cpu":0,"subjects":["one"]}],
"majorFrames":[{"cpus":[{"cpu":0,"minorFrames":[{"group":"g","ticks":10}]}]}]},
"deviceDomains":[{"name":"d","devices":["nic"],
"memory":[{"region":"log","virtualAddress":8192,"rights":"r"},
{"region":"buf","virtualAddress":4096,"rights":"rw"}]}]}"#;

/// A gateway that only sends out: components, channels with events, a device.
pub(crate) const GATEWAY: &str =
    r#"{"processor":{"logicalCpus":2},"memoryBlocks":[{"name":"ram","physicalAddress":"16#0100_0000#","size":"16#0020_0000#"}],
"devices":[{"name":"net","ioPorts":[{"name":"regs","start":768,"end":783}],"irqs":[{"name":"rx"}]}],"memory":[{"name":"black_code",
"size":"16#1000#","content":{"hex":"012000000010600001900000f0fe3f001a09000000000000180000000000000017000000000000000d000000f8ffffff0b5203000000000012570000000300001b000000000000001b00000000000000"}}],
"channels":[{"name":"job","size":"16#1000#","hasEvent":"asap"},{"name":"key","size":"16#1000#","hasEvent":"asap"},
{"name":"beat","size":"16#1000#","hasEvent":"async"},{"name":"sealed","size":"16#1000#","hasEvent":"asap"}],"components":[{"name":"feed",
"provides":[{"logical":"text","virtualAddress":"16#0040_0000#","size":"16#1000#","rights":"rx","content":{"hex":"0110000007000000012000000000600001300000010000000c12030000000000160300000000000004130000000000000d000000e8ffffff"}}],
"channels":[{"logical":"out","role":"writer","virtualAddress":"16#0060_0000#","size":"16#1000#","call":1}]},{"name":"crypt",
"provides":[{"logical":"text","virtualAddress":"16#0040_0000#","size":"16#1000#","rights":"rx","content":{"hex":"0120000000006000013000000100000001400000001060000b540300000000000b6403000010000008560000000000000c5203000000000016030000000000000d000000d8ffffff"}}],
"channels":[{"logical":"out","role":"writer","virtualAddress":"16#0060_0000#","size":"16#1000#","call":1},{"logical":"job",
"role":"reader","virtualAddress":"16#0060_1000#","size":"16#1000#","vector":40},{"logical":"key","role":"reader",
"virtualAddress":"16#0060_2000#","size":"16#1000#","vector":41},{"logical":"beat","role":"reader","virtualAddress":"16#0060_3000#",
"size":"16#1000#","vector":42}]}],"subjects":[{"name":"plain","cpu":0,"entry":"16#0040_0000#","component":{"ref":"feed",
"map":[{"logical":"out","physical":"job"}]}},{"name":"keys","cpu":1,"entry":"16#0040_0000#","component":{"ref":"feed",
"map":[{"logical":"out","physical":"key"}]}},{"name":"slots","cpu":1,"entry":"16#0040_0000#","component":{"ref":"feed",
"map":[{"logical":"out","physical":"beat"}]}},{"name":"cipher","cpu":1,"entry":"16#0040_0000#","component":{"ref":"crypt",
"map":[{"logical":"out","physical":"sealed"},{"logical":"job","physical":"job"},{"logical":"key","physical":"key"},
{"logical":"beat","physical":"beat"}]}},{"name":"black","cpu":0,"entry":"16#0040_0000#","memory":[{"region":"black_code",
"virtualAddress":"16#0040_0000#","rights":"rx"}],"channels":[{"channel":"sealed","role":"reader","virtualAddress":"16#0060_1000#",
"vector":40}],"devices":[{"device":"net","ioPorts":["regs"],"irqs":[{"irq":"rx","vector":43}]}]}],"scheduling":{"groups":[{"name":"gplain",
"cpu":0,"subjects":["plain"]},{"name":"gblack","cpu":0,"subjects":["black"]},{"name":"gkeys","cpu":1,"subjects":["keys"]},
{"name":"gslots","cpu":1,"subjects":["slots"]},{"name":"gcipher","cpu":1,"subjects":["cipher"]}],"majorFrames":[{"cpus":[{"cpu":0,
"minorFrames":[{"group":"gplain","ticks":30},{"group":"gblack","ticks":20}]},{"cpu":1,"minorFrames":[{"group":"gkeys",
"ticks":10},{"group":"gslots","ticks":10},{"group":"gcipher","ticks":30}]}]}]}}"#;
