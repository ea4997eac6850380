//! Records with their faults, and with their values.
use crate::agree::{agree, agree_at};
use muen_num::{IrqTarget, Name, PortSpan, Seq};
use record_text::{Devices, RecordDevice, RecordIrq, RecordMemory, read};
use std::alloc::Global;
use std::test::Fail;

fn name(text: &str) -> Result<Name, Fail> {
    match Name::read(text.as_bytes()) {
        Some(name) => Ok(name),
        None => Err(Fail::new("no name")),
    }
}

// An interrupt that a subject has, and one that nobody has.
fn irqs(alloc: Global) -> Result<Seq<RecordIrq>, Fail> {
    let target = IrqTarget {
        subject: 3,
        vector: 43,
    };
    let rx = RecordIrq {
        name: name("rx")?,
        target: Some(target),
    };
    let tx = RecordIrq {
        name: name("tx")?,
        target: None,
    };
    Ok(Seq::of(Vec::from_slice(alloc, &[rx, tx])?))
}

// Two CPUs and two devices, the second of which has nothing.
fn devices(alloc: Global) -> Result<Devices, Fail> {
    let buf = RecordMemory {
        name: name("buf")?,
        address: 0x20_0000,
        bytes: 4096,
    };
    let regs = PortSpan {
        start: 768,
        end: 783,
    };
    let net = RecordDevice {
        name: name("net")?,
        ports: Seq::of(Vec::from_slice(alloc, &[regs])?),
        memories: Seq::of(Vec::from_array(alloc, [buf])?),
        irqs: irqs(alloc)?,
    };
    let disk = RecordDevice {
        name: name("disk")?,
        ports: Seq::new(alloc),
        memories: Seq::new(alloc),
        irqs: Seq::new(alloc),
    };
    Ok(Devices {
        cpus: 2,
        devices: Seq::of(Vec::from_array(alloc, [net, disk])?),
    })
}

// Each row is a record, with `;` for the ends of its lines, and the text of its fault, with `@` for
// `record refused at line `.
const RECORDS: &str = r#"=>@1: no end
end 100001=>@1: range
end 100000=>accepted
end 1;=>accepted
end 0=>accepted
;=>@1: word
END 1=>@1: word
 end 1=>@1: word
end=>@1: count
end 1 =>@1: count
end  1=>@1: count
end 1 2=>@1: count
end =>@1: number
end 01=>@1: number
end +1=>@1: number
end 99999999999999999999x=>@1: number
end 18446744073709551616=>@1: range
xyz;end 1;ä=>@3: not ASCII
ä;ä=>@1: not ASCII
end 1;;=>@2: after end
order 3 0 1;end 2=>@2: back
irq 0 net none;port x=>@1: unknown
port 0 net 768=>@1: count
port 0 net 768 0 0=>@1: count
port 0 net 768 255;end 1=>accepted
port 0 net 768 256=>@1: range
port 0 net 65536 0=>@1: range
port x none 65536 0=>@1: number
port 100001 none x 0=>@1: range
port 0 none 65536 x=>@1: range
port 0 none 0 0=>@1: unknown
port 0 net 767 0=>@1: unknown
port 0 net 783 0;port 0 net 784 0=>@2: unknown
port 5 net 768 0;port 4 net 768 256=>@2: range
port 5 net 768 0;port 4 net 1 0=>@2: back
irq 0 net=>@1: count
irq 0 net ry=>@1: unknown
irq 0 disk rx=>@1: unknown
mem 0 net buf 4095 00;end 1=>accepted
mem 0 net buf 4096 00=>@1: unknown
mem 0 net buf 4095 0000=>@1: unknown
mem 0 net bug 0 00=>@1: unknown
mem 0 net buf 18446744073709551616 00=>@1: range
mem 0 net buf 0 0=>@1: hex
mem 0 net buf 0 0g=>@1: hex
mem 0 net buf 0 ffffffffffffffffffffffffffffffffffffffffffffffffffffffffffffffffffffffffffffffffffffffffffffffffffffffffffffffffffffffffffffffff;end 1=>accepted
mem 0 net buf 0 ffffffffffffffffffffffffffffffffffffffffffffffffffffffffffffffffffffffffffffffffffffffffffffffffffffffffffffffffffffffffffffffff00=>@1: hex
dma 0 net 281474976710655 00;end 1=>accepted
dma 0 net 281474976710656 00=>@1: range
dma 0 none 0 00=>@1: unknown
dma 0 net 0=>@1: count
dma 0 net 0 =>@1: hex
order 1 0=>@1: count
order 1 0 1 0=>@1: count
order 1 0 2=>@1: range
order 1 0 0=>@1: order
order 1 0 1;order 0 0 0=>@2: back
order 1 0 1;port 1 net 768 0;order 1 1 0=>@3: order
order 1 0 1;order 2 1 0;order 2 0 1=>@3: order"#;

// What reading a record answers, as a text.
fn answer(alloc: Global, record: &[u8], devices: &Devices) -> Result<String, Fail> {
    match read(alloc, record, devices).err() {
        None => Ok(String::from_str(alloc, "accepted")?),
        Some(fault) => Ok(fault.to_string(alloc)?),
    }
}

// The same of the record of a row.
fn answer_of_row(alloc: Global, record: &str, devices: &Devices) -> Result<String, Fail> {
    let text = record.replace(alloc, ';', "\n")?;
    answer(alloc, text.as_str().as_bytes(), devices)
}

#[test]
fn faults(rt: HostRuntime) -> Result<(), Fail> {
    let alloc = rt.alloc();
    let devices = devices(alloc)?;
    for row in RECORDS.split('\n') {
        let Some((record, want)) = row.split_once("=>") else {
            return Err(Fail::new("no row"));
        };
        let found = answer_of_row(alloc, record, &devices)?;
        let want = want.replace(alloc, '@', "record refused at line ")?;
        agree_at(&rt, found.as_str(), want.as_str(), row);
    }
    Ok(())
}

#[test]
fn values(rt: HostRuntime) -> Result<(), Fail> {
    let alloc = rt.alloc();
    let text =
        b"order 0 1 0\nport 0 net 768 255\nmem 1 net buf 4094 fF01\nirq 1 net rx\nirq 2 net tx\ndma 2 disk 7 0a\norder 2 0 1\nport 3 net 783 0\nend 3\n";
    let found = format!(in alloc; "{:?}", read(alloc, text, &devices(alloc)?))?;
    let wanted =
        "Ok(Record { end: 3, inputs: Seq { vec: [TickInput { tick: 0, input: Port { port: 768, value: 255 } }, TickInput { tick: 1, input: Mem { at: 2101246, bytes: Seq { vec: [255, 1] } } }, TickInput { tick: 1, input: Irq { subject: 3, vector: 43 } }, TickInput { tick: 2, input: Idle }, TickInput { tick: 2, input: Dma { device: 1, addr: 7, bytes: Seq { vec: [10] } } }, TickInput { tick: 3, input: Port { port: 783, value: 0 } }] }, orders: Seq { vec: [TickOrder { tick: 0, cpus: Seq { vec: [1, 0] } }, TickOrder { tick: 2, cpus: Seq { vec: [0, 1] } }] } })";
    agree(&rt, found.as_str(), wanted);
    Ok(())
}
