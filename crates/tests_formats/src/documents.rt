//! Documents, with the text of the first place that breaks the schema, or with none.
use crate::agree::{agree, agree_at};
use policy_json::read;
use policy_lawful::Refusal;
use std::alloc::Global;
use std::test::Fail;

// Each row is a document, with `@` for a processor and a plan, and the text of why it is refused. Of
// each kind of value and of each object, one isn't as wanted; then rows have two faults, of which the
// first is named. The last row has a part of each kind, and every key.
const DOCUMENTS: &str = r#"{=>not JSON
[]=>shape at : want object
{}=>shape at /processor: want present
{"processor":{"logicalCpus":1}}=>shape at /scheduling: want present
{"processor":1}=>shape at /processor: want object
{"processor":{"logicalCpus":-1},"more":1}=>shape at : want known keys
{"description":1,"processor":{"logicalCpus":18446744073709551616}}=>shape at /processor/logicalCpus: want number
{@,"memoryBlocks":[{"name":"a","physicalAddress":"16#10__0#","size":1}]}=>shape at /memoryBlocks/0/physicalAddress: want number
{@,"memory":[{"name":"a","size":1},{"name":"b","size":1,"content":{"fill":256}}]}=>shape at /memory/1/content/fill: want byte
{@,"memory":[{"name":"a","size":1,"content":{"fill":300,"hex":"00"}}]}=>shape at /memory/0/content: want one content
{@,"memory":[{"name":"a","size":1,"content":{"hex":"","offset":0}}]}=>shape at /memory/0/content: want one content
{@,"memory":[{"name":"a","size":1,"sharedMemory":["s",""]}]}=>shape at /memory/0/sharedMemory/1: want name
{@,"devices":[{"name":"d","bdf":{"bus":256}}]}=>shape at /devices/0/bdf/bus: want byte
{@,"channels":[{"name":"c","size":1,"hasEvent":"own"}]}=>shape at /channels/0/hasEvent: want mode
{@,"components":[{"name":"c","channels":[{"logical":"l","role":"both"}]}]}=>shape at /components/0/channels/0/role: want role
{@,"subjects":[{"name":"s","cpu":0,"entry":0,"component":{"map":[]}}]}=>shape at /subjects/0/component/ref: want present
{@,"subjects":[{"name":"s","cpu":0,"entry":0,"memory":[{"region":"a","virtualAddress":0,"rights":"wx"}]}]}=>shape at /subjects/0/memory/0/rights: want rights
{@,"subjects":[{"name":"s","cpu":0,"entry":0,"msrs":[{"start":0,"end":0,"rights":"rx"}]}]}=>shape at /subjects/0/msrs/0/rights: want rights
{@,"subjects":[{"name":"s","cpu":0,"entry":0,"sources":[{"event":"","call":1,"trap":2}]}]}=>shape at /subjects/0/sources/0: want call or trap
{@,"subjects":[{"name":"s","cpu":0,"entry":0,"monitors":[{"subject":"t","virtualAddress":0,"rights":"r","size":0}]}]}=>shape at /subjects/0/monitors/0: want known keys
{@,"deviceDomains":[{"name":"d","devices":{}}]}=>shape at /deviceDomains/0/devices: want list
{@,"memoryBlocks":[{"name":"","base":0}]}=>shape at /memoryBlocks/0: want known keys
{@,"memory":[{"name":"a","size":1,"content":{"zero":0}}]}=>shape at /memory/0/content: want known keys
{@,"memory":[{"size":-1,"name":""}]}=>shape at /memory/0/name: want name
{@,"memory":[{"size":-1}]}=>shape at /memory/0/name: want present
{@,"deviceDomains":0,"subjects":[{"name":"s","cpu":0,"entry":0,"monitors":0,"targets":0}]}=>shape at /subjects/0/targets: want list
{@,"memory":1,"memoryBlocks":[{"name":"a","physicalAddress":0,"size":-1}]}=>shape at /memoryBlocks/0/size: want number
{@,"memory":[{"name":"a"},1]}=>shape at /memory/0/size: want present
{@,"memory":1,"memory":[{}]}=>shape at /memory/0/name: want present
{@,"memoryBlocks":[{"name":"ram","physicalAddress":0,"size":"16#1000#"}],"devices":[{"name":"d","memory":[{"name":"m","physicalAddress":0,"size":1}],"ioPorts":[{"name":"p","start":0,"end":1}],"irqs":[{"name":"i"}],"bdf":{"bus":0,"device":3,"function":0}}],"memory":[{"name":"a","size":1,"caching":"UC","alignment":2097152,"physicalAddress":0,"content":{"file":"f","offset":1,"length":2},"sharedMemory":["s"]}],"channels":[{"name":"c","size":1,"hasEvent":"async"}],"components":[{"name":"k","provides":[{"logical":"l","virtualAddress":0,"size":1,"rights":"rx","content":{"hex":"0F"}}],"memory":[{"logical":"m","virtualAddress":0,"size":1,"rights":"r"}],"channels":[{"logical":"n","role":"writer","virtualAddress":0,"size":1,"call":1,"vector":2}]}],"events":[{"name":"e","mode":"self"}],"subjects":[{"name":"s","cpu":0,"entry":0,"component":{"ref":"k","map":[{"logical":"m","physical":"a","rights":"r"}]},"channels":[{"channel":"c","role":"reader","virtualAddress":0,"call":1,"vector":40}],"devices":[{"device":"d","memory":[{"memory":"m","virtualAddress":0,"rights":"rw"}],"ioPorts":["p"],"irqs":[{"irq":"i","vector":41}]}],"msrs":[{"start":0,"end":1,"rights":"w"}],"sources":[{"event":"e","trap":6}],"targets":[{"event":"e","vector":42}],"monitors":[{"subject":"t","virtualAddress":0,"rights":"rw"}]}],"deviceDomains":[{"name":"o","devices":["d"],"memory":[{"region":"a","virtualAddress":0,"rights":"rw"}]}]}=>accepted"#;

fn refusal(alloc: Global, document: &[u8]) -> Option<Refusal> {
    read(alloc, document).err()
}

// What reading the document of a row answers, as a text.
fn answer(alloc: Global, document: &str) -> Result<String, Fail> {
    let both = r#""processor":{"logicalCpus":1},"scheduling":{}"#;
    let text = document.replace(alloc, '@', both)?;
    match refusal(alloc, text.as_str().as_bytes()) {
        None => Ok(String::from_str(alloc, "accepted")?),
        Some(refusal) => Ok(refusal.to_string(alloc)?),
    }
}

#[test]
fn documents(rt: HostRuntime) -> Result<(), Fail> {
    let alloc = rt.alloc();
    for row in DOCUMENTS.split('\n') {
        let Some((document, want)) = row.split_once("=>") else {
            return Err(Fail::new("no row"));
        };
        agree_at(&rt, answer(alloc, document)?.as_str(), want, row);
    }
    let broken = b"{\"processor\":\"\xff\"}";
    agree(&rt, refusal(alloc, broken), Some(Refusal::NotJson));
    Ok(())
}
