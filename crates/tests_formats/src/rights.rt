//! The rights against the bits of an EPT entry.
use crate::agree::agree;
use policy_lawful::Rights;

#[test]
fn has_the_bits_of_an_ept_entry(rt: HostRuntime) {
    let cases = [
        (Rights::R, 1),
        (Rights::Rw, 3),
        (Rights::Rx, 5),
        (Rights::Rwx, 7),
    ];
    for (rights, bits) in cases {
        agree(&rt, rights.bits(), bits);
        agree(&rt, rights.may_write(), bits & 2 != 0);
        agree(&rt, rights.may_execute(), bits & 4 != 0);
    }
    assert!(rt; Rights::Rwx.includes(Rights::Rw));
    assert!(rt; !Rights::Rx.includes(Rights::Rw));
}
