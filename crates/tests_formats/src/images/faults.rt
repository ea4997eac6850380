//! Damaged images, and what unpacking answers: the first fault, or that they are images.
use super::answer;
use super::spelled::{CHOSEN, PLAIN, spelled};
use crate::agree::agree_at;
use std::alloc::Global;
use std::test::Fail;

// Each row has the answer and, behind bars, changes to the image: an offset in it, and the bytes that
// are put there in hexadecimal. An offset alone is the image's new length.
const PLAIN_ROWS: &str = r#"image refused at 0: magic | 7 33
image refused at 8: count | 8 0
image refused at 8: count | 8 9
image refused at 9: count | 9 21
image refused at 10: count | 10 0
image refused at 11: count | 11 11
image refused at 12: count | 12 21
image refused at 13: zero | 15 1
image refused at 16: count | 17 5
image refused at 18: zero | 23 1
image refused at 24: place | 24 1
image refused at 184: place | 185 30
image refused at 32: pages | 32 0
image refused at 36: number | 36 6
image refused at 196: number | 196 2
image refused at 38: kind | 38 5
image refused at 39: part | 38 4
image refused at 39: part | 39 7
image refused at 40: name | 40 0
image refused at 40: name | 44 1
image refused at 104: name | 104 1
image refused at 168: zero | 183 1
image refused at 984: cpu | 984 1
image refused at 985: first | 985 1
image refused at 986: zero | 991 1
image refused at 992: cpu | 992 1
image refused at 993: group | 993 1
image refused at 994: msrs | 994 41
image refused at 996: span | 996 0
image refused at 998: span | 998 1
image refused at 1008: eptp | 1008 1c
image refused at 1008: eptp | 1013 1
image refused at 1088: event | 1088 5
image refused at 1600: ticks | 1600 0
image refused at 1612: ticks | 1612 9
image refused at 1616: count | 8 8
image refused at 9: count | 9 0
image refused at 1600: cpu | 9 20
image refused at 994: zero | 10 20
image refused at 10: count | 10 21
image refused at 11: count | 11 0
image refused at 1616: ticks | 11 10
image refused at 1616: name | 12 20
image refused at 26: zero | 16 0
image refused at 984: place | 16 80 4
image refused at 16: count | 16 81 4
image | 24 0 0 0
image refused at 836: number | 36 5
image refused at 39: part | 39 1
image | 39 2
image | 39 6
image refused at 359: part | 359 1
image refused at 38480: short | 832 f7 3f
image refused at 838: kind | 832 f8 3f
image refused at 995: zero | 995 1
image refused at 996: span | 996 6
image refused at 1004: zero | 1004 1
image | 1009 f0 ff ff ff
image refused at 1008: eptp | 1009 f0 ff ff ff 1
image refused at 1016: name | 1016 0
image refused at 1080: zero | 1080 1
image refused at 1596: event | 1596 1 0 1f
image refused at 1596: event | 1596 1 1 20
image | 1596 2 0 20
image | 1596 3 0 ff
image refused at 1596: event | 1596 4 0 1f
image | 1596 4 0 0
image refused at 1612: ticks | 1600 a0 86 1
image | 1600 a0 86 1 0 1 0 0 0 0 0 0 0 a0 86 1
image refused at 1600: ticks | 1600 a1 86 1
image refused at 1616: group | 1604 40
image refused at 1604: count | 1604 41
image refused at 0: short | 0
image refused at 0: short | 7
image refused at 24: short | 31
image refused at 40: short | 103
image refused at 168: short | 183
image refused at 1596: short | 1599
image refused at 18000: short | 18000
image refused at 38480: short | 42575
image refused at 42576: trailing | 42577"#;

const CHOSEN_ROWS: &str = r#"image refused at 18: span | 18 8
image refused at 20: zero | 20 1
image refused at 678: kind | 18 2
image refused at 1929: group | 1305 1
image refused at 1321: group | 1313 0
image refused at 1416: event | 1418 0
image refused at 1416: event | 1419 1
image refused at 1420: event | 1420 0
image refused at 2540: count | 2540 0
image refused at 2542: zero | 2542 1
image refused at 2544: group | 2544 1
image refused at 2545: zero | 2546 1
image refused at 2548: ticks | 2548 0
image refused at 2556: ticks | 2548 4
image refused at 2664: count | 2664 11
image refused at 2667: zero | 2667 1
image refused at 2670: port | 2671 2
image refused at 2676: span | 2676 6
image refused at 2743: irq | 2743 1f
image refused at 2743: irq | 2742 2
image refused at 2811: irq | 2811 1
image refused at 2744: zero | 2745 1
image refused at 2746: name | 2747 72
image refused at 1158: kind | 18 7
image refused at 1326: span | 512 1
image refused at 35650: trailing | 512 2
image refused at 35650: short | 992 f8 3f
image refused at 1158: kind | 992 f9 3f
image refused at 999: part | 999 0
image | 1144 0 0 0 ff ff 0 0 0 0 10
image refused at 1158: kind | 1144 0 f0 ff fe ff 0 0 0 1 10
image refused at 1152: pages | 1152 2
image refused at 1159: part | 1159 0
image refused at 1224: name | 1224 0
image refused at 1321: group | 1304 1
image refused at 1304: cpu | 1304 2
image refused at 1305: first | 1305 2
image refused at 1321: group | 1321 1
image refused at 2682: port | 2664 10
image refused at 2678: span | 2665 10
image refused at 2665: count | 2665 11
image refused at 2879: irq | 2666 10
image refused at 2666: count | 2666 11
image | 2670 0
image refused at 2670: port | 2670 ff 2
image refused at 2676: span | 2676 8
image | 2742 1 ff
image | 2742 ff 0
image | 2743 20
image refused at 2814: name | 2815 63 61 72 64
image refused at 38: kind | 196 4 | 38 5
image refused at 1416: event | 1305 1 | 1417 2
image refused at 1321: group | 1929 0 | 1313 0
image refused at 2600: name | 2600 0 | 2814 0
image refused at 2743: irq | 2747 72 | 2743 1f
image refused at 2678: span | 2665 2 | 2678 7 0"#;

// Puts the bytes of a change at its offset, or gives the image its length.
fn change(alloc: Global, image: &mut Vec<u8>, change: &str) -> Result<(), Fail> {
    let (offset, new) = match change.split_once(' ') {
        Some(parts) => parts,
        None => (change, ""),
    };
    let offset: usize = offset.parse().ok().ok_or("a place")?;
    if new.is_empty() {
        image.resize(offset, 0)?;
    }
    let new = spelled(alloc, new)?;
    for (old, byte) in image.iter_mut().skip(offset).zip(&new) {
        *old = *byte;
    }
    Ok(())
}

// An image with the changes of a row.
fn changed(alloc: Global, image: &[u8], changes: &str) -> Result<Vec<u8>, Fail> {
    let mut bytes = image.to_vec(alloc)?;
    for one in changes.split(" | ") {
        change(alloc, &mut bytes, one)?;
    }
    Ok(bytes)
}

// What unpacking it answers.
fn answer_with(alloc: Global, image: &[u8], changes: &str) -> Result<String, Fail> {
    let bytes = changed(alloc, image, changes)?;
    answer(alloc, &bytes)
}

#[test]
fn faults(rt: HostRuntime) -> Result<(), Fail> {
    let alloc = rt.alloc();
    for (words, rows) in [(PLAIN, PLAIN_ROWS), (CHOSEN, CHOSEN_ROWS)] {
        let image = spelled(alloc, words)?;
        for row in rows.split('\n') {
            let (want, changes) = row.split_once(" | ").ok_or("a row")?;
            let found = answer_with(alloc, &image, changes)?;
            agree_at(&rt, found.as_str(), want, row);
        }
    }
    Ok(())
}
