use crate::{BundleError, read_bundle};
use std::alloc::{AllocError, Global};
use std::process::Abort;
use std::test::Fail;
use tdl_image::{COUNTING_BYTES, write_bundle};

/// The example with another byte at some places.
fn changed(alloc: Global, changes: &[(usize, u8)]) -> Result<Vec<u8>, AllocError> {
    let mut bytes = Vec::from_slice(alloc, &COUNTING_BYTES)?;
    for (at, byte) in changes {
        if *at < bytes.len() {
            bytes[*at] = *byte;
        }
    }
    Ok(bytes)
}

fn check_fault(rt: &(impl Abort + AllocGlobal), name: &str, bytes: &[u8], rule: u8, at: u32) {
    assert!(rt; bytes.len() < 1000, "{name}");
    let answer = read_bundle(rt.alloc(), bytes).err();
    assert_eq!(rt; answer, Some(BundleError::BadBundle { rule, at }), "{name}");
}

fn check_read_back(rt: &(impl Abort + AllocGlobal), bytes: &[u8]) -> Result<(), Fail> {
    assert!(rt; bytes.len() < 1000);
    let bundle = read_bundle(rt.alloc(), bytes)?;
    let again = write_bundle(rt.alloc(), &bundle)?;
    assert_eq!(rt; again.as_slice(), bytes);
    Ok(())
}

#[test]
fn reads_the_example(rt: HostRuntime) -> Result<(), Fail> {
    check_read_back(&rt, &COUNTING_BYTES)
}

#[test]
fn ends_early(rt: HostRuntime) {
    for len in 0..COUNTING_BYTES.len() {
        check_fault(&rt, "prefix", &COUNTING_BYTES[..len], 2, len as u32);
    }
}

#[test]
fn goes_on(rt: HostRuntime) -> Result<(), Fail> {
    let mut longer = Vec::from_slice(rt.alloc(), &COUNTING_BYTES)?;
    longer.push(0)?;
    check_fault(&rt, "a byte more", longer.as_slice(), 3, 217);
    Ok(())
}

#[test]
fn one_byte_changed(rt: HostRuntime) -> Result<(), Fail> {
    let rows = [
        ("magic", 0, 0, 1, 0),
        ("version 9", 5, 9, 1, 4),
        ("no image", 7, 0, 4, 6),
        ("17 images", 7, 17, 4, 6),
        ("node's name of no bytes", 8, 0, 4, 8),
        ("name of 65 bytes", 19, 65, 4, 19),
        ("name `1`", 20, 0x31, 4, 19),
        ("kind 5", 23, 5, 4, 23),
        ("opcode 10", 63, 10, 4, 63),
        ("operator 13", 67, 13, 4, 67),
        ("resource 2", 107, 2, 4, 107),
        ("phase 0", 124, 0, 4, 124),
        ("phase 5", 124, 5, 4, 124),
        ("E-code opcode 9", 129, 9, 4, 129),
    ];
    for (name, at, byte, rule, fault) in rows {
        let bytes = changed(rt.alloc(), &[(at, byte)])?;
        check_fault(&rt, name, bytes.as_slice(), rule, fault);
    }
    Ok(())
}

#[test]
fn some_bytes_changed(rt: HostRuntime) -> Result<(), Fail> {
    let rows = [
        ("worst case 0", [(37, 0), (37, 0), (37, 0), (37, 0)], 4, 34),
        (
            "boolean initial 2",
            [(43, 0), (53, 2), (53, 2), (53, 2)],
            4,
            46,
        ),
        (
            "byte initial 128",
            [(43, 1), (53, 128), (53, 128), (53, 128)],
            4,
            46,
        ),
        (
            "operator 2 of one operand",
            [(66, 5), (67, 2), (67, 2), (67, 2)],
            4,
            67,
        ),
        ("a second image", [(7, 2), (7, 2), (7, 2), (7, 2)], 2, 217),
        (
            "4294967295 instructions",
            [(56, 255), (57, 255), (58, 255), (59, 255)],
            2,
            217,
        ),
    ];
    for (name, changes, rule, at) in rows {
        let bytes = changed(rt.alloc(), &changes)?;
        check_fault(&rt, name, bytes.as_slice(), rule, at);
    }
    Ok(())
}

/// The example with its module twice, the second time with this number below 256.
fn hosted_twice(alloc: Global, number: u8) -> Result<Vec<u8>, AllocError> {
    let mut bytes = Vec::from_slice(alloc, &COUNTING_BYTES[..15])?;
    bytes.extend_from_slice(b"\x00\x02")?;
    bytes.extend_from_slice(&COUNTING_BYTES[17..215])?;
    bytes.extend_from_slice(&[0, number])?;
    bytes.extend_from_slice(&COUNTING_BYTES[19..])?;
    Ok(bytes)
}

#[test]
fn numbers_ascend(rt: HostRuntime) -> Result<(), Fail> {
    let apart = hosted_twice(rt.alloc(), 1)?;
    check_read_back(&rt, apart.as_slice())?;
    let same = hosted_twice(rt.alloc(), 0)?;
    check_fault(&rt, "one number twice", same.as_slice(), 4, 215);
    Ok(())
}

/// A bundle of one image, with a stub.
static SHOWING_BYTES: [u8; 218] = [
    0x54, 0x44, 0x4c, 0x42, 0x00, 0x01, 0x00, 0x01, 0x02, 0x6e, 0x32, 0x00, 0x00, 0x00, 0x0c, 0x00,
    0x01, 0x00, 0x01, 0x01, 0x43, 0x00, 0x00, 0x00, 0x01, 0x03, 0x01, 0x76, 0x00, 0x00, 0x00, 0x00,
    0x00, 0x00, 0x00, 0x00, 0x00, 0x00, 0x00, 0x01, 0x04, 0x6d, 0x61, 0x69, 0x6e, 0x00, 0x00, 0x00,
    0x00, 0x00, 0x00, 0x00, 0x01, 0x00, 0x00, 0x00, 0x00, 0x00, 0x01, 0x02, 0x00, 0x00, 0x00, 0x00,
    0x00, 0x00, 0x00, 0x00, 0x00, 0x00, 0x00, 0x00, 0x00, 0x05, 0x03, 0x00, 0x00, 0x00, 0x03, 0x05,
    0x00, 0x00, 0x08, 0x00, 0x00, 0x00, 0x00, 0x00, 0x00, 0x00, 0x01, 0x00, 0x04, 0x00, 0x00, 0x00,
    0x02, 0x08, 0x00, 0x00, 0x13, 0x88, 0x00, 0x00, 0x00, 0x02, 0x00, 0x01, 0x00, 0x00, 0x00, 0x02,
    0x08, 0x00, 0x00, 0x00, 0x00, 0x00, 0x00, 0x00, 0x03, 0x00, 0x02, 0x00, 0x00, 0x00, 0x03, 0x01,
    0x00, 0x00, 0x08, 0x00, 0x00, 0x00, 0x00, 0x00, 0x00, 0x00, 0x04, 0x00, 0x03, 0x00, 0x00, 0x00,
    0x03, 0x05, 0x00, 0x00, 0x08, 0x00, 0x00, 0x00, 0x00, 0x00, 0x00, 0x00, 0x01, 0x00, 0x00, 0x00,
    0x00, 0x00, 0x00, 0x01, 0x00, 0x00, 0x01, 0x50, 0x00, 0x01, 0x00, 0x00, 0x03, 0x69, 0x6e, 0x63,
    0x00, 0x01, 0x03, 0x01, 0x6f, 0x00, 0x00, 0x00, 0x00, 0x00, 0x00, 0x00, 0x0a, 0x00, 0x01, 0x00,
    0x00, 0x00, 0x01, 0x00, 0x00, 0x00, 0x00, 0x00, 0x00, 0x00, 0x00, 0x00, 0x00, 0x00, 0x00, 0x00,
    0x01, 0x01, 0x00, 0x00, 0x00, 0x02, 0x04, 0x00, 0x00, 0x00,
];

#[test]
fn reads_a_stub(rt: HostRuntime) -> Result<(), Fail> {
    check_read_back(&rt, &SHOWING_BYTES)
}
