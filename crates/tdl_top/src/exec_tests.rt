use crate::Status;
use crate::cases::{Case, executed, not_executed, try_case};
use crate::samples::BUNDLE;
use std::alloc::{AllocError, Global};
use std::test::Fail;

#[test]
fn a_bundle_is_run(rt: HostRuntime) -> Result<(), Fail> {
    let cases = [
        executed(),
        Case {
            scenario: Some("horizon 5000\nsense P.s 0 -1\n"),
            out: "0 n1 mode P main\n5000 n1 port P.inc.o 9\n",
            ..executed()
        },
        Case {
            fail_puts: &[2],
            status: Status::WriteFailed,
            out: "0 n1 mode P main\n",
            err: "tdl: cannot write\n",
            ..executed()
        },
    ];
    for case in cases.iter() {
        try_case(&rt, rt.alloc(), case)?;
    }
    Ok(())
}

#[test]
fn a_bundle_is_not_run(rt: HostRuntime) -> Result<(), Fail> {
    let cases = [
        Case {
            scenario: Some("horizon 10000\nsense Q.s 0 1\n"),
            ..not_executed(
                &BUNDLE,
                Status::BadScenario { rule: 2, line: 2 },
                "tdl: scenario N2 line 2\n",
            )
        },
        Case {
            scenario: None,
            ..not_executed(
                &BUNDLE,
                Status::LoadFailed { word: 3 },
                "tdl: cannot load s\n",
            )
        },
        Case {
            fail_files: &[1],
            ..not_executed(
                &BUNDLE,
                Status::LoadFailed { word: 1 },
                "tdl: cannot load b\n",
            )
        },
    ];
    for case in cases.iter() {
        try_case(&rt, rt.alloc(), case)?;
    }
    Ok(())
}

// The bundle of P with another byte at a place.
fn changed(alloc: Global, at: usize, byte: u8) -> Result<Vec<u8>, AllocError> {
    let mut bytes = Vec::from_slice(alloc, &BUNDLE)?;
    if at < bytes.len() {
        bytes[at] = byte;
    }
    Ok(bytes)
}

#[test]
fn other_bytes_are_no_bundle(rt: HostRuntime) -> Result<(), Fail> {
    let letter = changed(rt.alloc(), 0, 0)?;
    let images = changed(rt.alloc(), 7, 0)?;
    let mut longer = Vec::from_slice(rt.alloc(), &BUNDLE)?;
    longer.push(0)?;
    let shorter = &BUNDLE[..216];
    let rows = [
        (letter.as_slice(), 1, 0, "tdl: bundle B1 at 0\n"),
        (shorter, 2, 216, "tdl: bundle B2 at 216\n"),
        (longer.as_slice(), 3, 217, "tdl: bundle B3 at 217\n"),
        (images.as_slice(), 4, 6, "tdl: bundle B4 at 6\n"),
    ];
    for (bytes, rule, at, line) in rows {
        let status = Status::BadBundle { rule, at };
        try_case(&rt, rt.alloc(), &not_executed(bytes, status, line))?;
    }
    Ok(())
}

#[test]
fn other_bundles_are_not_run(rt: HostRuntime) -> Result<(), Fail> {
    let count = changed(rt.alloc(), 14, 10)?;
    let form = Status::BadForm { word: 1 };
    let case = not_executed(count.as_slice(), form, "tdl: form b\n");
    try_case(&rt, rt.alloc(), &case)
}
