use crate::Status;
use crate::cases::{Case, refused, try_case};
use std::alloc::Global;
use std::process::Abort;
use std::test::Fail;

#[test]
fn other_words_are_usage(rt: HostRuntime) -> Result<(), Fail> {
    let lists: [&[&str]; 3] = [&[], &["go", "P.tdl"], &["compile", "P.tdl"]];
    for words in lists.iter() {
        let case = Case {
            words: *words,
            ..refused(Status::Usage, "tdl: usage\n")
        };
        try_case(&rt, rt.alloc(), &case)?;
    }
    Ok(())
}

// A call of `compile` that names one source so often.
fn try_count(
    rt: &impl Abort,
    alloc: Global,
    count: usize,
    status: Status,
    err: &str,
) -> Result<(), Fail> {
    let mut words = Vec::new(alloc);
    words.push("compile")?;
    for _ in 0..count {
        words.push("P.tdl")?;
    }
    words.push("--out")?;
    words.push("b")?;
    let case = Case {
        words: words.as_slice(),
        ..refused(status, err)
    };
    try_case(rt, alloc, &case)
}

#[test]
fn there_are_up_to_64_sources(rt: HostRuntime) -> Result<(), Fail> {
    let twice = Status::BadProgram {
        word: 2,
        rule: 1,
        line: 1,
        col: 8,
    };
    try_count(&rt, rt.alloc(), 64, twice, "tdl: program C1 at P.tdl:1:8\n")?;
    try_count(&rt, rt.alloc(), 65, Status::Usage, "tdl: usage\n")
}

#[test]
fn each_status_has_its_code(rt: HostRuntime) {
    assert_eq!(rt; Status::Ok.code(), 0);
    assert_eq!(rt; Status::LoadFailed { word: 1 }.code(), 2);
    assert_eq!(rt; Status::SaveFailed { word: 3 }.code(), 14);
    assert_eq!(rt; Status::NoMemory.code(), 16);
}
