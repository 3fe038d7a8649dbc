use crate::cases::{Case, OLD, RUN, files_of, good, refused, strings, try_case};
use crate::samples::{BUNDLE, SOURCE, STEP, THREE_LINES, source_with};
use crate::{Status, tdl};
use std::test::Fail;
use tdl_io::MemSink;

#[test]
fn a_source_is_run(rt: HostRuntime) -> Result<(), Fail> {
    let cases = [
        good(),
        Case {
            words: &["run", "P.tdl", "--scen", "s", "--out", "b"],
            ..good()
        },
        Case {
            scenario: None,
            ..refused(Status::LoadFailed { word: 5 }, "tdl: cannot load s\n")
        },
        Case {
            source: Some(""),
            ..refused(
                Status::BadSyntax {
                    word: 1,
                    line: 1,
                    col: 1,
                },
                "tdl: syntax at P.tdl:1:1\n",
            )
        },
    ];
    for case in cases.iter() {
        try_case(&rt, rt.alloc(), case)?;
    }
    Ok(())
}

#[test]
fn a_task_runs_once_a_period(rt: HostRuntime) -> Result<(), Fail> {
    let twice = source_with(rt.alloc(), "freq=1", "freq=2")?;
    let case = Case {
        source: Some(twice.as_str()),
        ..refused(Status::BadForm { word: 1 }, "tdl: form P.tdl\n")
    };
    try_case(&rt, rt.alloc(), &case)
}

#[test]
fn a_run_wraps_its_output(rt: HostRuntime) -> Result<(), Fail> {
    let source = source_with(rt.alloc(), "o := 10", "o := 2147483647")?;
    let words = strings(rt.alloc(), &RUN)?;
    let case = Case {
        source: Some(source.as_str()),
        scenario: Some("horizon 5000\nsense P.s 0 1\n"),
        ..good()
    };
    let mut files = files_of(rt.alloc(), &case)?;
    let mut out = MemSink::new(rt.alloc(), 8192, Vec::new(rt.alloc()))?;
    let mut err = MemSink::new(rt.alloc(), 128, Vec::new(rt.alloc()))?;
    let status = tdl(rt.alloc(), &words, &mut files, &mut out, &mut err);
    assert_eq!(&rt; status, Status::Ok);
    assert_eq!(&rt;
        out.bytes(),
        b"0 n1 mode P main\n5000 n1 port P.inc.o -2147483648\n".as_slice()
    );
    Ok(())
}

#[test]
fn two_words_may_name_one_file(rt: HostRuntime) -> Result<(), Fail> {
    let words = strings(rt.alloc(), &["run", "P.tdl", "--out", "s", "--scen", "s"])?;
    let mut files = files_of(rt.alloc(), &good())?;
    let mut out = MemSink::new(rt.alloc(), 8192, Vec::new(rt.alloc()))?;
    let mut err = MemSink::new(rt.alloc(), 128, Vec::new(rt.alloc()))?;
    let status = tdl(rt.alloc(), &words, &mut files, &mut out, &mut err);
    assert_eq!(&rt; status, Status::Ok);
    assert_eq!(&rt; out.bytes(), THREE_LINES.as_bytes());
    assert_eq!(&rt; files.bytes("s"), Some(BUNDLE.as_slice()));
    assert_eq!(&rt; files.bytes("b"), Some(OLD));
    Ok(())
}
