use crate::Status;
use crate::cases::{Case, good, refused, try_case};
use crate::samples::padded;
use std::test::Fail;

#[test]
fn a_failing_call_has_its_answer(rt: HostRuntime) -> Result<(), Fail> {
    let cases = [
        Case {
            fail_files: &[1],
            ..refused(Status::LoadFailed { word: 1 }, "tdl: cannot load P.tdl\n")
        },
        Case {
            fail_files: &[2],
            ..refused(Status::LoadFailed { word: 5 }, "tdl: cannot load s\n")
        },
        Case {
            fail_files: &[3],
            ..refused(Status::SaveFailed { word: 3 }, "tdl: cannot save b\n")
        },
    ];
    for case in cases.iter() {
        try_case(&rt, rt.alloc(), case)?;
    }
    Ok(())
}

#[test]
fn a_failing_put_leaves_the_lines_before_it(rt: HostRuntime) -> Result<(), Fail> {
    let cases = [
        Case {
            fail_puts: &[1],
            status: Status::WriteFailed,
            out: "",
            err: "tdl: cannot write\n",
            ..good()
        },
        Case {
            fail_puts: &[2],
            status: Status::WriteFailed,
            out: "0 n1 mode P main\n",
            err: "tdl: cannot write\n",
            ..good()
        },
        Case {
            fail_puts: &[3],
            status: Status::WriteFailed,
            out: "0 n1 mode P main\n5000 n1 port P.inc.o 11\n",
            err: "tdl: cannot write\n",
            ..good()
        },
    ];
    for case in cases.iter() {
        try_case(&rt, rt.alloc(), case)?;
    }
    Ok(())
}

// A call of `run` that is refused before the save, and whose line fails.
fn unsaid<'a>(status: Status) -> Case<'a> {
    Case {
        fail_errors: &[1],
        ..refused(status, "")
    }
}

#[test]
fn a_fault_of_the_error_sink_changes_nothing_else(rt: HostRuntime) -> Result<(), Fail> {
    let cases = [
        Case {
            words: &[],
            ..unsaid(Status::Usage)
        },
        Case {
            source: None,
            ..unsaid(Status::LoadFailed { word: 1 })
        },
        Case {
            scenario: Some(""),
            ..unsaid(Status::BadScenario { rule: 1, line: 1 })
        },
        Case {
            fail_files: &[3],
            ..unsaid(Status::SaveFailed { word: 3 })
        },
        Case {
            fail_puts: &[2],
            fail_errors: &[1],
            status: Status::WriteFailed,
            out: "0 n1 mode P main\n",
            ..good()
        },
    ];
    for case in cases.iter() {
        try_case(&rt, rt.alloc(), case)?;
    }
    Ok(())
}

#[test]
fn a_fault_of_the_error_sink_leaves_too_long(rt: HostRuntime) -> Result<(), Fail> {
    let source = padded(rt.alloc(), 262_145)?;
    let case = Case {
        source: Some(source.as_str()),
        fail_errors: &[1],
        ..refused(Status::TooLong { word: 1 }, "")
    };
    try_case(&rt, rt.alloc(), &case)
}
