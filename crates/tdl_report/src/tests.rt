use crate::{Status, report};
use std::alloc::Global;
use std::test::Fail;
use tdl_base::NoMemory;
use tdl_io::MemSink;

// What the call's words are.
fn words(alloc: Global) -> Result<Vec<String>, NoMemory> {
    let mut words = Vec::new(alloc);
    words.push(String::from_str(alloc, "P.tdl")?)?;
    Ok(words)
}

#[test]
fn each_status_has_its_code_and_line(rt: HostRuntime) -> Result<(), Fail> {
    let rows = [
        (Status::Usage, 1, "tdl: usage\n"),
        (
            Status::LoadFailed { word: 0 },
            2,
            "tdl: cannot load P.tdl\n",
        ),
        (Status::TooLong { word: 0 }, 3, "tdl: too long P.tdl\n"),
        (Status::WriteFailed, 13, "tdl: cannot write\n"),
        (Status::NoMemory, 16, "tdl: no memory\n"),
        (Status::BadForm { word: 0 }, 17, "tdl: form P.tdl\n"),
    ];
    let words = words(rt.alloc())?;
    for (status, code, line) in rows {
        let mut err = MemSink::new(rt.alloc(), 64, Vec::new(rt.alloc()))?;
        let answer = report(rt.alloc(), &words, status, &mut err);
        assert_eq!(rt; answer, status, "{line}");
        assert_eq!(rt; err.bytes(), line.as_bytes(), "{line}");
        assert_eq!(rt; status.code(), code, "{line}");
    }
    assert_eq!(rt; Status::Ok.code(), 0);
    assert_eq!(rt; Status::SaveFailed { word: 3 }.code(), 14);
    Ok(())
}

#[test]
fn faults_are_told_with_their_place(rt: HostRuntime) -> Result<(), Fail> {
    let token = Status::BadToken {
        word: 0,
        line: 12,
        col: 340,
    };
    let syntax = Status::BadSyntax {
        word: 0,
        line: 1,
        col: 8,
    };
    let scenario = Status::BadScenario { rule: 6, line: 1 };
    let program = Status::BadProgram {
        word: 0,
        rule: 12,
        line: 1,
        col: 8,
    };
    let rows = [
        (token, 4, "tdl: token at P.tdl:12:340\n"),
        (syntax, 5, "tdl: syntax at P.tdl:1:8\n"),
        (program, 6, "tdl: program C12 at P.tdl:1:8\n"),
        (scenario, 10, "tdl: scenario N6 line 1\n"),
        (
            Status::BadBundle { rule: 2, at: 216 },
            11,
            "tdl: bundle B2 at 216\n",
        ),
    ];
    let words = words(rt.alloc())?;
    for (status, code, line) in rows {
        let mut err = MemSink::new(rt.alloc(), 64, Vec::new(rt.alloc()))?;
        let answer = report(rt.alloc(), &words, status, &mut err);
        assert_eq!(rt; (answer, status.code()), (status, code), "{line}");
        assert_eq!(rt; err.bytes(), line.as_bytes(), "{line}");
    }
    Ok(())
}
