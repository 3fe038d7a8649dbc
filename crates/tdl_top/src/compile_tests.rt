use crate::Status;
use crate::cases::{COMPILE, Case, OLD, compiled, refused, try_case};
use crate::samples::{padded, source_with};
use std::test::Fail;

#[test]
fn a_source_is_compiled(rt: HostRuntime) -> Result<(), Fail> {
    let cases = [
        compiled(),
        Case {
            scenario: None,
            ..compiled()
        },
        Case {
            words: &COMPILE,
            source: None,
            ..refused(Status::LoadFailed { word: 1 }, "tdl: cannot load P.tdl\n")
        },
        Case {
            fail_files: &[2],
            status: Status::SaveFailed { word: 3 },
            err: "tdl: cannot save b\n",
            saved: OLD,
            ..compiled()
        },
    ];
    for case in cases.iter() {
        try_case(&rt, rt.alloc(), case)?;
    }
    Ok(())
}

#[test]
fn a_source_is_at_most_so_long(rt: HostRuntime) -> Result<(), Fail> {
    let source = padded(rt.alloc(), 262_144)?;
    let case = Case {
        source: Some(source.as_str()),
        ..compiled()
    };
    try_case(&rt, rt.alloc(), &case)?;
    let source = padded(rt.alloc(), 262_145)?;
    let case = Case {
        words: &COMPILE,
        source: Some(source.as_str()),
        ..refused(Status::TooLong { word: 1 }, "tdl: too long P.tdl\n")
    };
    try_case(&rt, rt.alloc(), &case)
}

// A call of `compile` of this source that is refused at a place where no token begins.
fn no_token<'a>(source: &'a str, col: u32, err: &'a str) -> Case<'a> {
    let token = Status::BadToken {
        word: 1,
        line: 1,
        col,
    };
    Case {
        words: &COMPILE,
        source: Some(source),
        ..refused(token, err)
    }
}

#[test]
fn a_source_has_tokens(rt: HostRuntime) -> Result<(), Fail> {
    let mut long = String::from_str(rt.alloc(), "module ")?;
    for _ in 0..65 {
        long.push('m')?;
    }
    let cases = [
        no_token("module P { $", 12, "tdl: token at P.tdl:1:12\n"),
        no_token(long.as_str(), 8, "tdl: token at P.tdl:1:8\n"),
    ];
    for case in cases.iter() {
        try_case(&rt, rt.alloc(), case)?;
    }
    Ok(())
}

#[test]
fn a_source_may_hold_comments(rt: HostRuntime) -> Result<(), Fail> {
    let source = source_with(rt.alloc(), "module", "// P counts $\nmodule")?;
    let case = Case {
        source: Some(source.as_str()),
        ..compiled()
    };
    try_case(&rt, rt.alloc(), &case)
}
