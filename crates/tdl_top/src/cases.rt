//! Calls of `tdl`: what each finds, and what it must leave.

use crate::samples::{BUNDLE, SOURCE, STEP, THREE_LINES};
use crate::{Status, tdl};
use std::alloc::{AllocError, Global};
use std::process::Abort;
use std::test::Fail;
use tdl_io::{MemFiles, MemSink};

/// The words of a call.
pub const RUN: [&str; 6] = ["run", "P.tdl", "--out", "b", "--scen", "s"];

/// The words of a call.
pub const COMPILE: [&str; 4] = ["compile", "P.tdl", "--out", "b"];

/// The words of a call.
pub const EXEC: [&str; 4] = ["exec", "b", "--scen", "s"];

/// What `b` holds before a call that saves it.
pub const OLD: &[u8] = b"old";

/// What a call finds and what it leaves.
#[derive(Clone, Copy)]
pub struct Case<'a> {
    pub words: &'a [&'a str],
    /// The source, or None where there is no such file.
    pub source: Option<&'a str>,
    /// Further files: their names and what they hold.
    pub more: &'a [(&'a str, &'a str)],
    /// The scenario, or None where there is no such file.
    pub scenario: Option<&'a str>,
    /// What `b` holds before the call.
    pub before: &'a [u8],
    /// The numbers of the calls on the files that fail, from 1.
    pub fail_files: &'a [u64],
    pub fail_puts: &'a [u64],
    pub fail_errors: &'a [u64],
    pub status: Status,
    pub out: &'a str,
    pub err: &'a str,
    /// What `b` holds after the call.
    pub saved: &'a [u8],
}

/// A call of `run` that goes well, to be changed in one place.
pub fn good<'a>() -> Case<'a> {
    Case {
        words: &RUN,
        source: Some(SOURCE),
        more: &[],
        scenario: Some(STEP),
        before: OLD,
        fail_files: &[],
        fail_puts: &[],
        fail_errors: &[],
        status: Status::Ok,
        out: THREE_LINES,
        err: "",
        saved: &BUNDLE,
    }
}

/// The same of `compile`.
pub fn compiled<'a>() -> Case<'a> {
    Case {
        words: &COMPILE,
        out: "",
        ..good()
    }
}

/// A call of `exec` that goes well.
pub fn executed<'a>() -> Case<'a> {
    Case {
        words: &EXEC,
        source: None,
        before: &BUNDLE,
        ..good()
    }
}

/// A call of `exec` that is refused, of a bundle that stays as it is.
pub fn not_executed<'a>(before: &'a [u8], status: Status, err: &'a str) -> Case<'a> {
    Case {
        before,
        status,
        out: "",
        err,
        saved: before,
        ..executed()
    }
}

/// A call of `run` that is refused before the save.
pub fn refused<'a>(status: Status, err: &'a str) -> Case<'a> {
    Case {
        status,
        out: "",
        err,
        saved: OLD,
        ..good()
    }
}

/// The words, owned.
pub fn strings(alloc: Global, words: &[&str]) -> Result<Vec<String>, AllocError> {
    let mut all = Vec::new(alloc);
    for word in words {
        all.push(String::from_str(alloc, word)?)?;
    }
    Ok(all)
}

/// A file and its name, owned.
pub fn file(alloc: Global, name: &str, bytes: &[u8]) -> Result<(String, Vec<u8>), AllocError> {
    Ok((
        String::from_str(alloc, name)?,
        Vec::from_slice(alloc, bytes)?,
    ))
}

/// The files that a call finds.
pub fn files_of(alloc: Global, case: &Case) -> Result<MemFiles, AllocError> {
    let mut held = Vec::new(alloc);
    if let Some(source) = case.source {
        held.push(file(alloc, "P.tdl", source.as_bytes())?)?;
    }
    for (name, text) in case.more {
        held.push(file(alloc, name, text.as_bytes())?)?;
    }
    if let Some(scenario) = case.scenario {
        held.push(file(alloc, "s", scenario.as_bytes())?)?;
    }
    held.push(file(alloc, "b", case.before)?)?;
    let fail = Vec::from_slice(alloc, case.fail_files)?;
    Ok(MemFiles::new(alloc, held, fail))
}

/// Makes the call, and compares the answer, what was printed and what `b` holds.
pub fn try_case(rt: &impl Abort, alloc: Global, case: &Case) -> Result<(), Fail> {
    let words = strings(alloc, case.words)?;
    let mut files = files_of(alloc, case)?;
    let mut out = MemSink::new(alloc, 8192, Vec::from_slice(alloc, case.fail_puts)?)?;
    let mut err = MemSink::new(alloc, 128, Vec::from_slice(alloc, case.fail_errors)?)?;
    let status = tdl(alloc, &words, &mut files, &mut out, &mut err);
    assert_eq!(rt; status, case.status);
    assert_eq!(rt; out.bytes(), case.out.as_bytes());
    assert_eq!(rt; err.bytes(), case.err.as_bytes());
    assert_eq!(rt; files.bytes("b"), Some(case.saved));
    Ok(())
}
