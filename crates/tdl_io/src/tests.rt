use crate::callers::{Failed, Refused, load_one, load_two, put_two, save_and_load};
use crate::{
    FileAnswer, Files, HostFiles, HostSink, MemFiles, MemSink, NullSink, QuietFiles, SaveAnswer,
    Sink, SinkFailed,
};
use std::alloc::{AllocError, Global};
use std::process::Abort;
use std::test::Fail;
use std::{fs, process};

/// Two files, and a second entry of the first one's name.
fn entries(alloc: Global) -> Result<Vec<(String, Vec<u8>)>, AllocError> {
    let mut entries = Vec::new(alloc);
    let given = [
        ("a", b"abc".as_slice()),
        ("a", b"z".as_slice()),
        ("empty", b"".as_slice()),
    ];
    for (name, bytes) in given {
        let name = String::from_str(alloc, name)?;
        entries.push((name, bytes.to_vec(alloc)?))?;
    }
    Ok(entries)
}

/// Loads what `entries` holds within, at and past the limit, and a name that is absent.
fn check_loads(
    rt: &(impl Abort + AllocGlobal),
    files: &mut impl Files,
    absent: Result<(), FileAnswer>,
) {
    let rows = [
        ("a", 4, Ok(()), b"abc".as_slice()),
        ("a", 3, Ok(()), b"abc".as_slice()),
        ("a", 2, Err(FileAnswer::TooLong), b"abc".as_slice()),
        ("a", 0, Err(FileAnswer::TooLong), b"a".as_slice()),
        ("empty", 0, Ok(()), b"".as_slice()),
        ("absent", 4, absent, b"".as_slice()),
    ];
    for (name, limit, answer, bytes) in rows {
        let mut into = Vec::new(rt.alloc());
        assert_eq!(rt;
            load_one(files, name, limit, &mut into),
            answer,
            "{name} within {limit}"
        );
        assert_eq!(rt; into.as_slice(), bytes, "{name} within {limit}");
    }
}

/// Saves the bytes of each row under its name and loads them: the answer, and what was loaded.
fn check_saves(
    rt: &(impl Abort + AllocGlobal),
    files: &mut impl Files,
    rows: &[(&str, &[u8], Result<(), Refused>, &[u8])],
) {
    for (name, bytes, answer, loaded) in rows {
        let mut into = Vec::new(rt.alloc());
        assert_eq!(rt;
            save_and_load(files, name, bytes, 9, &mut into),
            *answer,
            "{name}"
        );
        assert_eq!(rt; into.as_slice(), *loaded, "{name}");
    }
}

#[test]
fn files_in_memory_hold_what_is_saved(rt: HostRuntime) -> Result<(), Fail> {
    let alloc = rt.alloc();
    let rows = [
        ("new", b"one".as_slice(), Ok(()), b"one".as_slice()),
        ("a", b"".as_slice(), Ok(()), b"".as_slice()),
        (
            "empty",
            b"xy".as_slice(),
            Err(Refused::Save(SaveAnswer::Failed)),
            b"".as_slice(),
        ),
        ("a", b"two".as_slice(), Ok(()), b"two".as_slice()),
        (
            "new",
            b"z".as_slice(),
            Err(Refused::Load(FileAnswer::Failed)),
            b"".as_slice(),
        ),
        (
            "long",
            b"0123456789".as_slice(),
            Err(Refused::Load(FileAnswer::TooLong)),
            b"0123456789".as_slice(),
        ),
    ];
    let mut files = MemFiles::new(alloc, entries(alloc)?, vec![in alloc; 5, 9]?);
    check_saves(&rt, &mut files, &rows);
    assert_eq!(rt; files.bytes("a"), Some(b"two".as_slice()));
    assert_eq!(rt; files.bytes("empty"), Some(b"".as_slice()));
    assert_eq!(rt; files.bytes("new"), Some(b"z".as_slice()));
    let rows = [
        ("a", b"new".as_slice(), Ok(()), b"abc".as_slice()),
        ("fresh", b"x".as_slice(), Ok(()), b"".as_slice()),
    ];
    check_saves(&rt, &mut QuietFiles::new(entries(alloc)?), &rows);
    Ok(())
}

#[test]
fn files_in_memory_load_up_to_the_limit(rt: HostRuntime) -> Result<(), Fail> {
    let alloc = rt.alloc();
    let mut files = MemFiles::new(alloc, entries(alloc)?, Vec::new(alloc));
    check_loads(&rt, &mut files, Err(FileAnswer::Failed));
    assert_eq!(rt; files.bytes("a"), Some(b"abc".as_slice()));
    assert_eq!(rt; files.bytes("absent"), None);
    let mut quiet = QuietFiles::new(entries(alloc)?);
    check_loads(&rt, &mut quiet, Ok(()));
    Ok(())
}

#[test]
fn calls_fail_where_they_are_told_to(rt: HostRuntime) -> Result<(), Fail> {
    let alloc = rt.alloc();
    for (told, loaded, put) in [
        (1, Err(Failed::First), Err(SinkFailed)),
        (2, Err(Failed::Second), Err(SinkFailed)),
        (3, Ok(()), Ok(())),
    ] {
        let mut files = MemFiles::new(alloc, entries(alloc)?, vec![in alloc; told]?);
        let (mut first, mut second) = (Vec::new(alloc), Vec::new(alloc));
        let answer = load_two(&mut files, "a", "empty", 3, &mut first, &mut second);
        assert_eq!(rt; answer, loaded, "told {told}");
        let mut sink = MemSink::new(alloc, 3, vec![in alloc; told]?)?;
        assert_eq!(rt; put_two(&mut sink, b"ab", b"c"), put, "told {told}");
    }
    Ok(())
}

#[test]
fn a_sink_in_memory_takes_what_fits(rt: HostRuntime) -> Result<(), Fail> {
    let alloc = rt.alloc();
    let mut sink = MemSink::new(alloc, 4, Vec::new(alloc))?;
    let rows = [
        (b"abc".as_slice(), Ok(()), b"abc".as_slice()),
        (b"de".as_slice(), Err(SinkFailed), b"abc".as_slice()),
        (b"d".as_slice(), Ok(()), b"abcd".as_slice()),
        (b"".as_slice(), Ok(()), b"abcd".as_slice()),
        (b"e".as_slice(), Err(SinkFailed), b"abcd".as_slice()),
    ];
    for (bytes, answer, held) in rows {
        assert_eq!(rt; sink.put(bytes), answer, "{held:?}");
        assert_eq!(rt; sink.bytes(), held, "{held:?}");
    }
    assert_eq!(rt; put_two(&mut NullSink, b"abc", b"d"), Ok(()));
    Ok(())
}

#[test]
fn the_host_reads_files_in_chunks(rt: HostRuntime) -> Result<(), Fail> {
    let alloc = rt.alloc();
    let bytes: Vec<u8> = (0..9000u32).map(|k| (k % 251) as u8).collect(alloc)?;
    let id = process::id(rt.process());
    let path = format!(in alloc; "/tmp/tdl_io-{id}")?;
    fs::write(&rt, path.as_str(), bytes.as_slice())?;
    let mut files = HostFiles::new(&rt);
    let rows = [
        (path.as_str(), 9001, Ok(()), 9000),
        (path.as_str(), 9000, Ok(()), 9000),
        (path.as_str(), 8999, Err(FileAnswer::TooLong), 9000),
        (path.as_str(), 5000, Err(FileAnswer::TooLong), 5001),
        (path.as_str(), 0, Err(FileAnswer::TooLong), 1),
        ("/tmp/tdl_io-absent", 9000, Err(FileAnswer::Failed), 0),
        ("/tmp", 9000, Err(FileAnswer::Failed), 0),
    ];
    for (name, limit, answer, count) in rows {
        let mut into = Vec::new(alloc);
        assert_eq!(rt;
            files.load(name, limit, &mut into),
            answer,
            "{name} within {limit}"
        );
        assert_eq!(rt;
            Some(into.as_slice()),
            bytes.as_slice().get(..count),
            "{name} within {limit}"
        );
    }
    fs::remove_file(&rt, path.as_str())?;
    Ok(())
}

#[test]
fn the_host_writes_files_anew(rt: HostRuntime) -> Result<(), Fail> {
    let alloc = rt.alloc();
    let id = process::id(rt.process());
    let path = format!(in alloc; "/tmp/tdl_io-saved-{id}")?;
    let refused = Err(Refused::Save(SaveAnswer::Failed));
    let rows = [
        (
            path.as_str(),
            b"abcdef".as_slice(),
            Ok(()),
            b"abcdef".as_slice(),
        ),
        (path.as_str(), b"xyz".as_slice(), Ok(()), b"xyz".as_slice()),
        (path.as_str(), b"".as_slice(), Ok(()), b"".as_slice()),
        (
            "/tmp/tdl_io-absent/file",
            b"a".as_slice(),
            refused,
            b"".as_slice(),
        ),
        ("/tmp", b"a".as_slice(), refused, b"".as_slice()),
    ];
    check_saves(&rt, &mut HostFiles::new(&rt), &rows);
    fs::remove_file(&rt, path.as_str())?;
    Ok(())
}

#[test]
fn the_host_writes(rt: HostRuntime) {
    assert_eq!(rt;
        HostSink::out(&rt).put(b"a line for standard output\n"),
        Ok(())
    );
    assert_eq!(rt;
        HostSink::err(&rt).put(b"a line for standard error\n"),
        Ok(())
    );
}
