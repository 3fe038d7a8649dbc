use crate::{Call, read_call};
use std::alloc::{AllocError, Global};
use std::test::Fail;
use tdl_base::limits::SOURCES;

// The words, owned.
fn strings(alloc: Global, words: &[&str]) -> Result<Vec<String>, AllocError> {
    let mut all = Vec::new(alloc);
    for word in words {
        all.push(String::from_str(alloc, word)?)?;
    }
    Ok(all)
}

#[test]
fn words_of_commands_are_calls(rt: HostRuntime) -> Result<(), Fail> {
    let compile = strings(rt.alloc(), &["compile", "P.tdl", "--out", "b"])?;
    let call = Call::Compile { sources: 1, out: 3 };
    assert_eq!(&rt; read_call(&compile), Some(call));
    let compile = strings(rt.alloc(), &["compile", "P.tdl", "Q.tdl", "--out", "b"])?;
    let call = Call::Compile { sources: 2, out: 4 };
    assert_eq!(&rt; read_call(&compile), Some(call));
    let exec = strings(rt.alloc(), &["exec", "b", "--scen", "s"])?;
    assert_eq!(&rt; read_call(&exec), Some(Call::Exec { scenario: 3 }));
    let run = strings(
        rt.alloc(),
        &["run", "P", "Q", "P", "--scen", "s", "--out", "b"],
    )?;
    let call = Call::Run {
        sources: 3,
        out: 7,
        scenario: 5,
    };
    assert_eq!(&rt; read_call(&run), Some(call));
    Ok(())
}

// The words of `compile` with so many sources.
fn with_sources(alloc: Global, count: usize) -> Result<Vec<String>, AllocError> {
    let mut words = strings(alloc, &["compile"])?;
    for _ in 0..count {
        words.push(String::from_str(alloc, "P.tdl")?)?;
    }
    words.push(String::from_str(alloc, "--out")?)?;
    words.push(String::from_str(alloc, "b")?)?;
    Ok(words)
}

#[test]
fn there_are_up_to_64_sources(rt: HostRuntime) -> Result<(), Fail> {
    let words = with_sources(rt.alloc(), SOURCES)?;
    let call = Call::Compile {
        sources: 64,
        out: 66,
    };
    assert_eq!(&rt; read_call(&words), Some(call));
    let words = with_sources(rt.alloc(), SOURCES + 1)?;
    assert_eq!(&rt; read_call(&words), None);
    Ok(())
}

#[test]
fn other_words_are_no_call(rt: HostRuntime) -> Result<(), Fail> {
    let lists: [&[&str]; 19] = [
        &[],
        &["run"],
        &["compile"],
        // Another command, and those of later days.
        &["go", "P.tdl", "--out", "b", "--scen", "s"],
        &["logic", "P.tdl", "--scen", "s"],
        &["list", "b"],
        &["gen", "7", "--out", "b"],
        &["exec", "b", "--out", "b", "--scen", "s"],
        &["exec", "b"],
        &["exec", "--scen", "s"],
        &["exec", "b", "--scen", "s", "--log"],
        &["--help"],
        // No file, two bundles, an empty name, a file after an option.
        &["run", "--out", "b", "--scen", "s"],
        &["compile", "--out", "b"],
        &["exec", "b", "b", "--scen", "s"],
        &["compile", "P.tdl", "", "--out", "b"],
        &["run", "--out", "b", "P.tdl", "--scen", "s"],
        &["run", "P.tdl", "--out", "b", "--scen", "s", "s"],
        &["compile", "P.tdl", "--out", "b", "b"],
    ];
    for words in lists.iter() {
        let owned = strings(rt.alloc(), words)?;
        assert_eq!(&rt; read_call(&owned), None, "{words:?}");
    }
    Ok(())
}

#[test]
fn other_options_are_no_call(rt: HostRuntime) -> Result<(), Fail> {
    let lists: [&[&str]; 14] = [
        // An option that is missing, stands twice or lacks its value.
        &["compile", "P.tdl"],
        &["run", "P.tdl", "--out", "b"],
        &["run", "P.tdl", "--scen", "s"],
        &["compile", "P.tdl", "--out", "b", "--out", "b"],
        &["run", "P.tdl", "--out", "b", "--scen", "s", "--scen", "s"],
        &["run", "P.tdl", "--out", "b", "--scen"],
        // An option that the command does not take, or that is none.
        &["compile", "P.tdl", "--scen", "s"],
        &["compile", "P.tdl", "--out", "b", "--scen", "s"],
        &["run", "P.tdl", "--out", "b", "--scen=s", ""],
        &["run", "P.tdl", "--out", "b", "--scen", "s", "--log"],
        // A name that is empty or begins with `-`.
        &["compile", "", "--out", "b"],
        &["compile", "-P.tdl", "--out", "b"],
        &["compile", "P.tdl", "--out", ""],
        &["run", "P.tdl", "--out", "b", "--scen", "-s"],
    ];
    for words in lists.iter() {
        let owned = strings(rt.alloc(), words)?;
        assert_eq!(&rt; read_call(&owned), None, "{words:?}");
    }
    Ok(())
}
