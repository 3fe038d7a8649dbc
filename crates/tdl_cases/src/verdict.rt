//! What the check says of sources, and what it is to say: `^` stands before the place that is told.

ghost use Rattle.std.specs.Prelude.{All, IfOk, IfSome};
ghost use Rattle.tdl_size.specs.Sized.{IsSized};

use std::alloc::Global;
use std::process::Abort;
use std::test::Fail;
use tdl_base::limits::{SOURCE_BYTES, SOURCES};
use tdl_base::{Listed, NoMemory};
use tdl_check::{CheckError, check};
use tdl_parse::{SyntaxError, parse};
use tdl_rules::Fault;
use tdl_scan::{ScanError, SourcePlace, end_place, scan};
use tdl_tree::Tree;

/// What is said of sources.
#[derive(Clone, Copy, Debug, PartialEq, Eq)]
pub enum Verdict {
    /// They break no rule.
    Keep,
    /// They break one, first here.
    Break(Fault),
    /// One of them has no tree, or they are too many.
    NoTrees,
}

/// A source of many parts: `head`, then `part` so often, with `#` as the number from 0, then
/// `tail`.
#[derive(Clone, Copy)]
pub struct Long<'a> {
    pub head: &'a str,
    pub part: &'a str,
    pub times: u32,
    pub tail: &'a str,
}

/// The tree of a source, if it has one.
pub fn tree_of(alloc: Global, source: &str) -> Result<Option<Tree>, NoMemory>
    ensures { IfOk result (λ found. IfSome found IsSized) }
{
    let bytes = source.as_bytes();
    if bytes.len() > SOURCE_BYTES {
        return Ok(None);
    }
    let tokens = match scan(alloc, bytes) {
        Ok(tokens) => tokens,
        Err(ScanError::BadToken { .. }) => return Ok(None),
        Err(ScanError::NoMemory) => return Err(NoMemory),
    };
    match parse(alloc, bytes, &tokens) {
        Ok(tree) => Ok(Some(tree)),
        Err(SyntaxError::BadSyntax { .. }) => Ok(None),
        Err(SyntaxError::NoMemory) => Err(NoMemory),
    }
}

fn verdict_of(alloc: Global, trees: &[Tree]) -> Result<Verdict, NoMemory>
    requires { All IsSized trees.now }
{
    if trees.len() > SOURCES {
        return Ok(Verdict::NoTrees);
    }
    match check(alloc, trees) {
        Ok(_checked) => Ok(Verdict::Keep),
        Err(CheckError::BadProgram(fault)) => Ok(Verdict::Break(fault)),
        Err(CheckError::NoMemory) => Err(NoMemory),
    }
}

// The source without its mark, and the place of what stands after the mark.
fn unmarked(alloc: Global, text: &str) -> Result<(String, Option<SourcePlace>), NoMemory> {
    let Some((before, after)) = text.split_once('^') else {
        return Ok((String::from_str(alloc, text)?, None));
    };
    let mut source = String::from_str(alloc, before)?;
    source.push_str(after)?;
    if before.len() > SOURCE_BYTES {
        return Ok((source, None));
    }
    Ok((source, Some(end_place(before.as_bytes()))))
}

/// What is said of sources without their marks, and what is to be said.
pub fn verdicts(alloc: Global, rule: u8, texts: &[&str]) -> Result<(Verdict, Verdict), NoMemory> {
    let mut trees = Listed::new(alloc);
    let mut wanted = Verdict::Keep;
    let mut file = 0u32;
    for text in texts {
        let (source, mark) = unmarked(alloc, text)?;
        if let Some(SourcePlace { line, col }) = mark {
            wanted = Verdict::Break(Fault {
                rule,
                file,
                line,
                col,
            });
        }
        let Some(tree) = tree_of(alloc, source.as_str())? else {
            return Ok((Verdict::NoTrees, wanted));
        };
        trees.push(tree)?;
        file = file.saturating_add(1);
    }
    Ok((verdict_of(alloc, trees.as_slice())?, wanted))
}

/// Asks of sources that this rule is the first that they break, at the mark, or that they break
/// none where none of them has a mark.
pub fn try_sources(rt: &impl Abort, alloc: Global, rule: u8, texts: &[&str]) -> Result<(), Fail> {
    let (said, wanted) = verdicts(alloc, rule, texts)?;
    assert_eq!(rt; said, wanted, "C{rule} of {texts:?}");
    Ok(())
}

/// The same of one source, a form with the part where `#` stands in it.
pub fn try_part(
    rt: &impl Abort,
    alloc: Global,
    form: &str,
    rule: u8,
    part: &str,
) -> Result<(), Fail> {
    let source = form.replace(alloc, '#', part)?;
    try_sources(rt, alloc, rule, &[source.as_str()])
}

/// The same of a form with each of the parts.
pub fn try_parts(
    rt: &impl Abort,
    alloc: Global,
    form: &str,
    rows: &[(u8, &str)],
) -> Result<(), Fail> {
    for (rule, part) in rows {
        try_part(rt, alloc, form, *rule, part)?;
    }
    Ok(())
}

/// The text of a source of many parts.
pub fn long_text(alloc: Global, long: &Long) -> Result<String, NoMemory> {
    let mut source = String::from_str(alloc, long.head)?;
    for number in 0..long.times {
        let digits = format!(in alloc; "{number}")?;
        let part = long.part.replace(alloc, '#', digits.as_str())?;
        source.push_str(part.as_str())?;
    }
    source.push_str(long.tail)?;
    Ok(source)
}

/// The same of a source of many parts.
pub fn try_long(rt: &impl Abort, alloc: Global, rule: u8, long: &Long) -> Result<(), Fail> {
    let source = long_text(alloc, long)?;
    try_sources(rt, alloc, rule, &[source.as_str()])
}
