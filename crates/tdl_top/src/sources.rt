ghost use Rattle.std.specs.Prelude.{◌≡◌, ◌≤◌, [], Some, OnOk, IfOk, IfErr, length, All};
ghost use Rattle.tdl_base.specs.declared.limits.TheConstants.{SOURCES, SOURCE_BYTES};
ghost use Rattle.tdl_rules.specs.Faults.{faults};
ghost use Rattle.tdl_size.specs.Sized.{IsSized};
ghost use Rattle.tdl_scan.specs.Tokens.{IsTokensOf};
ghost use Rattle.tdl_make.specs.PlainBundle.{IsPlainBundle};
ghost use Rattle.tdl_words.specs.declared.words.Call.{Call};
ghost use Rattle.tdl_words.specs.Words.{texts, word_at, source_count};
ghost use Rattle.tdl_report.specs.Calls.{files_call, OnlyLoads};
ghost use Rattle.tdl_top.specs.Sources.{HasTree, IsGood, limit_of};
ghost use Rattle.tdl_top.specs.Taken.{AreRead, SayBundle};
ghost use Rattle.tdl_top.specs.Inputs.{HaveBundle};
ghost use Rattle.tdl_top.specs.Refused.{InputSays};
ghost use Rattle.tdl_top.specs.Loads.{ParseSays, ScanSays, SourceSays, SourcesSay, RulesSay, FormSays};

use crate::load::load;
use std::alloc::Global;
use tdl_base::Listed;
use tdl_base::limits::{ALL_SOURCES_BYTES, SOURCE_BYTES};
use tdl_check::{CheckError, check};
use tdl_image::Bundle;
use tdl_io::Files;
use tdl_make::plain_bundle;
use tdl_parse::{SyntaxError, parse};
use tdl_plain::{SourceError, read_plain};
use tdl_report::Status;
use tdl_scan::{ScanError, Token, scan};
use tdl_tree::Tree;
use tdl_words::FILE_WORD;

// The tokens of the source that word `at` names.
fn tokens_of(alloc: Global, source: &[u8], at: usize) -> Result<Vec<Token>, Status>
    requires { length source.now ≤ SOURCE_BYTES }
    ensures ok { IfOk result (λ tokens. IsTokensOf tokens.items source.now) }
    ensures refused { IfErr result (ScanSays at source.now) }
{
    match scan(alloc, source) {
        Ok(tokens) => Ok(tokens),
        Err(ScanError::BadToken { line, col }) => Err(Status::BadToken {
            word: at,
            line,
            col,
        }),
        Err(ScanError::NoMemory) => Err(Status::NoMemory),
    }
}

// The tree that its tokens spell.
fn tree_of(alloc: Global, source: &[u8], tokens: &[Token], at: usize) -> Result<Tree, Status>
    requires scanned { IsTokensOf tokens.now source.now }
    requires within { length source.now ≤ SOURCE_BYTES }
    ensures ok { IfOk result (HasTree source.now) }
    ensures refused { IfErr result (ParseSays at source.now) }
{
    match parse(alloc, source, tokens) {
        Ok(tree) => Ok(tree),
        Err(SyntaxError::BadSyntax { line, col }) => Err(Status::BadSyntax {
            word: at,
            line,
            col,
        }),
        Err(SyntaxError::NoMemory) => Err(Status::NoMemory),
    }
}

// The greatest length of a source, where so many bytes are left for it and those after it.
fn limit_of(left: usize) -> usize
    ensures exact { result ≡ limit_of left }
    ensures one { result ≤ SOURCE_BYTES }
    ensures all { result ≤ left }
{
    if left < SOURCE_BYTES {
        left
    } else {
        SOURCE_BYTES
    }
}

// The tree of the source that word `at` names, and how many bytes are left after it.
fn read_source<F: Files>(
    alloc: Global,
    files: &mut F,
    words: &[String],
    at: usize,
    left: usize,
) -> Result<(Tree, usize), Status>
    ensures ok { IfOk result (λ good. IsGood (F.told files.old).holds
        (word_at (texts words.now) at) left good.0 good.1) }
    ensures refused { IfErr result (SourceSays (files_call F.told files.old files.new)
        (texts words.now) at left) }
    ensures loads { OnlyLoads (files_call F.told files.old files.new) }
{
    let limit = limit_of(left);
    let bytes = load(alloc, files, words, at, limit)?;
    let tokens = tokens_of(alloc, &bytes, at)?;
    let tree = tree_of(alloc, &bytes, &tokens, at)?;
    Ok((tree, left - bytes.len()))
}

// The trees of so many sources, which are read one after the other.
fn read_trees<F: Files>(
    alloc: Global,
    files: &mut F,
    words: &[String],
    count: usize,
) -> Result<Listed<Tree>, Status>
    ensures ok { IfOk result (AreRead (F.told files.old).holds (texts words.now) count) }
    ensures refused { IfErr result (SourcesSay (files_call F.told files.old files.new)
        (texts words.now) count) }
    ensures loads { OnlyLoads (files_call F.told files.old files.new) }
{
    let mut trees = Listed::new(alloc);
    let mut left = ALL_SOURCES_BYTES;
    for k in 0..count {
        let (tree, rest) = read_source(alloc, files, words, FILE_WORD + k, left)?;
        trees.push(tree)?;
        left = rest;
    }
    Ok(trees)
}

// Refuses the trees of all sources where they break a rule of programs.
fn keep_rules(alloc: Global, trees: &[Tree]) -> Result<(), Status>
    requires few { length trees.now ≤ SOURCES }
    requires sized { All IsSized trees.now }
    ensures ok { OnOk result (faults trees.now ≡ []) }
    ensures refused { IfErr result (RulesSay trees.now) }
{
    match check(alloc, trees) {
        Ok(_program) => Ok(()),
        Err(CheckError::BadProgram(fault)) => Err(Status::BadProgram {
            word: FILE_WORD + fault.file as usize,
            rule: fault.rule,
            line: fault.line,
            col: fault.col,
        }),
        Err(CheckError::NoMemory) => Err(Status::NoMemory),
    }
}

// The bundle of the trees of all sources.
fn bundle_of(alloc: Global, trees: &[Tree]) -> Result<Bundle, Status>
    requires few { length trees.now ≤ SOURCES }
    requires sized { All IsSized trees.now }
    ensures ok { IfOk result (SayBundle trees.now) }
    ensures plain { IfOk result (λ bundle. IsPlainBundle bundle) }
    ensures refused { IfErr result (FormSays trees.now) }
{
    keep_rules(alloc, trees)?;
    if trees.len() != 1 {
        return Err(Status::BadForm { word: FILE_WORD });
    }
    match read_plain(alloc, &trees[0]) {
        Ok(form) => Ok(plain_bundle(alloc, &form)?),
        Err(SourceError::NotPlain) => Err(Status::BadForm { word: FILE_WORD }),
        Err(SourceError::NoMemory) => Err(Status::NoMemory),
    }
}

/// The bundle of the sources, so many, whose names stand from word 1 on.
pub fn read_sources<F: Files>(
    alloc: Global,
    files: &mut F,
    words: &[String],
    count: usize,
) -> Result<Bundle, Status>
    requires { count ≤ SOURCES }
    ensures ok { IfOk result (HaveBundle (F.told files.old).holds (texts words.now) count) }
    ensures plain { IfOk result (λ bundle. IsPlainBundle bundle) }
    ensures refused { (call : Call) → source_count call ≡ Some count → IfErr result
        (InputSays (files_call F.told files.old files.new) (texts words.now) call) }
    ensures loads { OnlyLoads (files_call F.told files.old files.new) }
{
    let trees = read_trees(alloc, files, words, count)?;
    bundle_of(alloc, trees.as_slice())
}
