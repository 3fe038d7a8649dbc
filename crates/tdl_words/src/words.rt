ghost use Rattle.std.specs.Prelude.{◌≡◌, ◌≤◌, length};
ghost use Rattle.tdl_words.specs.Words.{texts, word_at, is_file, has_word, command_of, rule_of, is_option, has_options, are_options, files_in, is_count, takes, follows, place_after, call_at, call_by, call_in};

use tdl_base::limits::SOURCES;

/// The place of the first file's name in the words of a call.
pub const FILE_WORD: usize = 1;

/// What the words of a call ask for: how many sources, whose names stand from word 1 on, and the
/// places of the other files' names.
#[derive(Clone, Copy, Debug, PartialEq, Eq)]
pub enum Call {
    /// Save the bundle of sources.
    Compile {
        sources: usize,
        out: usize,
    },
    /// Save the bundle of sources, and print its run.
    Run {
        sources: usize,
        out: usize,
        scenario: usize,
    },
    /// Print the run of a bundle.
    Exec {
        scenario: usize,
    },
}

/// What the first word of a call names.
#[derive(Clone, Copy, Debug, PartialEq, Eq)]
pub enum Command {
    Compile,
    Run,
    Exec,
}

/// Some of the options. Each has a file's name after it.
#[derive(Clone, Copy, Debug, PartialEq, Eq)]
pub struct Options {
    pub out: bool,
    pub scenario: bool,
}

/// What stands after a command: from 1 to so many files' names, and then, in any order, all options
/// that are required and any that are allowed.
#[derive(Clone, Copy, Debug, PartialEq, Eq)]
pub struct Rule {
    pub most: usize,
    pub required: Options,
    pub allowed: Options,
}

fn is_file_name(word: &str) -> bool
    ensures { result ≡ is_file word.now }
{
    match word.as_bytes() {
        [] => false,
        [first, ..] => *first != b'-',
    }
}

fn has_word(words: &[String], word: &str) -> bool
    ensures { result ≡ has_word word.now (texts words.now) }
{
    for each in words {
        if each.as_str() == word {
            return true;
        }
    }
    false
}

// The table of the commands: their names, and what stands after them.
fn command_of(word: &str) -> Option<Command>
    ensures { result ≡ command_of word.now }
{
    if word == "compile" {
        Some(Command::Compile)
    } else if word == "run" {
        Some(Command::Run)
    } else if word == "exec" {
        Some(Command::Exec)
    } else {
        None
    }
}

fn rule_of(command: Command) -> Rule
    ensures { result ≡ rule_of command }
{
    let (most, out, scenario) = match command {
        Command::Compile => (SOURCES, true, false),
        Command::Run => (SOURCES, true, true),
        Command::Exec => (1, false, true),
    };
    Rule {
        most,
        required: Options { out, scenario },
        allowed: Options { out, scenario },
    }
}

fn is_option(options: Options, word: &str) -> bool
    ensures { result ≡ is_option options word.now }
{
    options.out && word == "--out" || options.scenario && word == "--scen"
}

fn has_options(options: Options, words: &[String]) -> bool
    ensures { result ≡ has_options options (texts words.now) }
{
    (!options.out || has_word(words, "--out")) && (!options.scenario || has_word(words, "--scen"))
}

// Whether the words are options in any order, each allowed, with a file's name after it, and none
// of them twice.
fn are_options(allowed: Options, words: &[String]) -> bool
    ensures { result ≡ are_options allowed (texts words.now) }
{
    let mut left = words;
    while let [option, value, rest @ ..] = left {
        let option = option.as_str();
        if !is_option(allowed, option) || !is_file_name(value.as_str()) || has_word(rest, option) {
            return false;
        }
        left = rest;
    }
    left.len() == 0
}

// How many files' names stand before all other words.
fn files_in(words: &[String]) -> usize
    ensures exact { result ≡ files_in (texts words.now) }
    ensures within { result ≤ length words.now }
{
    for (k, word) in words.iter().enumerate() {
        if !is_file_name(word.as_str()) {
            return k;
        }
    }
    words.len()
}

fn is_count(most: usize, files: usize) -> bool
    ensures { result ≡ is_count most files }
{
    0 < files && files <= most
}

fn takes(rule: Rule, words: &[String]) -> bool
    ensures { result ≡ takes rule (texts words.now) }
{
    are_options(rule.allowed, words) && has_options(rule.required, words)
}

fn follows(rule: Rule, words: &[String]) -> bool
    ensures { result ≡ follows rule (texts words.now) }
{
    let files = files_in(words);
    if !is_count(rule.most, files) {
        return false;
    }
    takes(rule, &words[files..])
}

// The place of an option's value among the words.
fn place_after(words: &[String], option: &str) -> usize
    ensures { result ≡ place_after option.now 0 (texts words.now) }
{
    for (k, word) in words.iter().enumerate() {
        if word.as_str() == option {
            return k + 1;
        }
    }
    0
}

fn call_at(command: Command, words: &[String], rest: &[String]) -> Call
    ensures { result ≡ call_at command (texts words.now) (texts rest.now) }
{
    let sources = files_in(rest);
    let out = place_after(words, "--out");
    let scenario = place_after(words, "--scen");
    match command {
        Command::Compile => Call::Compile { sources, out },
        Command::Run => Call::Run {
            sources,
            out,
            scenario,
        },
        Command::Exec => Call::Exec { scenario },
    }
}

fn call_by(command: Command, words: &[String], rest: &[String]) -> Option<Call>
    ensures { result ≡ call_by command (texts words.now) (texts rest.now) }
{
    if follows(rule_of(command), rest) {
        Some(call_at(command, words, rest))
    } else {
        None
    }
}

/// What the words ask for, `None` where they are not those of a command. A file's name is not empty
/// and does not begin with `-`.
pub fn read_call(words: &[String]) -> Option<Call>
    ensures { result ≡ call_in (texts words.now) }
{
    let [first, rest @ ..] = words else {
        return None;
    };
    match command_of(first.as_str()) {
        None => None,
        Some(command) => call_by(command, words, rest),
    }
}

/// Word `at`, or an empty one where there is none.
pub fn word(words: &[String], at: usize) -> &str
    ensures { result.now ≡ word_at (texts words.now) at }
{
    match words.get(at) {
        None => "",
        Some(word) => word.as_str(),
    }
}
