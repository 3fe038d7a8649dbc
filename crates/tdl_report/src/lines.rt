ghost use Rattle.std.specs.Fmt.{decimal};
ghost use Rattle.std.specs.Prelude.{◌≡◌, ◌++◌, OnOk, IfOk};
ghost use Rattle.tdl_report.specs.Statuses.{named_line, place_line, program_line, rule_line};

use itoa::Buffer;
use std::alloc::Global;
use tdl_base::NoMemory;

fn put_number(into: &mut Vec<u8>, number: u32) -> Result<(), NoMemory>
    ensures { OnOk result (into.new.items ≡ into.old.items ++ decimal number) }
{
    let mut buffer = Buffer::new();
    into.extend_from_slice(buffer.format(number).as_bytes())?;
    Ok(())
}

/// The line that names a file.
pub fn named_line(alloc: Global, text: &[u8], name: &str) -> Result<Vec<u8>, NoMemory>
    ensures { IfOk result (λ line. line.items ≡ named_line text.now name.now) }
{
    let mut line = Vec::from_slice(alloc, text)?;
    line.extend_from_slice(name.as_bytes())?;
    line.extend_from_slice(b"\n")?;
    Ok(line)
}

/// The line that names a place in a file.
pub fn place_line(
    alloc: Global,
    text: &[u8],
    name: &str,
    line: u32,
    col: u32,
) -> Result<Vec<u8>, NoMemory>
    ensures { IfOk result (λ made. made.items ≡ place_line text.now name.now line col) }
{
    let mut made = Vec::from_slice(alloc, text)?;
    made.extend_from_slice(name.as_bytes())?;
    made.extend_from_slice(b":")?;
    put_number(&mut made, line)?;
    made.extend_from_slice(b":")?;
    put_number(&mut made, col)?;
    made.extend_from_slice(b"\n")?;
    Ok(made)
}

/// The line that names a rule of programs and a place in a source.
pub fn program_line(
    alloc: Global,
    rule: u8,
    name: &str,
    line: u32,
    col: u32,
) -> Result<Vec<u8>, NoMemory>
    ensures { IfOk result (λ made. made.items ≡ program_line rule name.now line col) }
{
    let mut text = Vec::from_slice(alloc, b"tdl: program C")?;
    put_number(&mut text, u32::from(rule))?;
    text.extend_from_slice(b" at ")?;
    place_line(alloc, &text, name, line, col)
}

/// The line that names a rule, and a number after some words.
pub fn rule_line(
    alloc: Global,
    text: &[u8],
    rule: u8,
    words: &[u8],
    number: u32,
) -> Result<Vec<u8>, NoMemory>
    ensures { IfOk result (λ made. made.items ≡ rule_line text.now rule words.now number) }
{
    let mut made = Vec::from_slice(alloc, text)?;
    put_number(&mut made, u32::from(rule))?;
    made.extend_from_slice(words)?;
    put_number(&mut made, number)?;
    made.extend_from_slice(b"\n")?;
    Ok(made)
}
