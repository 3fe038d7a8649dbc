ghost use Rattle.std.specs.Prelude.{◌≡◌, ◌+◌, ◌<◌, ◌≤◌, ◌↔◌, [], ◌∷◌, List, ℕ, length, map, take, drop, IsNone, IfSome, IfOk, OnOk, ◌++◌};
ghost use Rattle.tdl_scen.specs.Lines.{lines_of, words_of, with_piece, without_cr, is_space_or_tab as blank, is_text_byte as text_byte, is_skipped as skipped, is_text as text};

use std::alloc::Global;
use tdl_base::NoMemory;

/// The first line and the bytes after it, or `None` where there is no line left.
pub fn next_line(bytes: &[u8]) -> Option<(&[u8], &[u8])>
    ensures none { IsNone result ↔ (bytes.now ≡ []) }
    ensures lines { IfSome result (λ cut. lines_of bytes.now ≡ cut.0.now ∷ lines_of cut.1.now) }
    ensures shorter { IfSome result (λ cut. length cut.1.now < length bytes.now) }
{
    if bytes.is_empty() {
        return None;
    }
    let end = line_end(bytes);
    if end == bytes.len() {
        return Some((bytes, &[]));
    }
    Some((before_cr(&bytes[..end]), &bytes[end + 1..]))
}

/// Where the first LF stands, or the length where there is none.
fn line_end(bytes: &[u8]) -> usize
    ensures within { result ≤ length bytes.now }
    ensures ended { result < length bytes.now →
        lines_of bytes.now ≡ without_cr (take result bytes.now)
        ∷ lines_of (drop (result + 1) bytes.now) }
    ensures last { result ≡ length bytes.now → lines_of bytes.now ≡ with_piece bytes.now [] }
{
    for (i, b) in bytes.iter().enumerate() {
        if *b == b'\n' {
            return i;
        }
    }
    bytes.len()
}

/// The bytes before an LF without one CR at their end.
fn before_cr(line: &[u8]) -> &[u8]
    ensures { result.now ≡ without_cr line.now }
{
    let Some((last, front)) = line.split_last() else {
        return line;
    };
    if *last == b'\r' {
        return front;
    }
    line
}

/// The words of a line: what stands between spaces and tabs.
pub fn words(alloc: Global, line: &[u8]) -> Result<Vec<&[u8]>, NoMemory>
    ensures { IfOk result (λ found. map (λ word. word.now) found.items ≡ words_of line.now) }
{
    let mut found = Vec::new(alloc);
    let mut rest = line;
    loop {
        let end = word_end(rest);
        put_piece(&mut found, &rest[..end])?;
        if end == rest.len() {
            return Ok(found);
        }
        rest = &rest[end + 1..];
    }
}

/// Puts a piece after the words, unless it is empty.
fn put_piece<'a>(found: &mut Vec<&'a [u8]>, piece: &'a [u8]) -> Result<(), NoMemory>
    ensures { OnOk result ((more : List (List ℕ)) →
        map (λ word. word.now) found.new.items ++ more ≡
        map (λ word. word.now) found.old.items ++ with_piece piece.now more) }
{
    if piece.is_empty() {
        return Ok(());
    }
    found.push(piece)?;
    Ok(())
}

/// Where the first blank stands, or the length where there is none.
fn word_end(line: &[u8]) -> usize
    ensures within { result ≤ length line.now }
    ensures ended { result < length line.now →
        words_of line.now
        ≡ with_piece (take result line.now) (words_of (drop (result + 1) line.now)) }
    ensures last { result ≡ length line.now → words_of line.now ≡ with_piece line.now [] }
{
    for (i, b) in line.iter().enumerate() {
        if is_blank(*b) {
            return i;
        }
    }
    line.len()
}

fn is_blank(b: u8) -> bool
    ensures { result ≡ blank b }
{
    b == b' ' || b == b'\t'
}

/// Whether a line is passed over: it has no words, or its first begins with `#`. The line is not
/// cut into words.
pub fn is_skipped(line: &[u8]) -> bool
    ensures { result ≡ skipped (words_of line.now) }
{
    for b in line {
        if !is_blank(*b) {
            return *b == b'#';
        }
    }
    true
}

/// Whether each byte of a line is a tab or printable, as those of a line that is not skipped must
/// be.
pub fn is_text(line: &[u8]) -> bool
    ensures { result ≡ text line.now }
{
    line.iter().all(|b| is_text_byte(*b))
}

fn is_text_byte(b: u8) -> bool
    ensures { result ≡ text_byte b }
{
    b == b'\t' || (b >= 32 && b <= 126)
}

#[cfg(test)]
mod tests {
    use super::*;

    #[test]
    fn cuts_words(rt: HostRuntime) -> Result<(), NoMemory> {
        let found = words(rt.alloc(), b"\tsense  P.s\t0 ")?;
        let wanted = [b"sense".as_slice(), b"P.s".as_slice(), b"0".as_slice()];
        assert_eq!(rt; found.as_slice(), wanted.as_slice());
        Ok(())
    }
}
