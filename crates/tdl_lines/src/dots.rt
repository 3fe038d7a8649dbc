ghost use Rattle.std.specs.Prelude.{◌≡◌, ◌+◌, ◌<◌, ◌≤◌, [], ◌∷◌, length, take, drop, option_map, IsNone, MatchOption};
ghost use Rattle.tdl_lines.specs.DottedWords.{parts_of, pair_in, triple_in};

/// The two parts of a word with exactly one dot; `None` for any other word. A part may be empty.
pub fn dotted_pair(word: &[u8]) -> Option<(&[u8], &[u8])>
    ensures { option_map (λ found. (found.0.now, found.1.now)) result ≡ pair_in (parts_of word.now) }
{
    let (first, rest) = cut(word)?;
    match cut(rest) {
        None => Some((first, rest)),
        Some(_) => None,
    }
}

/// The three parts of a word with exactly two dots; `None` for any other word. A part may be empty.
pub fn dotted_triple(word: &[u8]) -> Option<(&[u8], &[u8], &[u8])>
    ensures { option_map (λ found. (found.0.now, found.1.now, found.2.now)) result
        ≡ triple_in (parts_of word.now) }
{
    let (first, rest) = cut(word)?;
    let (second, third) = dotted_pair(rest)?;
    Some((first, second, third))
}

/// What stands before the first dot and after it; `None` where there is no dot.
fn cut(word: &[u8]) -> Option<(&[u8], &[u8])>
    ensures { MatchOption result (parts_of word.now ≡ word.now ∷ [])
        (λ found. parts_of word.now ≡ found.0.now ∷ parts_of found.1.now) }
{
    for (i, b) in word.iter().enumerate() {
        if *b == b'.' {
            return Some((&word[..i], &word[i + 1..]));
        }
    }
    None
}
