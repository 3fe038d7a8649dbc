ghost use Rattle.std.specs.Prelude.{◌≡◌};
ghost use Rattle.tdl_scen.specs.Lines.{number_of, signed_of};

/// The greatest count of a number's digits.
const DIGITS: usize = 19;

/// The number that a word of 1 to 19 decimal digits is; `None` for any other word.
pub fn number(word: &[u8]) -> Option<u64>
    ensures { result ≡ number_of word.now }
{
    if word.is_empty() || word.len() > DIGITS {
        return None;
    }
    let mut value = 0;
    for digit in word {
        if !digit.is_ascii_digit() {
            return None;
        }
        value = 10 * value + u64::from(*digit - b'0');
    }
    Some(value)
}

/// The number that a word is before which one `-` may stand; `None` for any other word.
pub fn signed_number(word: &[u8]) -> Option<i128>
    ensures { result ≡ signed_of word.now }
{
    match word {
        [b'-', digits @ ..] => number(digits).map(|n| -i128::from(n)),
        _ => number(word).map(i128::from),
    }
}
