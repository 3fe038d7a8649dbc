ghost use Rattle.std.specs.Prelude.{◌≡◌, map};
ghost use Rattle.tdl_tree.specs.Kinds as spec;

use crate::WordKind;

/// The reserved words and the signs.
const TABLE: [(&str, WordKind); 55] = [
    ("module", WordKind::Module),
    ("import", WordKind::Import),
    ("public", WordKind::Public),
    ("const", WordKind::Const),
    ("sensor", WordKind::Sensor),
    ("actuator", WordKind::Actuator),
    ("task", WordKind::Task),
    ("input", WordKind::Input),
    ("output", WordKind::Output),
    ("local", WordKind::Local),
    ("if", WordKind::If),
    ("else", WordKind::Else),
    ("repeat", WordKind::Repeat),
    ("start", WordKind::Start),
    ("mode", WordKind::Mode),
    ("period", WordKind::Period),
    ("wcet", WordKind::Wcet),
    ("freq", WordKind::Freq),
    ("slots", WordKind::Slots),
    ("update", WordKind::Update),
    ("switch", WordKind::Switch),
    ("to", WordKind::To),
    ("true", WordKind::True),
    ("false", WordKind::False),
    ("uses", WordKind::Uses),
    ("boolean", WordKind::Boolean),
    ("byte", WordKind::Byte),
    ("short", WordKind::Short),
    ("int", WordKind::Int),
    ("long", WordKind::Long),
    ("{", WordKind::LeftBrace),
    ("}", WordKind::RightBrace),
    ("(", WordKind::LeftParenthesis),
    (")", WordKind::RightParenthesis),
    ("[", WordKind::LeftBracket),
    ("]", WordKind::RightBracket),
    (";", WordKind::Semicolon),
    (",", WordKind::Comma),
    (".", WordKind::Dot),
    ("-", WordKind::Minus),
    ("+", WordKind::Plus),
    ("*", WordKind::Star),
    ("/", WordKind::Slash),
    ("%", WordKind::Percent),
    ("!", WordKind::Bang),
    ("<", WordKind::Less),
    (">", WordKind::Greater),
    ("=", WordKind::Equals),
    (":=", WordKind::Becomes),
    ("<=", WordKind::LessEqual),
    (">=", WordKind::GreaterEqual),
    ("==", WordKind::EqualEqual),
    ("!=", WordKind::NotEqual),
    ("&&", WordKind::AndAnd),
    ("||", WordKind::OrOr),
];

/// The kind of a token that is no reserved word and no sign.
fn free_kind(text: &[u8]) -> WordKind
    ensures { result ≡ spec.free_kind text.now }
{
    match text {
        [first, ..] if first.is_ascii_digit() => WordKind::Number,
        _ => WordKind::Name,
    }
}

/// The kind that the table gives to the text, else the other.
fn kind_among(table: &[(&str, WordKind)], other: WordKind, text: &[u8]) -> WordKind
    ensures { result ≡ spec.kind_among (map (λ entry. (entry.0.now, entry.1)) table.now) other text.now }
{
    match table {
        [entry, rest @ ..] => {
            if entry.0.as_bytes() == text {
                return entry.1;
            }
            kind_among(rest, other, text)
        }
        [] => other,
    }
}

/// What a token of this text is to the grammar.
#[tactic(auto, unfolding(crate::specs::Kinds::kind_of))]
pub fn kind_of(text: &[u8]) -> WordKind
    ensures { result ≡ spec.kind_of text.now }
{
    kind_among(&TABLE, free_kind(text), text)
}
