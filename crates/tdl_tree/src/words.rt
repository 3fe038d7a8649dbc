ghost use Rattle.std.specs.Prelude.{◌≡◌};
ghost use Rattle.tdl_tree.specs.Kinds.{is};

use tdl_base::Text;

/// What a token is to the grammar: one of the reserved words, one of the signs, a name or a number.
#[derive(Clone, Copy, Debug, PartialEq, Eq)]
pub enum WordKind {
    Module,
    Import,
    Public,
    Const,
    Sensor,
    Actuator,
    Task,
    Input,
    Output,
    Local,
    If,
    Else,
    Repeat,
    Start,
    Mode,
    Period,
    Wcet,
    Freq,
    Slots,
    Update,
    Switch,
    To,
    True,
    False,
    Uses,
    Boolean,
    Byte,
    Short,
    Int,
    Long,
    LeftBrace,
    RightBrace,
    LeftParenthesis,
    RightParenthesis,
    LeftBracket,
    RightBracket,
    Semicolon,
    Comma,
    Dot,
    Minus,
    Plus,
    Star,
    Slash,
    Percent,
    Bang,
    Less,
    Greater,
    Equals,
    Becomes,
    LessEqual,
    GreaterEqual,
    EqualEqual,
    NotEqual,
    AndAnd,
    OrOr,
    Name,
    Number,
}

/// A token as the grammar sees it: its kind, its text, and its place from 1:1 in lines and bytes.
#[derive(Debug, Drop)]
pub struct Word {
    pub kind: WordKind,
    pub text: Text,
    pub line: u32,
    pub col: u32,
}

impl Word {
    /// Whether it is of the kind.
    pub fn is(&self, kind: WordKind) -> bool
        ensures { result ≡ is kind self.now }
    {
        self.kind == kind
    }
}
