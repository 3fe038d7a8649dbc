/// The tokens of the worked example in specs/Example.antt.
#[derive(Clone, Copy, Debug, PartialEq, Eq)]
pub enum Sign {
    One,
    Two,
    Plus,
    Comma,
    Semicolon,
    Open,
    Close,
    Begin,
    End,
    Minus,
}
