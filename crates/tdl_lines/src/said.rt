/// What a line says, with the line's number.
#[derive(Debug, Drop)]
pub struct Said<T> {
    /// The line, counted from 1.
    pub line: u32,
    pub what: T,
}
