ghost use Rattle.std.specs.Prelude.{◌≡◌, ℕ, ◌+◌, ◌<◌, ◌≤◌, List, [], ◌∷◌, ◌++◌, length};
ghost use Rattle.tdl_scan.specs.Places as spec;

use tdl_base::limits::SOURCE_BYTES;

/// A place in a source: line and column, from 1; the column counts bytes.
#[derive(Clone, Copy, Debug, PartialEq, Eq)]
pub struct SourcePlace {
    pub line: u32,
    pub col: u32,
}

impl SourcePlace {
    /// The place of the first byte.
    pub(crate) fn start() -> SourcePlace
        ensures { result ≡ spec.place_after [] }
    {
        SourcePlace { line: 1, col: 1 }
    }

    /// The place after the byte that stands here.
    fn after_byte(self, c: u8) -> SourcePlace
        requires line { self.line < u32.MAX }
        requires col { self.col < u32.MAX }
        ensures place { (front : List ℕ) → self ≡ spec.place_after front →
            result ≡ spec.place_after (front ++ c ∷ []) }
        ensures line { result.line ≤ self.line + 1 }
        ensures col { result.col ≤ self.col + 1 }
    {
        if c == b'\n' {
            SourcePlace {
                line: self.line + 1,
                col: 1,
            }
        } else {
            SourcePlace {
                line: self.line,
                col: self.col + 1,
            }
        }
    }

    /// The place after the bytes that begin here.
    pub(crate) fn after(self, bytes: &[u8]) -> SourcePlace
        requires line { self.line + length bytes.now ≤ u32.MAX }
        requires col { self.col + length bytes.now ≤ u32.MAX }
        ensures { (front : List ℕ) → self ≡ spec.place_after front →
            result ≡ spec.place_after (front ++ bytes.now) }
    {
        let mut place = self;
        for c in bytes {
            place = place.after_byte(*c);
        }
        place
    }
}

/// The place after the last byte of the source.
pub fn end_place(source: &[u8]) -> SourcePlace
    requires { length source.now ≤ SOURCE_BYTES }
    ensures { result ≡ spec.end_place source.now }
{
    SourcePlace::start().after(source)
}
