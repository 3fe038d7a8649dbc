ghost use Rattle.std.specs.Prelude.{◌≡◌, map, IfOk};
ghost use Rattle.tdl_lines.specs.SaidLines.{words_said};

use std::alloc::Global;
use std::marker::Model;
use tdl_base::NoMemory;
use tdl_scen::{is_text, words};

/// A line that is not skipped.
#[derive(Debug, Drop)]
pub struct Line<'a> {
    number: u32,
    text: &'a [u8],
}

impl<'a> Model for Line<'a> {
    ghost use Rattle.tdl_lines.specs.SaidLines.{NumberedLine};

    ghost Value = { NumberedLine };

    ghost view = { λ l. record { number = l.number; text = l.text.now } };
}

impl<'a> Line<'a> {
    pub(crate) fn new(number: u32, text: &'a [u8]) -> Line<'a>
        ensures { result ≡ record { number = number; text = text.now } }
    {
        Line { number, text }
    }

    /// The number of the line in its file, from 1.
    pub fn number(&self) -> u32
        ensures { result ≡ self.now.number }
    {
        self.number
    }

    /// The words of the line; none where it is no text, which a line of any form is.
    pub fn words(&self, alloc: Global) -> Result<Vec<&'a [u8]>, NoMemory>
        ensures { IfOk result (λ found.
            map (λ word. word.now) found.items ≡ words_said self.now.text) }
    {
        if !is_text(self.text) {
            return Ok(Vec::new(alloc));
        }
        words(alloc, self.text)
    }
}
