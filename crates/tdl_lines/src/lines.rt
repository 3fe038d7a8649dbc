ghost use Rattle.std.specs.Prelude.{◌≡◌, ◌↔◌, ◌≤◌, [], length, IsNone};
ghost use Rattle.std.specs.List.{cons_option};
ghost use Rattle.tdl_lines.specs.SaidLines.{said_lines, number_after};

use crate::Line;
use std::marker::Model;
use tdl_scen::{is_skipped, next_line};

/// The greatest length of a line file, in bytes.
pub const FILE_BYTES: usize = 67_108_864;

/// The lines of a file that are not skipped and that are left to be read. Contracts see them as a
/// list.
#[derive(Debug, Drop)]
pub struct Lines<'a> {
    passed: u32,
    rest: &'a [u8],
}

impl<'a> Model for Lines<'a> {
    ghost use Rattle.std.specs.Prelude.{◌+◌, ◌≤◌, List, length};
    ghost use Rattle.tdl_scen.specs.Lines.{lines_of};
    ghost use Rattle.tdl_lines.specs.SaidLines.{NumberedLine, said_from};
    ghost use Rattle.tdl_lines.specs.declared.lines.TheConstants.{FILE_BYTES};

    ghost Value = { List NumberedLine };

    ghost view = { λ l. said_from (l.passed + 1) (lines_of l.rest.now) };

    ghost invariant = { λ l. l.passed + length l.rest.now ≤ FILE_BYTES };
}

impl<'a> Lines<'a> {
    /// All lines of a file.
    pub fn new(bytes: &'a [u8]) -> Lines<'a>
        requires { length bytes.now ≤ FILE_BYTES }
        ensures { result ≡ said_lines bytes.now }
    {
        Lines {
            passed: 0,
            rest: bytes,
        }
    }

    /// The first line that is left; `None` where none is.
    pub fn next(&mut self) -> Option<Line<'a>>
        ensures lines { self.old ≡ cons_option result self.new }
        ensures none { IsNone result → self.old ≡ [] }
    {
        while let Some((text, after)) = next_line(self.rest) {
            self.passed += 1;
            self.rest = after;
            if !is_skipped(text) {
                return Some(Line::new(self.passed, text));
            }
        }
        None
    }
}

/// The line of a fault that has no line: the number of lines plus 1.
pub fn line_after(bytes: &[u8]) -> u32
    requires { length bytes.now ≤ FILE_BYTES }
    ensures { result ≡ number_after bytes.now }
{
    let mut number = 1;
    let mut rest = bytes;
    while let Some((_, after)) = next_line(rest) {
        number += 1;
        rest = after;
    }
    number
}
