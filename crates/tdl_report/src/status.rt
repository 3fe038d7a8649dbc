ghost use Rattle.std.specs.Prelude.{◌≡◌};
ghost use Rattle.tdl_report.specs.Statuses.{code_of};
ghost use Rattle.tdl_report.specs.declared.status.Status.TheVariants.{NoMemory};

/// How a call ended. `word` is the place, from 0, of a file's name in the words of the call.
#[derive(Clone, Copy, Debug, PartialEq, Eq)]
pub enum Status {
    /// The defined output was written.
    Ok,
    /// The words are not those of a command.
    Usage,
    /// A file could not be read.
    LoadFailed {
        word: usize,
    },
    /// A file is longer than its limit.
    TooLong {
        word: usize,
    },
    /// No token begins at a place of a source: its line and its column in bytes, each from 1.
    BadToken {
        word: usize,
        line: u32,
        col: u32,
    },
    /// A token of a source is out of place, or the source ends too early: the token's line and
    /// column, or those of the source's end.
    BadSyntax {
        word: usize,
        line: u32,
        col: u32,
    },
    /// A rule of programs, 1 to 21, is broken at a place of a source: its line and its column.
    BadProgram {
        word: usize,
        rule: u8,
        line: u32,
        col: u32,
    },
    /// A line of the scenario breaks rule N1 to N8; lines are counted from 1, and the number of
    /// lines plus 1 is that of a fault without a line.
    BadScenario {
        rule: u8,
        line: u32,
    },
    /// The output could not be written.
    WriteFailed,
    /// A file could not be written.
    SaveFailed {
        word: usize,
    },
    /// The bytes of a bundle break rule B1 to B4 at a place, which is counted in bytes from 0.
    BadBundle {
        rule: u8,
        at: u32,
    },
    /// There was no memory.
    NoMemory,
    /// A file is not of the form that is taken today.
    BadForm {
        word: usize,
    },
}

impl Status {
    /// The exit status of the program.
    pub fn code(&self) -> u8
        ensures { result ≡ code_of self.now }
    {
        match self {
            Status::Ok => 0,
            Status::Usage => 1,
            Status::LoadFailed { word: _ } => 2,
            Status::TooLong { word: _ } => 3,
            Status::BadToken {
                word: _,
                line: _,
                col: _,
            } => 4,
            Status::BadSyntax {
                word: _,
                line: _,
                col: _,
            } => 5,
            Status::BadProgram {
                word: _,
                rule: _,
                line: _,
                col: _,
            } => 6,
            Status::BadScenario { rule: _, line: _ } => 10,
            Status::BadBundle { rule: _, at: _ } => 11,
            Status::WriteFailed => 13,
            Status::SaveFailed { word: _ } => 14,
            Status::NoMemory => 16,
            Status::BadForm { word: _ } => 17,
        }
    }
}

impl From<tdl_base::NoMemory> for Status {
    ghost from_gives = { λ _ e. e ≡ NoMemory };

    fn from(_refused: tdl_base::NoMemory) -> Status {
        Status::NoMemory
    }
}
