ghost use Rattle.std.specs.Prelude.{◌≡◌};
ghost use Rattle.tdl_lines.specs.Faults.{earlier, earliest, fault_if, is_before as comes_before};

/// A rule that a line breaks.
#[derive(Clone, Copy, Debug, PartialEq, Eq)]
pub struct Fault {
    /// The line, counted from 1; the number of lines plus 1 for a fault that has no line.
    pub line: u32,
    /// The number after the rule's letter.
    pub rule: u8,
}

impl Fault {
    /// Whether the line is before the other's, or is the same and breaks a rule of a lower number.
    pub fn is_before(&self, other: &Fault) -> bool
        ensures { result ≡ comes_before self.now other.now }
    {
        self.line < other.line || (self.line == other.line && self.rule < other.rule)
    }
}

/// Notes that a line breaks a rule, where it does, if that comes before what was noted.
#[tactic(auto, unfolding(crate::specs::Faults::earliest))]
pub fn note_if(best: &mut Option<Fault>, breaks: bool, line: u32, rule: u8)
    ensures { best.new ≡ earliest best.old (fault_if breaks line rule) }
{
    if breaks {
        note(best, Fault { line, rule });
    }
}

fn note(best: &mut Option<Fault>, fault: Fault)
    ensures { best.new ≡ earlier best.old fault }
{
    match best {
        None => *best = Some(fault),
        Some(first) => {
            if fault.is_before(first) {
                *first = fault;
            }
        }
    }
}
