ghost use Rattle.std.specs.Prelude.{◌≡◌, None};
ghost use Rattle.tdl_lines.specs.Faults.{earliest};
ghost use Rattle.tdl_sched.specs.ScheduleRules.{forms_in, breaks_form, is_unknown, line_faults, faults_of};

use crate::entry::Entry;
use tdl_base::limits::WINDOWS;
use tdl_lines::{Fault, Said, note_if};

/// One for a line of the window's form, nothing for another.
fn forms_in(entry: &Entry) -> usize
    ensures { result ≡ forms_in entry.now }
{
    match entry {
        Entry::Formless => 0,
        Entry::Reserve { .. } => 1,
    }
}

/// S0, after so many lines of the window's form.
fn breaks_form(before: usize, entry: &Entry) -> bool
    ensures { result ≡ breaks_form before entry.now }
{
    match entry {
        Entry::Formless => true,
        Entry::Reserve { span, .. } => span.is_none() || before >= WINDOWS,
    }
}

/// S1.
fn is_unknown(entry: &Entry) -> bool
    ensures { result ≡ is_unknown entry.now }
{
    match entry {
        Entry::Formless => false,
        Entry::Reserve { called, .. } => called.is_none(),
    }
}

/// Notes the first rule that a line breaks, if that comes before what was noted.
fn note_line(before: usize, said: &Said<Entry>, best: &mut Option<Fault>)
    ensures { best.new ≡ earliest best.old (line_faults before said.now) }
{
    note_if(best, breaks_form(before, &said.what), said.line, 0);
    note_if(best, is_unknown(&said.what), said.line, 1);
}

/// The first fault of the lines of a file.
pub(crate) fn first_fault(lines: &[Said<Entry>]) -> Option<Fault>
    ensures { result ≡ earliest None (faults_of lines.now) }
{
    let mut before = 0;
    let mut best = None;
    for said in lines {
        note_line(before, said, &mut best);
        before += forms_in(&said.what);
    }
    best
}
