ghost use Rattle.std.specs.Prelude.{◌≡◌};
ghost use Rattle.std.specs.List.{list_any};
ghost use Rattle.tdl_lines.specs.Faults.{earliest};
ghost use Rattle.tdl_scenario.specs.Rules.{seen_in, breaks_form, is_unknown, breaks_time, breaks_kind, is_wrong, breaks_worst, breaks_limit, breaks_order, breaks_bind, line_faults};

use crate::entry::Entry;
use crate::orders::names_each;
use crate::seen::Seen;
use tdl_base::limits::HORIZON_US;
use tdl_lines::{Fault, Said, note_if};

/// N1.
fn breaks_form(seen: &Seen, entry: &Entry) -> bool
    ensures { result ≡ breaks_form (seen_in seen.now) entry.now }
{
    match entry {
        Entry::Formless => true,
        Entry::Horizon(_) => seen.horizon,
        Entry::Order(_) => seen.order,
        _ => false,
    }
}

/// N2.
fn is_unknown(entry: &Entry) -> bool
    ensures { result ≡ is_unknown entry.now }
{
    matches!(entry, Entry::Unknown)
}

/// N3.
fn breaks_time(seen: &Seen, entry: &Entry) -> bool
    ensures { result ≡ breaks_time (seen_in seen.now) entry.now }
{
    let Entry::Sense {
        module,
        sensor,
        at,
        ..
    } = entry
    else {
        return false;
    };
    match seen.latest.get(module.0, *sensor) {
        None => false,
        Some(last) => at.0 <= last,
    }
}

/// N4.
fn breaks_kind(entry: &Entry) -> bool
    ensures { result ≡ breaks_kind entry.now }
{
    match entry {
        Entry::Sense { value, .. } => value.is_none(),
        _ => false,
    }
}

/// Whether a time is 0 or above the worst case.
fn is_wrong(worst: u64, time: u64) -> bool
    ensures { result ≡ is_wrong worst time }
{
    time == 0 || worst < time
}

/// Whether one of some times is 0 or above the worst case.
fn has_wrong(worst: u64, times: &[u64]) -> bool
    ensures { result ≡ list_any (is_wrong worst) times.now }
{
    times.iter().any(|time| is_wrong(worst, *time))
}

/// N5.
fn breaks_worst(entry: &Entry) -> bool
    ensures { result ≡ breaks_worst entry.now }
{
    match entry {
        Entry::Exec { worst, times } => has_wrong(worst.0, times.times.as_slice()),
        _ => false,
    }
}

/// N6.
fn breaks_limit(entry: &Entry) -> bool
    ensures { result ≡ breaks_limit entry.now }
{
    match entry {
        Entry::Horizon(time) => time.0 > HORIZON_US,
        _ => false,
    }
}

/// N7.
fn breaks_order(nodes: usize, entry: &Entry) -> bool
    ensures { result ≡ breaks_order nodes entry.now }
{
    match entry {
        Entry::Order(None) => true,
        Entry::Order(Some(order)) => !names_each(nodes, order.as_slice()),
        _ => false,
    }
}

/// N8.
fn breaks_bind(seen: &Seen, entry: &Entry) -> bool
    ensures { result ≡ breaks_bind (seen_in seen.now) entry.now }
{
    match entry {
        Entry::Bind { part, plug } => {
            plug.is_none() || seen.is_bound(part) || seen.is_sensed(part)
        }
        Entry::Sense { module, sensor, .. } => seen.sensors.get(module.0, *sensor).is_some(),
        _ => false,
    }
}

/// Notes the first rule that a line breaks, if that comes before what was noted.
pub(crate) fn note_line(nodes: usize, seen: &Seen, said: &Said<Entry>, best: &mut Option<Fault>)
    ensures { best.new ≡ earliest best.old (line_faults nodes (seen_in seen.now) said.now) }
{
    let entry = &said.what;
    note_if(best, breaks_form(seen, entry), said.line, 1);
    note_if(best, is_unknown(entry), said.line, 2);
    note_if(best, breaks_time(seen, entry), said.line, 3);
    note_if(best, breaks_kind(entry), said.line, 4);
    note_if(best, breaks_worst(entry), said.line, 5);
    note_if(best, breaks_limit(entry), said.line, 6);
    note_if(best, breaks_order(nodes, entry), said.line, 7);
    note_if(best, breaks_bind(seen, entry), said.line, 8);
}
