ghost use Rattle.std.specs.Prelude.{◌≡◌};
ghost use Rattle.tdl_rules.specs.BoundRules as bounds;
ghost use Rattle.tdl_rules.specs.Earliest.{earliest};

use crate::occurrences::many_occurrences;
use crate::parts::{many_parts, many_ports};
use tdl_names::Sources;
use tdl_rules::Fault;

/// C21: the task, mode, constant, sensor or actuator with which a module has too many, the port
/// with which a task has, and the activity with which the occurrences of all modules, in order of
/// the sources, are too many.
pub fn passed_counts(sources: &Sources, best: &mut Option<Fault>)
    ensures { best.new ≡ earliest best.old (bounds.c21 sources.now) }
{
    many_parts(sources, best);
    many_ports(sources, best);
    many_occurrences(sources, best);
}
