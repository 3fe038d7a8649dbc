ghost use Rattle.std.specs.Prelude.{◌≡◌, None};
ghost use Rattle.tdl_base.specs.Lists.{joined};
ghost use Rattle.tdl_check.specs.Groups as groups;
ghost use Rattle.tdl_rules.specs.Earliest.{earliest};
ghost use Rattle.tdl_rules.specs.Faults.{faults};

use tdl_bounds::{deep_expressions, long_bodies, long_repeats, passed_counts};
use tdl_modes::{
    own_targets, wrong_frequencies, wrong_periods, wrong_ranges, wrong_starts, wrong_worst_cases,
};
use tdl_names::Sources;
use tdl_naming::{
    lost_names, repeated_names, unassignable_targets, unknown_imports, wrong_argument_counts,
};
use tdl_occurs::{cutting_switches, overlapping_invocations, overlapping_updates};
use tdl_rules::Fault;
use tdl_sorts::{great_numbers, wrong_sorts};

/// C1 to C8.
fn names_and_sorts(sources: &Sources, best: &mut Option<Fault>)
    ensures { best.new ≡ earliest best.old (joined (groups.names_and_sorts sources.now)) }
{
    repeated_names(sources, best);
    unknown_imports(sources, best);
    lost_names(sources, best);
    wrong_sorts(sources, best);
    unassignable_targets(sources, best);
    wrong_argument_counts(sources, best);
    great_numbers(sources, best);
}

/// C9 to C17.
fn modes(sources: &Sources, best: &mut Option<Fault>)
    ensures { best.new ≡ earliest best.old (joined (groups.modes sources.now)) }
{
    wrong_periods(sources, best);
    wrong_frequencies(sources, best);
    wrong_ranges(sources, best);
    wrong_starts(sources, best);
    overlapping_invocations(sources, best);
    overlapping_updates(sources, best);
    cutting_switches(sources, best);
    own_targets(sources, best);
    wrong_worst_cases(sources, best);
}

/// C18 to C20.
fn bounds(sources: &Sources, best: &mut Option<Fault>)
    ensures { best.new ≡ earliest best.old (joined (groups.bounds sources.now)) }
{
    long_repeats(sources, best);
    deep_expressions(sources, best);
    long_bodies(sources, best);
}

/// The first fault of all rules. C21 comes before the others, so that C13 to C15 look at no
/// activity behind the one with which there are too many occurrences.
pub(crate) fn first_fault(sources: &Sources) -> Option<Fault>
    ensures { result ≡ earliest None (faults sources.now) }
{
    let mut best = None;
    passed_counts(sources, &mut best);
    names_and_sorts(sources, &mut best);
    modes(sources, &mut best);
    bounds(sources, &mut best);
    best
}
