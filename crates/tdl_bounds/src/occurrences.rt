ghost use Rattle.std.specs.Prelude.{◌≡◌, map};
ghost use Rattle.tdl_base.specs.declared.limits.TheConstants.{OCCURRENCES};
ghost use Rattle.tdl_bounds.specs.Occurrences.{capped, one_of, next, after, of_module};
ghost use Rattle.tdl_bounds.specs.declared.occurrences.Counted.TheVariants.{Left};
ghost use Rattle.tdl_rules.specs.BoundRules as bounds;
ghost use Rattle.tdl_rules.specs.Earliest.{earliest};
ghost use Rattle.tdl_rules.specs.Lists.{each};
ghost use Rattle.tdl_rules.specs.Parts.{modules};
ghost use Rattle.tdl_rules.specs.Times.{time_us};

use tdl_base::limits::OCCURRENCES;
use tdl_names::{Scope, Sources, spot_of_activity};
use tdl_rules::Fault;
use tdl_times::{let_count, time_count};
use tdl_tree::{Act, ActKind, Decl, Time};
use tdl_walk::note;

/// How many occurrences an activity has in a mode of this period, or 16,385 where they are more.
fn count_of(period: &Time, act: &Act) -> u64
    ensures { result ≡ capped (bounds.count_of (time_us period.now) act.now act.now.what) }
{
    match &act.what {
        ActKind::Task { .. } => let_count(period, act),
        ActKind::Update { .. } => time_count(period, act),
        ActKind::Switch { .. } => time_count(period, act),
    }
}

/// How many occurrences a program may still have, or the activity with which they are too many.
#[derive(Clone, Copy)]
enum Counted {
    Left(u64),
    Passed(Fault),
}

impl Counted {
    /// After one activity more.
    fn next(self, scope: &Scope, period: &Time, act: &Act) -> Counted
        ensures { result ≡ next self (one_of scope.now (time_us period.now) act.now) }
    {
        match self {
            Counted::Passed(_) => self,
            Counted::Left(left) => {
                let count = count_of(period, act);
                if left < count {
                    Counted::Passed(scope.broken(21, spot_of_activity(act)))
                } else {
                    Counted::Left(left - count)
                }
            }
        }
    }

    /// After the activities of a mode.
    fn after_mode(self, scope: &Scope, period: &Time, acts: &[Act]) -> Counted
        ensures { result ≡ after self (map (one_of scope.now (time_us period.now)) acts.now) }
    {
        let mut counted = self;
        for act in acts {
            counted = counted.next(scope, period, act);
        }
        counted
    }

    /// After a declaration.
    fn after_declaration(self, scope: &Scope, decl: &Decl) -> Counted
        ensures { result ≡ after self (bounds.counted scope.now decl.now) }
    {
        match decl {
            Decl::Mode { period, acts, .. } => self.after_mode(scope, period, acts.as_slice()),
            _ => self,
        }
    }

    /// After the modes of a module.
    fn after_module(self, scope: &Scope) -> Counted
        ensures { result ≡ after self (of_module scope.now) }
    {
        let mut counted = self;
        let decls = scope.module().tree().decls.as_slice();
        for decl in decls {
            counted = counted.after_declaration(scope, decl);
        }
        counted
    }
}

/// The count after all modules.
fn counted_in(sources: &Sources) -> Counted
    ensures { result ≡ after (Left OCCURRENCES) (each of_module (modules sources.now)) }
{
    let mut counted = Counted::Left(OCCURRENCES as u64);
    for file in 0..sources.len() {
        let Some(scope) = sources.scope(file) else {
            return counted;
        };
        counted = counted.after_module(&scope);
    }
    counted
}

/// C21 on occurrences.
#[tactic(auto, unfolding(tdl_rules::specs::Earliest::earliest))]
pub(crate) fn many_occurrences(sources: &Sources, best: &mut Option<Fault>)
    ensures { best.new ≡ earliest best.old
        (bounds.passes OCCURRENCES (each of_module (modules sources.now))) }
{
    match counted_in(sources) {
        Counted::Left(_) => {}
        Counted::Passed(fault) => note(best, fault),
    }
}
