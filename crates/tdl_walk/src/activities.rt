ghost use Rattle.std.specs.Prelude.{◌≡◌};
ghost use Rattle.tdl_rules.specs.Earliest.{earliest};
ghost use Rattle.tdl_rules.specs.Lists.{each};
ghost use Rattle.tdl_rules.specs.Parts as parts;
ghost use Rattle.tdl_rules.specs.Times.{time_us};

use crate::{OnDeclaration, in_declarations};
use tdl_names::{Entry, Scope, Sources};
use tdl_rules::Fault;
use tdl_tree::{Act, Decl, Time};

/// A rule on the activities of a mode, all together.
pub trait OnMode {
    ghost use Rattle.std.specs.Prelude.{ℕ, List};
    ghost use Rattle.tdl_rules.specs.declared.fault.Fault.{Fault};
    ghost use Rattle.tdl_rules.specs.Naming.{Scope as Standing};
    ghost use Rattle.tdl_tree.specs.declared.activities.Act.{Act};

    /// The faults of the activities of a mode, whose period in microseconds is given.
    ghost gives: { Self → Standing → ℕ → List Act → List Fault };

    /// Notes the faults of the activities of a mode.
    fn at(&self, scope: &Scope, period: &Time, acts: &[Act], best: &mut Option<Fault>)
        ensures { best.new ≡
            earliest best.old (gives self.now scope.now (time_us period.now) acts.now) };
}

/// A rule on the activities of each mode.
#[derive(Drop)]
struct AtModes<'r, R> {
    rule: &'r R,
}

impl<'r, R: OnMode> OnDeclaration for AtModes<'r, R> {
    ghost use Rattle.tdl_rules.specs.Parts.{at_mode};

    ghost gives = { λ it scope decl. at_mode (R.gives it.rule.now) scope decl };

    #[tactic(auto, unfolding(tdl_rules::specs::Earliest::earliest))]
    fn at<'b, 'a>(&self, scope: &Scope<'b, 'a>, entry: &Entry<'b, 'a>, best: &mut Option<Fault>) {
        if let Decl::Mode { period, acts, .. } = entry.decl() {
            self.rule.at(scope, period, acts.as_slice(), best);
        }
    }
}

/// A rule on the activities of each mode.
pub fn in_modes<R: OnMode>(rule: &R, sources: &Sources, best: &mut Option<Fault>)
    ensures { best.new ≡ earliest best.old (parts.in_modes (R.gives rule.now) sources.now) }
{
    in_declarations(&AtModes { rule }, sources, best);
}

/// A rule on activities.
pub trait OnActivity {
    ghost use Rattle.std.specs.Prelude.{ℕ, List};
    ghost use Rattle.tdl_rules.specs.declared.fault.Fault.{Fault};
    ghost use Rattle.tdl_rules.specs.Naming.{Scope as Standing};
    ghost use Rattle.tdl_tree.specs.declared.activities.Act.{Act};

    /// The faults at one activity of a mode, whose period in microseconds is given.
    ghost gives: { Self → Standing → ℕ → Act → List Fault };

    /// Notes the faults at one activity.
    fn at(&self, scope: &Scope, period: &Time, act: &Act, best: &mut Option<Fault>)
        ensures { best.new ≡
            earliest best.old (gives self.now scope.now (time_us period.now) act.now) };
}

/// A rule at each activity of a mode.
#[derive(Drop)]
struct AtActivities<'r, R> {
    rule: &'r R,
}

impl<'r, R: OnActivity> OnMode for AtActivities<'r, R> {
    ghost gives = { λ it scope period acts. each (R.gives it.rule.now scope period) acts };

    #[tactic(auto, unfolding(tdl_rules::specs::Earliest::earliest))]
    fn at(&self, scope: &Scope, period: &Time, acts: &[Act], best: &mut Option<Fault>) {
        for act in acts {
            self.rule.at(scope, period, act, best);
        }
    }
}

/// A rule at each activity of each mode.
pub fn in_activities<R: OnActivity>(rule: &R, sources: &Sources, best: &mut Option<Fault>)
    ensures { best.new ≡ earliest best.old (parts.in_activities (R.gives rule.now) sources.now) }
{
    in_modes(&AtActivities { rule }, sources, best);
}
