ghost use Rattle.std.specs.Prelude.{◌≡◌};
ghost use Rattle.tdl_rules.specs.BoundRules as bounds;
ghost use Rattle.tdl_rules.specs.Earliest.{earliest};

use tdl_base::limits::REPEAT;
use tdl_names::{Scope, Sources, spot_of_number};
use tdl_rules::Fault;
use tdl_tree::StmtTree;
use tdl_walk::{OnStatement, in_statements, note_if};

/// Repetitions of more turns than are allowed.
struct LongRepeats;

impl OnStatement for LongRepeats {
    ghost gives = { λ _ scope statement. bounds.c18_statement scope statement };

    #[tactic(auto, unfolding(tdl_rules::specs::Earliest::earliest))]
    fn at(&self, scope: &Scope, statement: &StmtTree, best: &mut Option<Fault>) {
        if let StmtTree::Repeat { count, .. } = statement {
            let fault = scope.broken(18, spot_of_number(count));
            note_if(best, count.value > REPEAT, fault);
        }
    }
}

/// C18: a `repeat` of more than 1,000 turns.
pub fn long_repeats(sources: &Sources, best: &mut Option<Fault>)
    ensures { best.new ≡ earliest best.old (bounds.c18 sources.now) }
{
    in_statements(&LongRepeats, sources, best);
}
