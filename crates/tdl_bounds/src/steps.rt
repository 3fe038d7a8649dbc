ghost use Rattle.std.specs.Prelude.{◌≡◌, ◌+◌, map, min};
ghost use Rattle.tdl_base.specs.declared.limits.TheConstants.{STEPS};
ghost use Rattle.tdl_rules.specs.BoundRules as bounds;
ghost use Rattle.tdl_rules.specs.Earliest.{earliest};
ghost use Rattle.tdl_rules.specs.Lists.{total};
ghost use Rattle.tdl_rules.specs.Trees.{steps};

use tdl_base::limits::STEPS;
use tdl_names::{Entry, Scope, Sources, spot_of};
use tdl_rules::Fault;
use tdl_tree::{Decl, StmtTree};
use tdl_walk::{OnDeclaration, in_declarations, note_if};

/// What more steps than a body may have are taken for.
const ABOVE: u64 = STEPS + 1;

/// The lesser of a number and one above the most steps.
fn capped(count: u64) -> u64
    ensures { result ≡ min count (STEPS + 1) }
{
    if count < ABOVE { count } else { ABOVE }
}

/// The steps of a statement, or 100,001 where they are more than that.
#[cycle(statements)]
fn steps_of(statement: &StmtTree) -> u64
    ensures { result ≡ min (steps statement.now) (STEPS + 1) }
{
    match statement {
        StmtTree::Assign { .. } => 1,
        StmtTree::If { then, other, .. } => {
            let first = steps_of_all(then.as_slice());
            match other {
                None => capped(1 + first),
                Some(block) => capped(1 + first + steps_of_all(block.as_slice())),
            }
        }
        StmtTree::Repeat { count, body } => {
            let turn = steps_of_all(body.as_slice());
            capped(1 + capped(count.value.saturating_mul(turn)))
        }
    }
}

/// The steps of statements together, or 100,001 where they are more than that.
#[cycle(statements)]
fn steps_of_all(statements: &[StmtTree]) -> u64
    ensures { result ≡ min (total (map steps statements.now)) (STEPS + 1) }
{
    let mut count = 0;
    for statement in statements {
        count = capped(count + steps_of(statement));
    }
    count
}

/// Bodies of more steps than are allowed.
struct LongBodies;

impl OnDeclaration for LongBodies {
    ghost gives = { λ _ scope decl. bounds.c20_declaration scope decl };

    #[tactic(auto, unfolding(tdl_rules::specs::Earliest::earliest))]
    fn at<'b, 'a>(&self, scope: &Scope<'b, 'a>, entry: &Entry<'b, 'a>, best: &mut Option<Fault>) {
        if let Decl::Task { name, body, .. } = entry.decl() {
            let fault = scope.broken(20, spot_of(name));
            note_if(best, steps_of_all(body.as_slice()) > STEPS, fault);
        }
    }
}

/// C20: a body of more than 100,000 steps.
pub fn long_bodies(sources: &Sources, best: &mut Option<Fault>)
    ensures { best.new ≡ earliest best.old (bounds.c20 sources.now) }
{
    in_declarations(&LongBodies, sources, best);
}
