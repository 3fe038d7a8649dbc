ghost use Rattle.std.specs.Prelude.{◌≡◌};
ghost use Rattle.tdl_rules.specs.Earliest.{earliest};
ghost use Rattle.tdl_rules.specs.SortRules as rules;

use tdl_names::{Scope, sort_in, spot_of_expression};
use tdl_rules::Fault;
use tdl_tree::ExprTree;
use tdl_walk::note_if;

/// Whether a sort is known, and not the needed one.
pub(crate) fn differs(sort: Option<bool>, needed: bool) -> bool
    ensures { result ≡ rules.differs sort needed }
{
    match sort {
        None => false,
        Some(here) => here != needed,
    }
}

/// An expression where a boolean is needed, or else a number.
pub(crate) fn needs(scope: &Scope, expression: &ExprTree, truth: bool, best: &mut Option<Fault>)
    ensures { best.new ≡ earliest best.old (rules.needs scope.now expression.now truth) }
{
    let sort = sort_in(scope, expression);
    let fault = scope.broken(5, spot_of_expression(expression));
    note_if(best, differs(sort, truth), fault);
}
