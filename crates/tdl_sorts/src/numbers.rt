ghost use Rattle.std.specs.Prelude.{◌≡◌};
ghost use Rattle.tdl_rules.specs.Earliest.{earliest};
ghost use Rattle.tdl_rules.specs.SortRules as rules;

use crate::literals::{OnLiteral, in_literals};
use tdl_base::Kind;
use tdl_names::{Scope, Sources, spot_of_number};
use tdl_rules::Fault;
use tdl_tree::{ExprNode, ExprTree, Lit, LitValue, Num};
use tdl_walk::{OnExpression, in_expressions, note_if};

/// The least number that 64 signed bits do not hold.
const PAST_LONG: u64 = 1 << 63;

/// Whether 64 signed bits hold a number.
fn fits_long(value: u64) -> bool
    ensures { result ≡ rules.fits_long value }
{
    value < PAST_LONG
}

/// A number that 64 signed bits do not hold.
fn note_great(scope: &Scope, number: &Num, best: &mut Option<Fault>)
    ensures { best.new ≡ earliest best.old (rules.too_great scope.now.file number.now) }
{
    note_if(
        best,
        !fits_long(number.value),
        scope.broken(8, spot_of_number(number)),
    );
}

/// The numbers in expressions.
struct Nodes;

impl OnExpression for Nodes {
    ghost use Rattle.tdl_rules.specs.SortRules.{c8_node};
    ghost use Rattle.tdl_tree.specs.declared.expressions.ExprNode.TheViews.{out-ExprNode};

    ghost gives = { λ _ scope expression. c8_node scope (out-ExprNode expression.node) };

    #[tactic(auto, unfolding(tdl_rules::specs::Earliest::earliest))]
    fn at(&self, scope: &Scope, expression: &ExprTree, best: &mut Option<Fault>) {
        match &expression.node {
            ExprNode::Number(number) => note_great(scope, number, best),
            ExprNode::Truth(_) => {}
            ExprNode::Name { .. } => {}
            ExprNode::Un(_, _) => {}
            ExprNode::Bin(_, _, _) => {}
        }
    }
}

/// The numbers of literals.
struct Literals;

impl OnLiteral for Literals {
    ghost use Rattle.tdl_rules.specs.SortRules.{c8_literal};

    ghost gives = { λ _ scope literal. c8_literal scope.file literal.1.value };

    #[tactic(auto, unfolding(tdl_rules::specs::Earliest::earliest))]
    fn at(&self, scope: &Scope, _kind: Kind, literal: Lit, best: &mut Option<Fault>) {
        match literal.value {
            LitValue::Truth(_) => {}
            LitValue::Number { number, .. } => note_great(scope, &number, best),
        }
    }
}

/// Numbers in expressions and literals above 9223372036854775807 (C8).
pub fn great_numbers(sources: &Sources, best: &mut Option<Fault>)
    ensures { best.new ≡ earliest best.old (rules.c8 sources.now) }
{
    in_expressions(&Nodes, sources, best);
    in_literals(&Literals, sources, best);
}
