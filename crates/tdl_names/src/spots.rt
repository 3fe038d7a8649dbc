ghost use Rattle.std.specs.Prelude.{◌≡◌};
ghost use Rattle.tdl_rules.specs.Naming as naming;
ghost use Rattle.tdl_rules.specs.Parts as parts;

use tdl_rules::Spot;
use tdl_tree::{Act, ExprTree, Id, Lit, Num};

/// Where a name stands.
pub fn spot_of(id: &Id) -> Spot
    ensures { result ≡ naming.spot_of id.now }
{
    Spot {
        line: id.line,
        col: id.col,
    }
}

/// Where a number stands.
pub fn spot_of_number(number: &Num) -> Spot
    ensures { result ≡ parts.spot_of_number number.now }
{
    Spot {
        line: number.line,
        col: number.col,
    }
}

/// Where an expression begins.
pub fn spot_of_expression(expression: &ExprTree) -> Spot
    ensures { result ≡ parts.spot_of_expression expression.now }
{
    Spot {
        line: expression.line,
        col: expression.col,
    }
}

/// Where a literal begins.
pub fn spot_of_literal(literal: &Lit) -> Spot
    ensures { result ≡ parts.spot_of_literal literal.now }
{
    Spot {
        line: literal.line,
        col: literal.col,
    }
}

/// Where an activity begins.
pub fn spot_of_activity(act: &Act) -> Spot
    ensures { result ≡ parts.spot_of_activity act.now }
{
    Spot {
        line: act.line,
        col: act.col,
    }
}
