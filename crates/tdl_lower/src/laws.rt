//! Laws of lowering. Each function does nothing: its contract is the law.
ghost use Rattle.std.specs.Prelude.{◌≡◌, All, true, false};
ghost use Rattle.tdl_body.specs.declared.tree.Expr.{Expr};
ghost use Rattle.tdl_body.specs.declared.tree.Body.{Body};
ghost use Rattle.tdl_body.specs.Values.{value_of};
ghost use Rattle.tdl_body.specs.Places.{places_of};
ghost use Rattle.tdl_body.specs.CellUse.{UsesCells};
ghost use Rattle.tdl_body.specs.Bounds.{IsBounded, IsBoundedExpr};
ghost use Rattle.tdl_body.specs.Effects.{effect_of};
ghost use Rattle.tdl_base.specs.Cells.{Cells};
ghost use Rattle.tdl_stack.specs.Running.{Outer, no_cells, code_value, cells_after};
ghost use Rattle.tdl_stack.specs.Lawful.{CodeShape, IsLawful};
ghost use Rattle.tdl_lower.specs.Readable.{IsReadable};
ghost use Rattle.tdl_lower.specs.Templates.{expr_code, body_code};
ghost use Rattle.tdl_lower.specs.Looks.{looked};

/// The code of an expression has the expression's number, and the code of a body leaves the cells
/// that the body leaves, for all expressions, bodies, outer numbers and cells.
pub fn lowering()
    ensures number { (e : Expr) (outer : Outer) →
        code_value outer (expr_code e) ≡ value_of e (looked outer no_cells) }
    ensures cells { (b : Body) (cells : Cells) →
        cells_after (body_code b) cells ≡ effect_of b cells }
{}

/// Nodes run the code of a body as a program has it, over cells that are there, as a body, and the
/// code of such an expression, which reads sensors and outputs that are there, as an expression.
pub fn lowered_is_lawful()
    ensures body { (b : Body) (shape : CodeShape) → IsBounded b → UsesCells shape.cells b →
        shape.expression ≡ false → IsLawful (body_code b) shape }
    ensures expression { (e : Expr) (shape : CodeShape) → IsBoundedExpr e →
        All (IsReadable shape) (places_of e) → shape.expression ≡ true →
        IsLawful (expr_code e) shape }
{}
