ghost use Rattle.std.specs.Prelude.{◌≡◌};
ghost use Rattle.tdl_stack.specs.Running.{code_value, cells_after};
ghost use Rattle.tdl_exec.specs.Going.{IsChecked};

use crate::cells::NoCells;
use crate::run::Run;
use crate::view::NoView;
use crate::{Cells, View};
use tdl_stack::Code;

/// What a body does to the cells of a job. It takes no memory.
pub fn run_code(code: &Code, cells: &mut Cells)
    requires { IsChecked code.now.instrs }
    ensures { cells.new ≡ cells_after code.now.instrs cells.old }
{
    let mut run = Run::new(code.instrs.as_slice());
    run.finish(&NoView, cells);
}

/// The number of an expression under what is read beside its cells, which it has none of. It takes
/// no memory.
pub fn run_expr<V: View>(code: &Code, view: &V) -> i64
    requires { IsChecked code.now.instrs }
    ensures { result ≡ code_value (V.outer view.now) code.now.instrs }
{
    let mut run = Run::new(code.instrs.as_slice());
    run.finish(view, &mut NoCells);
    run.into_number()
}
