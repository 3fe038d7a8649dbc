ghost use Rattle.std.specs.Prelude.{◌≡◌};
ghost use Rattle.tdl_body.specs.Values.{value_of};
ghost use Rattle.tdl_eval.specs.Envs.{look_of};

use crate::view::view_of;
use crate::{Env, Reader};
use tdl_base::{bin, un};
use tdl_body::Expr;

/// The number of an expression: 64 bits, and both operands of each operator are computed. It takes
/// no memory.
pub fn eval(e: &Expr, env: &Env) -> i64
    ensures { result ≡ value_of e.now (look_of env.now) }
{
    value(e, &view_of(env))
}

/// The number of an expression over what a reader shows. It takes no memory.
pub fn value<R: Reader>(e: &Expr, reader: &R) -> i64
    ensures { result ≡ value_of e.now (R.look reader.now) }
{
    match e {
        Expr::Const(v) => *v,
        Expr::Load(place) => reader.read(place),
        Expr::Un(op, a) => un(*op, value(a.get(), reader)),
        Expr::Bin(op, a, b) => bin(*op, value(a.get(), reader), value(b.get(), reader)),
    }
}
