use crate::{Env, eval, exec};
use sqlite_items::{Boxed, Items};
use std::alloc::{AllocError, Global};
use std::test::Fail;
use tdl_base::{BinOp, Kind, Listed, ModuleId, Place, PortKey, TaskId};
use tdl_body::{Body, Expr, Stmt};

fn output(output: u16) -> PortKey {
    PortKey {
        module: ModuleId(1),
        task: TaskId(2),
        output,
    }
}

// A cell of each of two kinds, one sensor and two outputs.
fn env(alloc: Global, cells: [i64; 2]) -> Result<Env, AllocError> {
    Ok(Env {
        kinds: Listed::from_vec(vec![in alloc; Kind::Byte, Kind::Int]?),
        cells: Listed::from_vec(vec![in alloc; cells[0], cells[1]]?),
        sensed: Listed::from_vec(vec![in alloc; 30i64]?),
        keys: Listed::from_vec(vec![in alloc; output(0), output(3)]?),
        ports: Listed::from_vec(vec![in alloc; 400i64, 5000]?),
    })
}

fn minus(alloc: Global, a: Place, b: Place) -> Result<Expr, AllocError> {
    let left = Boxed::new(alloc, Expr::Load(a))?;
    let right = Boxed::new(alloc, Expr::Load(b))?;
    Ok(Expr::Bin(BinOp::Sub, left, right))
}

fn block(alloc: Global, stmt: Stmt) -> Result<Body, AllocError> {
    let mut stmts = Items::new(alloc);
    stmts.push(stmt)?;
    Ok(Body { stmts })
}

#[test]
fn reads_each_place(rt: HostRuntime) -> Result<(), Fail> {
    let env = env(rt.alloc(), [1, 2])?;
    let rows = [
        (Place::Cell(1), Place::Cell(0), 1),
        (Place::Sensor(0), Place::Cell(1), 28),
        (Place::Port(output(3)), Place::Sensor(0), 4970),
        (Place::Port(output(0)), Place::Port(output(1)), 400),
        (Place::Cell(2), Place::Sensor(1), 0),
    ];
    for (a, b, want) in rows {
        let e = minus(rt.alloc(), a, b)?;
        assert_eq!(rt; eval(&e, &env), want, "{a:?} {b:?}");
    }
    Ok(())
}

// repeat 3 { if o - a { o := o - a; } else { a := 300; } }
#[test]
fn does_each_statement(rt: HostRuntime) -> Result<(), Fail> {
    let (a, o) = (Place::Cell(0), Place::Cell(1));
    let body = block(
        rt.alloc(),
        Stmt::Repeat {
            count: 3,
            body: block(
                rt.alloc(),
                Stmt::If {
                    cond: minus(rt.alloc(), o, a)?,
                    then: block(
                        rt.alloc(),
                        Stmt::Assign {
                            cell: 1,
                            value: minus(rt.alloc(), o, a)?,
                        },
                    )?,
                    other: Some(block(
                        rt.alloc(),
                        Stmt::Assign {
                            cell: 0,
                            value: Expr::Const(300),
                        },
                    )?),
                },
            )?,
        },
    )?;
    let rows = [([5, 15], [44, 5]), ([5, 20], [5, 5]), ([7, 7], [44, -81])];
    for (before, want) in rows {
        let mut env = env(rt.alloc(), before)?;
        exec(&body, &mut env);
        assert_eq!(rt; env.cells.as_slice(), want.as_slice());
    }
    Ok(())
}
