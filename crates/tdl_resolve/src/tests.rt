use crate::bodies::body_in;
use crate::samples::{both, id, literal, number};
use crate::*;
use sqlite_items::{Boxed, Items};
use std::alloc::Global;
use std::test::Fail;
use tdl_base::{BinOp, Kind, Listed, ModuleId, NoMemory, Place, PortKey, TaskId, UnOp};
use tdl_body::{Body, Expr, Stmt};
use tdl_names::sources_of;
use tdl_tree::{ExprNode, ExprTree, Id, Lit, LitValue, StmtTree};

// ---- trees

fn expression(node: ExprNode) -> ExprTree {
    ExprTree {
        line: 1,
        col: 1,
        node,
    }
}

// A name of one to three parts.
fn name(alloc: Global, texts: &[&str]) -> Result<ExprTree, NoMemory> {
    let mut parts = Listed::new(alloc);
    for text in texts {
        parts.push(id(alloc, text)?)?;
    }
    Ok(expression(ExprNode::Name { parts }))
}

// -level < 3
fn comparison(alloc: Global) -> Result<ExprTree, NoMemory> {
    let level = Boxed::new(alloc, name(alloc, &["level"])?)?;
    let left = Boxed::new(alloc, expression(ExprNode::Un(UnOp::Neg, level)))?;
    let right = Boxed::new(alloc, expression(ExprNode::Number(number(3))))?;
    Ok(expression(ExprNode::Bin(BinOp::Less, left, right)))
}

// target := value;
fn assign(alloc: Global, target: &str, value: &str) -> Result<StmtTree, NoMemory> {
    Ok(StmtTree::Assign {
        target: id(alloc, target)?,
        value: name(alloc, &[value])?,
    })
}

// A block of one assignment.
fn block(alloc: Global, target: &str, value: &str) -> Result<Items<StmtTree>, NoMemory> {
    let mut block = Items::new(alloc);
    block.push(assign(alloc, target, value)?)?;
    Ok(block)
}

// if b { p := l; } else { o := a; }
fn choice(alloc: Global) -> Result<StmtTree, NoMemory> {
    Ok(StmtTree::If {
        cond: name(alloc, &["b"])?,
        then: block(alloc, "p", "l")?,
        other: Some(block(alloc, "o", "a")?),
    })
}

// repeat 3 { l := top; }, with far's constant
fn turns(alloc: Global) -> Result<StmtTree, NoMemory> {
    let mut body = Items::new(alloc);
    body.push(StmtTree::Assign {
        target: id(alloc, "l")?,
        value: name(alloc, &["far", "top"])?,
    })?;
    Ok(StmtTree::Repeat {
        count: number(3),
        body,
    })
}

// ---- what is made

// The expression that a tree says in near.
fn says(alloc: Global, tree: &ExprTree) -> Result<Expr, NoMemory> {
    let trees = both(alloc)?;
    let sources = sources_of(alloc, trees.as_slice())?;
    let numbers = numbers_of(alloc, &sources)?;
    match sources.scope(1) {
        None => Err(NoMemory),
        Some(scope) => expression_of(alloc, &numbers, &scope, tree),
    }
}

// The guard that a tree says in near.
fn guards(alloc: Global, guard: &Option<ExprTree>) -> Result<Option<Expr>, NoMemory> {
    let trees = both(alloc)?;
    let sources = sources_of(alloc, trees.as_slice())?;
    let numbers = numbers_of(alloc, &sources)?;
    match sources.scope(1) {
        None => Err(NoMemory),
        Some(scope) => guard_of(alloc, &numbers, &scope, guard),
    }
}

// The one statement that a tree says in the body of near's task.
fn does(alloc: Global, statement: StmtTree) -> Result<Body, NoMemory> {
    let trees = both(alloc)?;
    let sources = sources_of(alloc, trees.as_slice())?;
    let numbers = numbers_of(alloc, &sources)?;
    let Some(scope) = sources.scope(1) else {
        return Err(NoMemory);
    };
    match scope.module().entry(1) {
        None => Err(NoMemory),
        Some(entry) => match body_in(alloc, &numbers, &scope, entry.ports(), &[statement])? {
            None => Err(NoMemory),
            Some(body) => Ok(body),
        },
    }
}

// Whether an expression reads just this place.
fn loads(made: &Expr, place: Place) -> bool {
    match made {
        Expr::Load(read) => *read == place,
        _ => false,
    }
}

// Whether an expression is -sensor < 3.
fn compares(made: &Expr, sensor: u16) -> bool {
    match made {
        Expr::Bin(BinOp::Less, left, right) => match (left.get(), right.get()) {
            (Expr::Un(UnOp::Neg, operand), Expr::Const(3)) => {
                loads(operand.get(), Place::Sensor(sensor))
            }
            _ => false,
        },
        _ => false,
    }
}

// Whether statements are just one that assigns what is read at a cell.
fn assigns(statements: &[Stmt], to: u16, from: u16) -> bool {
    match statements {
        [Stmt::Assign { cell, value }] => *cell == to && loads(value, Place::Cell(from)),
        _ => false,
    }
}

// Whether statements are the choice.
fn chooses(statements: &[Stmt]) -> bool {
    match statements {
        [
            Stmt::If {
                cond,
                then,
                other: Some(other),
            },
        ] => {
            loads(cond, Place::Cell(1))
                && assigns(then.stmts.as_slice(), 3, 4)
                && assigns(other.stmts.as_slice(), 2, 0)
        }
        _ => false,
    }
}

// Whether statements are the turns.
fn repeats(statements: &[Stmt]) -> bool {
    match statements {
        [Stmt::Repeat { count, body }] => {
            *count == 3
                && matches!(
                    body.stmts.as_slice(),
                    [Stmt::Assign {
                        cell: 4,
                        value: Expr::Const(7)
                    }]
                )
        }
        _ => false,
    }
}

fn output(file: u16, number: u16) -> Place {
    Place::Port(PortKey {
        module: ModuleId(file),
        task: TaskId(0),
        output: number,
    })
}

// Tables could always ask for memory in vain, and nothing would ever be made.
#[test]
fn names_of_two_sources(rt: HostRuntime) -> Result<(), Fail> {
    let alloc = rt.alloc();
    let sensor = says(alloc, &name(alloc, &["on"])?)?;
    assert!(rt; loads(&sensor, Place::Sensor(1)), "{sensor:?}");
    let own = says(alloc, &name(alloc, &["mix", "p"])?)?;
    assert!(rt; loads(&own, output(1, 1)), "{own:?}");
    let other = says(alloc, &name(alloc, &["far", "feed", "o"])?)?;
    assert!(rt; loads(&other, output(0, 0)), "{other:?}");
    Ok(())
}

#[test]
fn guards_of_a_source(rt: HostRuntime) -> Result<(), Fail> {
    let alloc = rt.alloc();
    let Some(made) = guards(alloc, &Some(comparison(alloc)?))? else {
        panic!(rt; "no guard");
    };
    assert!(rt; compares(&made, 0), "{made:?}");
    assert!(rt; guards(alloc, &None)?.is_none());
    Ok(())
}

#[test]
fn bodies_over_cells(rt: HostRuntime) -> Result<(), Fail> {
    let alloc = rt.alloc();
    let local = does(alloc, assign(alloc, "l", "a")?)?;
    assert!(rt; assigns(local.stmts.as_slice(), 4, 0), "{local:?}");
    let chosen = does(alloc, choice(alloc)?)?;
    assert!(rt; chooses(chosen.stmts.as_slice()), "{chosen:?}");
    let repeated = does(alloc, turns(alloc)?)?;
    assert!(rt; repeats(repeated.stmts.as_slice()), "{repeated:?}");
    Ok(())
}

#[test]
fn numbers_by_sort(rt: HostRuntime) -> Result<(), Fail> {
    let alloc = rt.alloc();
    let trees = both(alloc)?;
    let sources = sources_of(alloc, trees.as_slice())?;
    let numbers = numbers_of(alloc, &sources)?;
    assert_eq!(rt; numbers.sources().len(), 2);
    assert_eq!(rt; numbers.sensor(1, 2), 1);
    assert_eq!(rt; numbers.actuator(1, 2), 0);
    assert_eq!(rt; numbers.task(0, 1), 0);
    assert_eq!(rt; numbers.mode(1, 4), 1);
    Ok(())
}

#[test]
fn literals_are_narrowed(rt: HostRuntime) {
    assert_eq!(rt; literal_of(Kind::Byte, &literal(300)), 44);
    assert_eq!(rt; initial_of(Kind::Int, &Some(literal(5))), 5);
    assert_eq!(rt; initial_of(Kind::Int, &None), 0);
    let minus = Lit {
        line: 1,
        col: 1,
        value: LitValue::Number {
            minus: true,
            number: number(2),
        },
    };
    assert_eq!(rt; literal_of(Kind::Long, &minus), -2);
    assert_eq!(rt; literal_of(Kind::Boolean, &minus), 1);
}
