use crate::{Cells, Outer, run_code, run_expr};
use std::alloc::Global;
use std::test::Fail;
use tdl_base::{BinOp, Kind, Listed, ModuleId, NoMemory, Place, PortKey, Sensed, TaskId, UnOp};
use tdl_stack::{Code, Instr, Shape, check_code};

const LOAD_A: Instr = Instr::Load(Place::Cell(0));

const LOAD_O: Instr = Instr::Load(Place::Cell(1));

const SUM: Instr = Instr::Bin(BinOp::Add);

const STORE_O: Instr = Instr::Store(1);

const IF_ABOVE: [Instr; 9] = [
    LOAD_A,
    Instr::Const(0),
    Instr::Bin(BinOp::Greater),
    Instr::Jz(3),
    Instr::Const(1),
    STORE_O,
    Instr::Jmp(2),
    Instr::Const(2),
    STORE_O,
];

const ADD: [Instr; 4] = [LOAD_O, LOAD_A, SUM, STORE_O];

const ADD_THREE_TIMES: [Instr; 5] = [Instr::Rep(3, 4), LOAD_O, LOAD_A, SUM, STORE_O];

const ADD_SIX_TIMES: [Instr; 6] = [
    Instr::Rep(3, 5),
    Instr::Rep(2, 4),
    LOAD_O,
    LOAD_A,
    SUM,
    STORE_O,
];

const REP_NEVER: [Instr; 3] = [Instr::Rep(0, 2), Instr::Const(5), Instr::Store(0)];

fn code_of(alloc: Global, instrs: &[Instr]) -> Result<Code, NoMemory> {
    let mut list = Listed::new(alloc);
    for i in instrs {
        list.push(*i)?;
    }
    Ok(Code { instrs: list })
}

// The numbers of two `int` cells after a lawful body.
fn cells_after(alloc: Global, instrs: &[Instr], a: i64, o: i64) -> Result<Listed<i64>, Fail> {
    let code = code_of(alloc, instrs)?;
    let shape = Shape {
        cells: 2,
        sensors: 0,
        keys: &[],
        expression: false,
    };
    let mut kinds = Listed::new(alloc);
    kinds.push(Kind::Int)?;
    kinds.push(Kind::Int)?;
    let mut values = Listed::new(alloc);
    values.push(a)?;
    values.push(o)?;
    let mut cells = Cells::new(kinds, values);
    if check_code(alloc, code.instrs.as_slice(), &shape)? {
        run_code(&code, &mut cells);
    }
    Ok(cells.into_values())
}

#[test]
fn bodies(rt: HostRuntime) -> Result<(), Fail> {
    let rows = [
        (IF_ABOVE.as_slice(), 5, 0, [5, 1]),
        (IF_ABOVE.as_slice(), -5, 0, [-5, 2]),
        (ADD.as_slice(), 4, 10, [4, 14]),
        (ADD_THREE_TIMES.as_slice(), 4, 10, [4, 22]),
        (ADD_SIX_TIMES.as_slice(), 4, 10, [4, 34]),
        (ADD.as_slice(), 1, 2_147_483_647, [1, -2_147_483_648]),
        ([].as_slice(), 3, 4, [3, 4]),
        (REP_NEVER.as_slice(), 3, 4, [3, 4]),
    ];
    for (instrs, a, o, want) in rows {
        let cells = cells_after(rt.alloc(), instrs, a, o)?;
        assert_eq!(rt;
            cells.as_slice(),
            want.as_slice(),
            "{instrs:?} at {a} and {o}"
        );
    }
    Ok(())
}

// The number of a lawful expression.
fn number(alloc: Global, code: &Code, outer: &Outer) -> Result<i64, NoMemory> {
    let shape = Shape {
        cells: 0,
        sensors: 1,
        keys: outer.keys,
        expression: true,
    };
    if check_code(alloc, code.instrs.as_slice(), &shape)? {
        return Ok(run_expr(code, outer));
    }
    Ok(-1)
}

#[test]
fn expressions(rt: HostRuntime) -> Result<(), Fail> {
    let key = PortKey {
        module: ModuleId(1),
        task: TaskId(2),
        output: 3,
    };
    let mut sensed = Sensed::new(rt.alloc(), &[0, 1])?;
    sensed.set(ModuleId(1), 0, 7);
    let keys = [key];
    let values = [9];
    let outer = Outer {
        module: ModuleId(1),
        sensed: &sensed,
        keys: &keys,
        values: &values,
    };
    let port = [Instr::Load(Place::Port(key))];
    let rows = [
        (
            [Instr::Load(Place::Sensor(0)), Instr::Un(UnOp::Neg)].as_slice(),
            -7,
        ),
        (port.as_slice(), 9),
        (
            [Instr::Const(5), Instr::Const(3), Instr::Bin(BinOp::Sub)].as_slice(),
            2,
        ),
    ];
    for (instrs, want) in rows {
        let code = code_of(rt.alloc(), instrs)?;
        assert_eq!(rt; number(rt.alloc(), &code, &outer)?, want, "{instrs:?}");
    }
    Ok(())
}
