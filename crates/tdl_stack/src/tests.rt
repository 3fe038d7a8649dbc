use crate::{Instr, Shape, check_code};
use std::alloc::{AllocError, Global};
use std::test::Fail;
use tdl_base::{BinOp, ModuleId, NoMemory, Place, PortKey, TaskId, UnOp};

const KEY: PortKey = PortKey {
    module: ModuleId(1),
    task: TaskId(2),
    output: 3,
};

const OTHER_KEY: PortKey = PortKey {
    module: ModuleId(1),
    task: TaskId(2),
    output: 4,
};

const ONE: Instr = Instr::Const(1);

const SET: Instr = Instr::Store(1);

const STAY: Instr = Instr::Jmp(0);

// Two cells, one sensor and one output.
fn is_lawful(alloc: Global, code: &[Instr], expression: bool) -> Result<bool, NoMemory> {
    let keys = [KEY];
    let shape = Shape {
        cells: 2,
        sensors: 1,
        keys: &keys,
        expression,
    };
    check_code(alloc, code, &shape)
}

#[test]
fn stacks_of_bodies(rt: HostRuntime) -> Result<(), Fail> {
    let rows = [
        ([].as_slice(), true, "nothing"),
        ([ONE, SET].as_slice(), true, "a store"),
        ([SET].as_slice(), false, "a store of nothing"),
        ([ONE].as_slice(), false, "a number is left"),
        ([Instr::Un(UnOp::Neg)].as_slice(), false, "minus nothing"),
        (
            [ONE, Instr::Bin(BinOp::Add), SET].as_slice(),
            false,
            "one operand of two",
        ),
        ([ONE, Instr::Store(2)].as_slice(), false, "no third cell"),
        (
            [Instr::Load(Place::Cell(2)), SET].as_slice(),
            false,
            "no third cell to load",
        ),
        (
            [Instr::Load(Place::Sensor(0)), SET].as_slice(),
            false,
            "a body reads a sensor",
        ),
        (
            [Instr::Load(Place::Port(KEY)), SET].as_slice(),
            false,
            "a body reads an output",
        ),
    ];
    for (code, want, what) in rows {
        assert_eq!(rt; is_lawful(rt.alloc(), code, false)?, want, "{what}");
    }
    Ok(())
}

#[test]
fn skips_of_bodies(rt: HostRuntime) -> Result<(), Fail> {
    let jz = [ONE, Instr::Jz(2), ONE, SET];
    let rows = [
        ([STAY].as_slice(), true, "a skip to the very end"),
        ([Instr::Jmp(1)].as_slice(), false, "a skip past the end"),
        ([ONE, Instr::Jz(0)].as_slice(), true, "a test"),
        ([Instr::Jz(0)].as_slice(), false, "a test of nothing"),
        ([ONE, STAY, SET].as_slice(), false, "a number at a skip"),
        (jz.as_slice(), true, "a store that is skipped"),
        (
            [ONE, Instr::Jz(1), ONE, SET].as_slice(),
            false,
            "a number where a skip goes to",
        ),
        (
            [Instr::Jmp(1), Instr::Rep(2, 2), ONE, SET].as_slice(),
            false,
            "a skip into a body",
        ),
        (
            [STAY, Instr::Rep(2, 2), ONE, SET].as_slice(),
            true,
            "a skip to a `rep`",
        ),
        (
            [Instr::Jmp(3), Instr::Rep(2, 2), ONE, SET].as_slice(),
            true,
            "a skip over a body",
        ),
        (
            [Instr::Rep(2, 1), STAY, STAY].as_slice(),
            true,
            "a skip to the end of its body",
        ),
        (
            [Instr::Rep(2, 1), Instr::Jmp(1), STAY].as_slice(),
            false,
            "a skip out of its body",
        ),
    ];
    for (code, want, what) in rows {
        assert_eq!(rt; is_lawful(rt.alloc(), code, false)?, want, "{what}");
    }
    Ok(())
}

#[test]
fn repetitions_of_bodies(rt: HostRuntime) -> Result<(), Fail> {
    let rows = [
        ([Instr::Rep(3, 2), ONE, SET].as_slice(), true, "a store"),
        (
            [Instr::Rep(3, 1), ONE, SET].as_slice(),
            false,
            "a number at the end of a body",
        ),
        (
            [Instr::Rep(3, 3), ONE, SET].as_slice(),
            false,
            "a body past the end",
        ),
        (
            [Instr::Rep(2, 2), Instr::Rep(2, 2), ONE, SET].as_slice(),
            false,
            "a body out of its body",
        ),
        (
            [ONE, Instr::Rep(3, 0), SET].as_slice(),
            false,
            "a number at a `rep`",
        ),
        ([Instr::Rep(3, 0)].as_slice(), true, "an empty body"),
        ([Instr::Rep(0, 2), ONE, SET].as_slice(), true, "no turn"),
        ([Instr::Rep(1000, 0)].as_slice(), true, "1000 turns"),
        ([Instr::Rep(1001, 0)].as_slice(), false, "1001 turns"),
    ];
    for (code, want, what) in rows {
        assert_eq!(rt; is_lawful(rt.alloc(), code, false)?, want, "{what}");
    }
    Ok(())
}

#[test]
fn expressions(rt: HostRuntime) -> Result<(), Fail> {
    let rows = [
        ([ONE].as_slice(), true, "a number"),
        ([].as_slice(), false, "no number"),
        ([ONE, ONE].as_slice(), false, "two numbers"),
        ([ONE, ONE, Instr::Bin(BinOp::Add)].as_slice(), true, "a sum"),
        ([Instr::Load(Place::Sensor(0))].as_slice(), true, "a sensor"),
        (
            [Instr::Load(Place::Sensor(1))].as_slice(),
            false,
            "no second sensor",
        ),
        (
            [Instr::Load(Place::Port(KEY))].as_slice(),
            true,
            "an output",
        ),
        (
            [Instr::Load(Place::Port(OTHER_KEY))].as_slice(),
            false,
            "no such output",
        ),
        ([Instr::Load(Place::Cell(0))].as_slice(), false, "a cell"),
        ([ONE, SET, ONE].as_slice(), false, "a store"),
        ([STAY, ONE].as_slice(), false, "a skip"),
        ([Instr::Rep(1, 0), ONE].as_slice(), false, "a repetition"),
    ];
    for (code, want, what) in rows {
        assert_eq!(rt; is_lawful(rt.alloc(), code, true)?, want, "{what}");
    }
    Ok(())
}

fn push_all(code: &mut Vec<Instr>, count: usize, i: Instr) -> Result<(), AllocError> {
    for _ in 0..count {
        code.push(i)?;
    }
    Ok(())
}

// So many numbers, and then their stores.
fn numbers(alloc: Global, count: usize) -> Result<Vec<Instr>, AllocError> {
    let mut code = Vec::new(alloc);
    push_all(&mut code, count, ONE)?;
    push_all(&mut code, count, SET)?;
    Ok(code)
}

// So many `rep`s in one another, the innermost with an empty body.
fn nested(alloc: Global, count: u32) -> Result<Vec<Instr>, AllocError> {
    let mut code = Vec::new(alloc);
    for inner in (0..count).rev() {
        code.push(Instr::Rep(1, inner))?;
    }
    Ok(code)
}

// 1 + 1000 * (1 + 1000 * 59), then 1 + 1000 * 998, then the rest: 998 make 60,000,000.
fn costly(alloc: Global, rest: usize) -> Result<Vec<Instr>, AllocError> {
    let mut code = Vec::new(alloc);
    code.push(Instr::Rep(1000, 60))?;
    code.push(Instr::Rep(1000, 59))?;
    push_all(&mut code, 59, STAY)?;
    code.push(Instr::Rep(1000, 998))?;
    push_all(&mut code, 998, STAY)?;
    push_all(&mut code, rest, STAY)?;
    Ok(code)
}

#[test]
fn limits(rt: HostRuntime) -> Result<(), Fail> {
    let rows = [
        (numbers(rt.alloc(), 32)?, true, "32 numbers"),
        (numbers(rt.alloc(), 33)?, false, "33 numbers"),
        (nested(rt.alloc(), 16)?, true, "16 bodies"),
        (nested(rt.alloc(), 17)?, false, "17 bodies"),
        (costly(rt.alloc(), 998)?, true, "a cost of 60,000,000"),
        (costly(rt.alloc(), 999)?, false, "a cost of 60,000,001"),
    ];
    for (code, want, what) in &rows {
        assert_eq!(rt;
            is_lawful(rt.alloc(), code.as_slice(), false)?,
            *want,
            "{what}"
        );
    }
    Ok(())
}

// So many skips, each over so many instructions; then others, and skips to the next instruction.
fn crossing(
    alloc: Global,
    count: usize,
    over: u32,
    rest: &[Instr],
) -> Result<Vec<Instr>, AllocError> {
    let mut code = Vec::new(alloc);
    push_all(&mut code, count, Instr::Jmp(over))?;
    for i in rest {
        code.push(*i)?;
    }
    push_all(&mut code, over as usize, STAY)?;
    Ok(code)
}

#[test]
fn skips_that_cross(rt: HostRuntime) -> Result<(), Fail> {
    let rows = [
        (crossing(rt.alloc(), 100, 100, &[])?, true, "skips to skips"),
        (
            crossing(rt.alloc(), 100, 50, &[Instr::Rep(2, 0)])?,
            true,
            "skips over an empty body",
        ),
        (
            crossing(rt.alloc(), 100, 50, &[Instr::Rep(2, 1)])?,
            false,
            "a skip into a body",
        ),
        (
            crossing(rt.alloc(), 100, 50, &[ONE, SET])?,
            false,
            "a skip to a store",
        ),
    ];
    for (code, want, what) in &rows {
        assert_eq!(rt;
            is_lawful(rt.alloc(), code.as_slice(), false)?,
            *want,
            "{what}"
        );
    }
    Ok(())
}
