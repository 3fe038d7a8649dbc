use crate::{ModuleNames, Named, Names, Row, Rows, TaskNames, print_row};
use std::alloc::Global;
use std::test::Fail;
use tdl_base::{Kind, Listed, ModeId, ModuleId, NoMemory, NodeId, TaskId, Text, Us};

fn named(alloc: Global, name: &str) -> Result<Named, NoMemory> {
    Ok(Named {
        kind: Kind::Long,
        name: Text::from_str(alloc, name)?,
    })
}

fn one<T: Drop>(alloc: Global, item: T) -> Result<Listed<T>, NoMemory> {
    let mut items = Listed::new(alloc);
    items.push(item)?;
    Ok(items)
}

fn two<T: Drop>(alloc: Global, first: T, second: T) -> Result<Listed<T>, NoMemory> {
    let mut items = one(alloc, first)?;
    items.push(second)?;
    Ok(items)
}

fn text(alloc: Global, name: &str) -> Result<Text, NoMemory> {
    Text::from_str(alloc, name)
}

// A task `inc` with an output `o`, on node 0.
fn counting(alloc: Global) -> Result<ModuleNames, NoMemory> {
    let inc = TaskNames {
        name: text(alloc, "inc")?,
        worst: Us(200),
        outputs: one(alloc, named(alloc, "o")?)?,
    };
    Ok(ModuleNames {
        number: ModuleId(0),
        node: NodeId(0),
        name: text(alloc, "P")?,
        sensors: one(alloc, named(alloc, "s")?)?,
        actuators: Listed::new(alloc),
        tasks: one(alloc, inc)?,
        modes: one(alloc, text(alloc, "main")?)?,
    })
}

// Two actuators and two modes, on node 1. Its number is 3.
fn acting(alloc: Global) -> Result<ModuleNames, NoMemory> {
    Ok(ModuleNames {
        number: ModuleId(3),
        node: NodeId(1),
        name: text(alloc, "C")?,
        sensors: Listed::new(alloc),
        actuators: two(alloc, named(alloc, "v")?, named(alloc, "w")?)?,
        tasks: Listed::new(alloc),
        modes: two(alloc, text(alloc, "slow")?, text(alloc, "fast")?)?,
    })
}

fn names(alloc: Global) -> Result<Names, NoMemory> {
    Ok(Names {
        nodes: two(alloc, text(alloc, "n1")?, text(alloc, "n2")?)?,
        modules: two(alloc, counting(alloc)?, acting(alloc)?)?,
    })
}

fn port(at: u64, node: u16, owner: u16, value: i64) -> Row {
    Row::Port {
        at: Us(at),
        node: NodeId(node),
        module: ModuleId(owner),
        task: TaskId(0),
        output: 0,
        value,
    }
}

fn act(at: u64, owner: u16, actuator: u16, value: i64) -> Row {
    Row::Act {
        at: Us(at),
        node: NodeId(1),
        module: ModuleId(owner),
        actuator,
        value,
    }
}

fn mode(at: u64, owner: u16, number: u16) -> Row {
    Row::Mode {
        at: Us(at),
        node: NodeId(0),
        module: ModuleId(owner),
        mode: ModeId(number),
    }
}

fn line_of_one(alloc: Global, names: &Names, row: Row) -> Result<Vec<u8>, NoMemory> {
    let mut rows = Rows::new(alloc);
    rows.push(row)?;
    let mut line = Vec::new(alloc);
    print_row(&rows, 0, names, &mut line)?;
    Ok(line)
}

#[test]
fn lines(rt: HostRuntime) -> Result<(), Fail> {
    let names = names(rt.alloc())?;
    let table = [
        (mode(0, 0, 0), "0 n1 mode P main\n"),
        (mode(3_600_000_000, 3, 1), "3600000000 n1 mode C fast\n"),
        (port(5000, 0, 0, 11), "5000 n1 port P.inc.o 11\n"),
        (port(5000, 1, 0, 0), "5000 n2 port P.inc.o 0\n"),
        (
            port(0, 0, 0, i64::MIN),
            "0 n1 port P.inc.o -9223372036854775808\n",
        ),
        (act(7, 3, 0, -1), "7 n2 act C.v -1\n"),
        (
            act(3_600_000_000, 3, 1, i64::MAX),
            "3600000000 n2 act C.w 9223372036854775807\n",
        ),
        (port(1, 2, 3, 5), "1  port C.. 5\n"),
        (act(1, 0, 0, 5), "1 n2 act P. 5\n"),
        (act(1, 2, 0, 5), "1 n2 act . 5\n"),
        (mode(1, 0, 1), "1 n1 mode P \n"),
    ];
    for (row, want) in table {
        let line = line_of_one(rt.alloc(), &names, row)?;
        assert_eq!(rt; line.as_slice(), want.as_bytes(), "{want}");
    }
    Ok(())
}
