use crate::{PlantPorts, ScenError, read_scen};
use std::alloc::Global;
use std::test::Fail;
use tdl_base::{Kind, Listed, ModuleId, NoMemory, NodeId, Text, Us};
use tdl_lines::Fault;
use tdl_trace::{ModuleNames, Named, Names, TaskNames};

fn named(alloc: Global, kind: Kind, name: &str) -> Result<Listed<Named>, NoMemory> {
    Listed::only(
        alloc,
        Named {
            kind,
            name: Text::from_str(alloc, name)?,
        },
    )
}

// Module P with the sensor s, the actuator v and the task inc of at most 200 us, on the node n1.
fn names(alloc: Global) -> Result<Names, NoMemory> {
    let inc = TaskNames {
        name: Text::from_str(alloc, "inc")?,
        worst: Us(200),
        outputs: Listed::new(alloc),
    };
    let home = ModuleNames {
        number: ModuleId(0),
        node: NodeId(0),
        name: Text::from_str(alloc, "P")?,
        sensors: named(alloc, Kind::Boolean, "s")?,
        actuators: named(alloc, Kind::Int, "v")?,
        tasks: Listed::only(alloc, inc)?,
        modes: Listed::new(alloc),
    };
    Ok(Names {
        nodes: Listed::only(alloc, Text::from_str(alloc, "n1")?)?,
        modules: Listed::only(alloc, home)?,
    })
}

#[test]
fn reads_each_form(rt: HostRuntime) -> Result<(), Fail> {
    let names = names(rt.alloc())?;
    let plants = [PlantPorts {
        senses: 0,
        settles: 3,
    }];
    let text =
        b"# all forms\r\norder n1\nexec P.inc 7 200\n\tsense P.s 4 1\nbind P.v 0 2\nhorizon 9";
    let read = read_scen(rt.alloc(), text.as_slice(), &names, plants.as_slice())?;
    assert_eq!(rt; read.horizon, Us(9));
    assert_eq!(rt; read.order.as_slice(), [NodeId(0)].as_slice());
    assert_eq!(rt; read.senses.len(), 1);
    assert_eq!(rt; read.times.len(), 1);
    assert_eq!(rt; read.binds.len(), 1);
    Ok(())
}

#[test]
fn tells_the_first_fault(rt: HostRuntime) -> Result<(), Fail> {
    let names = names(rt.alloc())?;
    let rows = [
        (b"".as_slice(), 1, 1),
        (b"horizon 9\nbind P.s 0 0\nlose 1".as_slice(), 2, 8),
        (b"exec P.inc 201\nhorizon 1000001".as_slice(), 1, 5),
        (b"horizon 9\nsense P.s 3 1\nsense P.s 2 2".as_slice(), 3, 3),
        (b"horizon 9\nsense P.s 3 2".as_slice(), 2, 4),
    ];
    for (text, line, rule) in rows {
        let fault = read_scen(rt.alloc(), text, &names, &[]).err();
        let first = ScenError::BadScenario(Fault { line, rule });
        assert_eq!(rt; fault, Some(first), "{text:?}");
    }
    Ok(())
}
