ghost use Rattle.std.specs.Prelude.{◌≡◌, ◌∷◌, [], IfOk};
ghost use Rattle.tdl_node.specs.Entering.{entering_host, entering_bundle};

use crate::{Machine, NodeFault, Stop, run};
use std::alloc::Global;
use std::process::Abort;
use std::test::Fail;
use tdl_base::{FIRST_NODE, Listed, ModeId, ModuleId, NoMemory, Text, Us};
use tdl_ecode::{Block, EInstr};
use tdl_image::{Bundle, Hosted, Image};
use tdl_io::MemSink;
use tdl_scen::Sense;
use tdl_trace::{ModuleNames, Names, Row, Rows};

/// The machine of a module without tasks, whose only block enters its only mode.
#[derive(Drop)]
struct Entering {
    has_entered: bool,
}

impl Machine for Entering {
    ghost use Rattle.tdl_node.specs.Entering.{entering_parts, IsFirstDue};

    ghost declared = { λ machine. 2 };

    ghost parts = { λ machine. entering_parts machine.has_entered };

    ghost times = { λ machine owner task job. 1 };

    ghost ready = { λ machine at. IsFirstDue machine.has_entered at };

    fn turn(
        &mut self,
        _alloc: Global,
        _senses: &[Sense],
        at: u64,
        rows: &mut Rows,
    ) -> Result<(), Stop> {
        if self.has_entered {
            return Ok(());
        }
        let row = Row::Mode {
            at: Us(at),
            node: FIRST_NODE,
            module: ModuleId(0),
            mode: ModeId(0),
        };
        match rows.push(row) {
            Ok(()) => {
                self.has_entered = true;
                Ok(())
            }
            Err(_) => Err(Stop::NoMemory),
        }
    }

    fn micro(&mut self, _alloc: Global, _at: u64) -> Result<(), Stop> {
        Ok(())
    }
}

fn hosted(alloc: Global) -> Result<Hosted, NoMemory>
    ensures { IfOk result (λ hosted. hosted ≡ entering_host) }
{
    let code = Vec::from_slice(alloc, &[EInstr::Mode(0), EInstr::Return])?;
    let block = Block {
        phase: 3,
        code: Listed::from_vec(code),
    };
    Ok(Hosted {
        number: ModuleId(0),
        name: Text::from_str(alloc, "P")?,
        sensors: Listed::new(alloc),
        actuators: Listed::new(alloc),
        tasks: Listed::new(alloc),
        modes: Listed::only(alloc, Text::from_str(alloc, "main")?)?,
        calls: Listed::new(alloc),
        releases: Listed::new(alloc),
        guards: Listed::new(alloc),
        drivers: Listed::new(alloc),
        windows: Listed::new(alloc),
        blocks: Listed::only(alloc, block)?,
        entry: 0,
    })
}

fn bundle(alloc: Global) -> Result<Bundle, NoMemory>
    ensures { IfOk result (λ bundle. bundle ≡ entering_bundle) }
{
    let image = Image {
        node: Text::from_str(alloc, "n1")?,
        declared: 2,
        hosted: Listed::only(alloc, hosted(alloc)?)?,
        stubs: Listed::new(alloc),
    };
    Ok(Bundle {
        images: Listed::only(alloc, image)?,
    })
}

fn names(alloc: Global) -> Result<Names, NoMemory> {
    let names = ModuleNames {
        number: ModuleId(0),
        node: FIRST_NODE,
        name: Text::from_str(alloc, "P")?,
        sensors: Listed::new(alloc),
        actuators: Listed::new(alloc),
        tasks: Listed::new(alloc),
        modes: Listed::only(alloc, Text::from_str(alloc, "main")?)?,
    };
    Ok(Names {
        nodes: Listed::only(alloc, Text::from_str(alloc, "n1")?)?,
        modules: Listed::only(alloc, names)?,
    })
}

fn try_run(
    rt: &impl Abort,
    alloc: Global,
    fail_puts: &[u64],
    end: Result<(), NodeFault>,
    text: &str,
) -> Result<(), Fail> {
    let bundle = bundle(alloc)?;
    let names = names(alloc)?;
    let mut machine = Entering { has_entered: false };
    let mut out = MemSink::new(alloc, 64, Vec::from_slice(alloc, fail_puts)?)?;
    let result = run(alloc, &bundle, &names, &mut machine, &[], 3, &mut out);
    assert_eq!(rt; result, end);
    assert_eq!(rt; out.bytes(), text.as_bytes());
    Ok(())
}

#[test]
fn the_lines_of_a_run_are_put(rt: HostRuntime) -> Result<(), Fail> {
    try_run(&rt, rt.alloc(), &[], Ok(()), "0 n1 mode P main\n")
}

#[test]
fn a_broken_sink_ends_the_run(rt: HostRuntime) -> Result<(), Fail> {
    try_run(&rt, rt.alloc(), &[1], Err(NodeFault::WriteFailed), "")
}
