use crate::{Idle, Job, Ran, TaskShape};
use std::test::Fail;
use tdl_base::{BinOp, Kind, Listed, ModeId, Place};
use tdl_stack::{Code, Instr};

// o := o + a;
const SUM: [Instr; 4] = [
    Instr::Load(Place::Cell(1)),
    Instr::Load(Place::Cell(0)),
    Instr::Bin(BinOp::Add),
    Instr::Store(1),
];

#[test]
fn done_where_the_time_is_reached(rt: HostRuntime) -> Result<(), Fail> {
    let shape = TaskShape {
        inputs: Listed::only(rt.alloc(), Kind::Int)?,
        outputs: Listed::only(rt.alloc(), Kind::Int)?,
        locals: Listed::new(rt.alloc()),
    };
    let code = Code {
        instrs: Listed::from_vec(Vec::from_slice(rt.alloc(), &SUM)?),
    };
    let idle = Idle::new(rt.alloc(), &shape)?;
    let job = Job {
        mode: ModeId(2),
        invocation: 3,
        exec: 200,
    };
    let mut remaining = 0;
    let mut outputs = [10];
    let ready = idle.release(job, &[4], &outputs);
    match ready.run(199, &code) {
        Ran::Done(done) => done.scrap(),
        Ran::Still(ready) => {
            remaining = ready.remaining();
            match ready.run(1, &code) {
                Ran::Still(ready) => ready.scrap(),
                Ran::Done(done) => done.commit(&mut outputs).scrap(),
            }
        }
    }
    assert_eq!(rt; remaining, 1);
    assert_eq!(rt; outputs, [14]);
    Ok(())
}
