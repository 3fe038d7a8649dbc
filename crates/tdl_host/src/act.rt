ghost use Rattle.std.specs.Prelude.{◌≡◌, ◌++◌, ◌+◌, ◌-◌, ◌<◌, ◌^◌, ℕ, suc, List, IfOk, OnOk, IfErr, option_map, unwrap_or, slice_get, length};
ghost use Rattle.tdl_base.specs.declared.numbers.TheConstants.{FIRST_NODE};
ghost use Rattle.tdl_base.specs.declared.kinds.Kind.TheVariants.{Long};
ghost use Rattle.tdl_base.specs.Numbers.{is_true};
ghost use Rattle.tdl_trace.specs.Shown.{Shown};
ghost use Rattle.tdl_verify.specs.States.{Part};
ghost use Rattle.tdl_verify.specs.Turns.{Acted, output_rows, no_code};
ghost use Rattle.tdl_node.specs.Machines.{IsTrap};
ghost use Rattle.tdl_host.specs.CheckedCodes.{HasRoom};
ghost use Rattle.tdl_host.specs.Lasting.{AreLasting};
ghost use Rattle.tdl_host.specs.Hosts.{HasReleased, acts, value_at, went};

use crate::seen::{Scene, put_values, value};
use crate::state::HostState;
use tdl_base::{FIRST_NODE, Kind, ModeId, ModuleId, NoMemory, TaskId, Us, narrow};
use tdl_ecode::EInstr;
use tdl_image::Hosted;
use tdl_node::Stop;
use tdl_trace::{Row, Rows};

/// Where a block goes on after an instruction.
#[derive(Clone, Copy, Debug, PartialEq, Eq)]
pub enum Next {
    /// At an index.
    On(usize),
    /// The block is over.
    Over,
}

/// Puts a row for each output of a task. An output whose number no row can hold is no memory.
fn put_outputs(
    at: u32,
    owner: ModuleId,
    task: u16,
    outputs: &[i64],
    rows: &mut Rows,
) -> Result<(), NoMemory>
    ensures { OnOk result
        (rows.new ≡ rows.old ++ output_rows at FIRST_NODE.0 owner.0 task outputs.now) }
{
    for (i, value) in outputs.iter().enumerate() {
        let Ok(output) = u16::try_from(i) else {
            return Err(NoMemory);
        };
        rows.push(Row::Port {
            at: Us(u64::from(at)),
            node: FIRST_NODE,
            module: owner,
            task: TaskId(task),
            output,
            value: *value,
        })?;
    }
    Ok(())
}

/// Ends the job of a task: commits a done one, and puts its outputs.
fn end(scene: Scene, state: &mut HostState, task: u16, rows: &mut Rows) -> Result<(), Stop>
    ensures host { state.new.host ≡ state.old.host }
    ensures ok { OnOk result
        ((pc : ℕ) → acts state.old.host scene.entry.times.now scene.entry.senses.now scene.entry.at
        rows.old state.old.now pc (EInstr.End task)
        ≡ Acted.On (Part.Host state.old.host state.new.now) rows.new (suc pc)) }
    ensures trapped { IfErr result
        (IsTrap (λ reason. (pc : ℕ) →
        acts state.old.host scene.entry.times.now scene.entry.senses.now scene.entry.at rows.old
        state.old.now pc (EInstr.End task) ≡ Acted.Stop reason)) }
{
    if !state.end(task)? {
        return Ok(());
    }
    let owner = state.hosted().number;
    put_outputs(scene.at, owner, task, state.outputs(task), rows)?;
    Ok(())
}

fn actuator_kind(hosted: &Hosted, actuator: u16) -> Kind
    ensures { result
        ≡ unwrap_or (option_map (λ p. p.kind) (slice_get hosted.now.actuators actuator)) Long }
{
    match hosted.actuators.get(usize::from(actuator)) {
        None => Kind::Long,
        Some(port) => port.kind,
    }
}

/// Calls a driver: its actuator takes the number of its expression.
fn call(scene: Scene, state: &mut HostState, driver: u16, rows: &mut Rows) -> Result<(), NoMemory>
    ensures host { state.new.host ≡ state.old.host }
    ensures ok { OnOk result
        ((pc : ℕ) → acts state.old.host scene.entry.times.now scene.entry.senses.now scene.entry.at
        rows.old state.old.now pc (EInstr.Call driver)
        ≡ Acted.On (Part.Host state.old.host state.new.now) rows.new (suc pc)) }
{
    let hosted = state.hosted();
    let Some(driver) = hosted.drivers.get(usize::from(driver)) else {
        return Ok(());
    };
    let exact = value(scene, state, &driver.value);
    let kept = narrow(actuator_kind(hosted, driver.actuator), exact);
    state.update(driver.actuator, kept);
    rows.push(Row::Act {
        at: Us(u64::from(scene.at)),
        node: FIRST_NODE,
        module: hosted.number,
        actuator: driver.actuator,
        value: kept,
    })?;
    Ok(())
}

/// Releases a job: it starts, where the slot of its task is idle. The numbers are room for its
/// arguments.
fn release(
    scene: Scene,
    state: &mut HostState,
    release: u16,
    numbers: &mut [i64],
) -> Result<(), Stop>
    requires lasting { AreLasting scene.times.now }
    requires room { HasRoom state.old.host (length numbers.old) }
    requires released { HasReleased (2 ^ 64 - 2) state.old.now }
    ensures host { state.new.host ≡ state.old.host }
    ensures room { length numbers.new ≡ length numbers.old }
    ensures ok { OnOk result
        ((rows : List Shown) (pc : ℕ) →
        acts state.old.host scene.entry.times.now scene.entry.senses.now scene.entry.at rows
        state.old.now pc (EInstr.Release release)
        ≡ Acted.On (Part.Host state.old.host state.new.now) rows (suc pc)) }
    ensures trapped { IfErr result
        (IsTrap (λ reason. (rows : List Shown) (pc : ℕ) →
        acts state.old.host scene.entry.times.now scene.entry.senses.now scene.entry.at rows
        state.old.now pc (EInstr.Release release) ≡ Acted.Stop reason)) }
{
    let hosted = state.hosted();
    let Some(release) = hosted.releases.get(usize::from(release)) else {
        return Ok(());
    };
    let Some(call) = hosted.calls.get(usize::from(release.call)) else {
        return Ok(());
    };
    put_values(scene, state, call.args.as_slice(), numbers);
    state.start(
        scene.times,
        call.task,
        *release,
        &numbers[..call.args.len()],
    )
}

/// Enters a mode, and puts a row where the module was not in it.
fn enter(scene: Scene, state: &mut HostState, mode: u16, rows: &mut Rows) -> Result<(), NoMemory>
    ensures host { state.new.host ≡ state.old.host }
    ensures ok { OnOk result
        ((pc : ℕ) → acts state.old.host scene.entry.times.now scene.entry.senses.now scene.entry.at
        rows.old state.old.now pc (EInstr.Mode mode)
        ≡ Acted.On (Part.Host state.old.host state.new.now) rows.new (suc pc)) }
{
    let already = state.is_in(mode);
    state.enter(mode, scene.at);
    if already {
        return Ok(());
    }
    rows.push(Row::Mode {
        at: Us(u64::from(scene.at)),
        node: FIRST_NODE,
        module: state.hosted().number,
        mode: ModeId(mode),
    })?;
    Ok(())
}

/// Whether a guard holds; none where there is no such guard.
fn holds(scene: Scene, state: &HostState, guard: u16) -> bool
    ensures { result
        ≡ is_true (value_at state.now.host state.now.now scene.entry.senses.now scene.entry.at
        (unwrap_or (slice_get state.now.host.guards guard) no_code)) }
{
    let Some(guard) = state.hosted().guards.get(usize::from(guard)) else {
        return false;
    };
    value(scene, state, guard) != 0
}

/// Goes on at the next index, or at the other one where the guard does not hold.
fn branch(scene: Scene, state: &HostState, pc: usize, guard: u16, otherwise: u32) -> Next
    requires room { pc + 1 < 2 ^ 64 }
    ensures { (rows : List Shown) →
        acts state.now.host scene.entry.times.now scene.entry.senses.now scene.entry.at rows
        state.now.now pc (EInstr.If guard otherwise)
        ≡ went result state.now.host state.now.now rows }
{
    if !holds(scene, state, guard) {
        return Next::On(otherwise as usize);
    }
    Next::On(pc + 1)
}

/// Does an instruction that stands at an index of a block. The numbers are room for arguments.
pub fn act(
    scene: Scene,
    state: &mut HostState,
    pc: usize,
    instr: EInstr,
    numbers: &mut [i64],
    rows: &mut Rows,
) -> Result<Next, Stop>
    requires place { pc + 1 < 2 ^ 64 }
    requires lasting { AreLasting scene.times.now }
    requires room { HasRoom state.old.host (length numbers.old) }
    requires released { HasReleased (2 ^ 64 - 2) state.old.now }
    ensures host { state.new.host ≡ state.old.host }
    ensures room { length numbers.new ≡ length numbers.old }
    ensures ok { IfOk result
        (λ next. acts state.old.host scene.entry.times.now scene.entry.senses.now scene.entry.at
        rows.old state.old.now pc instr ≡ went next state.old.host state.new.now rows.new) }
    ensures trapped { IfErr result
        (IsTrap (λ reason. acts state.old.host scene.entry.times.now scene.entry.senses.now
        scene.entry.at rows.old state.old.now pc instr ≡ Acted.Stop reason)) }
{
    match instr {
        EInstr::Return => return Ok(Next::Over),
        EInstr::Jump(at) => return Ok(Next::On(at as usize)),
        EInstr::If(guard, otherwise) => {
            return Ok(branch(scene, state, pc, guard, otherwise));
        }
        EInstr::Call(driver) => call(scene, state, driver, rows)?,
        EInstr::Release(entry) => release(scene, state, entry, numbers)?,
        EInstr::End(task) => end(scene, state, task, rows)?,
        EInstr::Mode(mode) => enter(scene, state, mode, rows)?,
        EInstr::Future(ahead, block) => {
            state.await_block(u64::from(scene.at) + u64::from(ahead), block);
        }
        EInstr::Take(_) => {}
    }
    Ok(Next::On(pc + 1))
}
