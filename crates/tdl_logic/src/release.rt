ghost use Rattle.std.specs.Prelude.{◌≡◌, ◌<◌, ◌≤◌, ℕ, length, take, slice_index_or, pos};
ghost use Rattle.std.specs.Bool.{OnTrue, OnFalse};
ghost use Rattle.tdl_base.specs.Lists.{changed_at};
ghost use Rattle.tdl_base.specs.Numbers.{narrowed};
ghost use Rattle.tdl_base.specs.Sensed.{sensed_at};
ghost use Rattle.tdl_base.specs.declared.kinds.Kind.TheVariants.{Long};
ghost use Rattle.tdl_body.specs.Values.{value_of};
ghost use Rattle.tdl_mode.specs.States.{kinds_of, invocations_now};
ghost use Rattle.tdl_mode.specs.Phases.{narrowed_args, releases};
ghost use Rattle.tdl_logic.specs.Looks.{shown, look_at, output_in};
ghost use Rattle.tdl_logic.specs.Standing.{bare};
ghost use Rattle.tdl_logic.specs.Releases.{release_here, own_tasks, IsPrepared, HasArguments, HasArgumentsOf, definitions_of};

use crate::moment::Moment;
use crate::seen::Seen;
use crate::task_now::Origin;
use crate::tasks::Tasks;
use tdl_base::{Kind, ModuleId, Sensed, narrow};
use tdl_body::Expr;
use tdl_mode::{Invocation, PortDef};

fn kind_at(ports: &[PortDef], at: usize) -> Kind
    ensures { result ≡ slice_index_or (kinds_of ports.now) at Long }
{
    match ports.get(at) {
        None => Kind::Long,
        Some(port) => port.kind,
    }
}

// The number of an argument for an input.
fn argument(seen: &Seen, ports: &[PortDef], args: &[Expr], at: usize) -> i64
    requires { at < length args.now }
    ensures { result
        ≡ slice_index_or (narrowed_args (kinds_of ports.now) args.now (shown seen.now)) at (pos 0) }
{
    narrow(kind_at(ports, at), seen.value(&args[at]))
}

// The numbers of arguments, each narrowed to the kind of its input.
fn put_arguments(seen: &Seen, ports: &[PortDef], args: &[Expr], into: &mut [i64])
    requires { length args.now ≤ length into.old }
    ensures { take (length args.now) into.new
        ≡ narrowed_args (kinds_of ports.now) args.now (shown seen.now) }
{
    for at in 0..args.len() {
        into[at] = argument(seen, ports, args, at);
    }
}

// Whether an invocation starts now, its guard holds, and its task is there. If so the numbers of
// its arguments are put.
fn prepare(moment: &Moment, seen: &Seen, invocation: &Invocation, numbers: &mut [i64]) -> bool
    requires { length invocation.now.args ≤ length numbers.old }
    ensures no { OnFalse result ((k : ℕ) → release_here moment.now (shown seen.now) k
        invocation.now (own_tasks seen.now) ≡ own_tasks seen.now) }
    ensures yes { OnTrue result (IsPrepared moment.now (shown seen.now) invocation.now
        (own_tasks seen.now) numbers.new) }
{
    if !moment.is_at(invocation.s) {
        return false;
    }
    if !seen.holds(&invocation.guard) {
        return false;
    }
    let Some(task) = seen.task(invocation.task) else {
        return false;
    };
    put_arguments(
        seen,
        task.inputs.as_slice(),
        invocation.args.as_slice(),
        numbers,
    );
    true
}

// An invocation of a module is released, where it starts now and its guard holds. The numbers are
// room for its arguments.
fn release(
    moment: &Moment,
    owner: ModuleId,
    sensed: &Sensed,
    tasks: &mut [Tasks],
    number: usize,
    invocation: &Invocation,
    numbers: &mut [i64],
)
    requires there { owner.0 < length tasks.old }
    requires room { length invocation.now.args ≤ length numbers.old }
    requires arguments { HasArguments invocation.now owner.0 tasks.old }
    ensures { tasks.new ≡ changed_at owner.0 (release_here moment.now
        (look_at owner.0 (sensed_at sensed.now) tasks.old) number invocation.now) tasks.old }
{
    let seen = Seen {
        module: owner,
        sensed,
        tasks: &*tasks,
    };
    if !prepare(moment, &seen, invocation, numbers) {
        return;
    }
    let origin = Origin {
        mode: moment.mode,
        invocation: number,
    };
    let own = &mut tasks[usize::from(owner.0)];
    own.start(invocation.task, origin, &numbers[..invocation.args.len()]);
}

/// The invocations of a module that start now and whose guards hold are released, in order.
pub(crate) fn release_each(
    moment: &Moment,
    owner: ModuleId,
    sensed: &Sensed,
    tasks: &mut [Tasks],
    numbers: &mut [i64],
)
    requires there { owner.0 < length tasks.old }
    requires arguments { HasArgumentsOf (bare moment.now) owner.0 (length numbers.old) tasks.old }
    ensures tasks { tasks.new ≡ changed_at owner.0 (releases (bare moment.now) moment.now.at.0
        (look_at owner.0 (sensed_at sensed.now) tasks.old) 1
        (invocations_now (bare moment.now))) tasks.old }
    ensures outputs { output_in tasks.new ≡ output_in tasks.old }
    ensures definitions { definitions_of tasks.new ≡ definitions_of tasks.old }
{
    let invocations = moment.invocations();
    for i in 0..invocations.len() {
        release(
            moment,
            owner,
            sensed,
            tasks,
            i + 1,
            &invocations[i],
            numbers,
        );
    }
}
