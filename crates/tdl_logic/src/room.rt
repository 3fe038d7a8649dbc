ghost use Rattle.std.specs.Prelude.{◌≤◌, All, length};
ghost use Rattle.tdl_mode.specs.declared.program.Module.{Module};
ghost use Rattle.tdl_mode.specs.declared.program.Task.{Task};
ghost use Rattle.tdl_logic.specs.Rooms.{HasInputs, HasInputsOf};

use tdl_mode::{Module, Task};

fn greater(a: usize, b: usize) -> usize
    ensures left { a ≤ result }
    ensures right { b ≤ result }
{
    if a < b {
        return b;
    }
    a
}

// The greatest number of inputs of a task, at least so many.
fn most_inputs_of(tasks: &[Task], least: usize) -> usize
    ensures least { least ≤ result }
    ensures each { All (HasInputs result) tasks.now }
{
    let mut most = least;
    for task in tasks {
        most = greater(most, task.inputs.len());
    }
    most
}

/// The greatest number of inputs of a task of any module.
pub(crate) fn most_inputs(modules: &[Module]) -> usize
    ensures { All (HasInputsOf result) modules.now }
{
    let mut most = 0;
    for module in modules {
        most = most_inputs_of(module.tasks.as_slice(), most);
    }
    most
}
