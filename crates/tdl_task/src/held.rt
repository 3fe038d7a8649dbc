ghost use Rattle.std.specs.Prelude.{◌≡◌, ◌+◌, ◌<◌, ◌≤◌, ◌++◌, length, pos, slice_index_or, IfOk, OnOk};
ghost use Rattle.tdl_stack.specs.Lawful.{IsLawful};
ghost use Rattle.tdl_task.specs.Jobs.{cells_of_shape, released, released_values, body_shape, values_after, outputs_of_cells};

use crate::TaskShape;
use std::alloc::Global;
use std::marker::Model;
use tdl_base::{Kind, Listed, NoMemory, narrow};
use tdl_exec::{Cells, run_code};
use tdl_stack::Code;

/// The cells of a task and their numbers.
pub(crate) struct Held {
    kinds: Listed<Kind>,
    values: Listed<i64>,
    inputs: usize,
    outputs: usize,
}

impl Model for Held {
    ghost use Rattle.std.specs.Prelude.{◌≡◌, ◌+◌, ◌≤◌, length};
    ghost use Rattle.tdl_task.specs.Jobs.{HeldCells};

    ghost Value = { HeldCells };

    ghost view = { λ h. record {
      task = record {
        kinds = h.kinds;
        inputs = h.inputs;
        outputs = h.outputs;
      };
      values = h.values;
    } };

    ghost invariant = { λ h. (length h.values ≡ length h.kinds)
        × (h.inputs + h.outputs ≤ length h.kinds) };
}

impl Held {
    /// The cells of a task, each 0.
    pub(crate) fn new(alloc: Global, shape: &TaskShape) -> Result<Held, NoMemory>
        ensures { IfOk result (λ held. held.task ≡ cells_of_shape shape.now) }
    {
        let mut kinds = Listed::new(alloc);
        let mut values = Listed::new(alloc);
        add(&mut kinds, &mut values, shape.inputs.as_slice())?;
        add(&mut kinds, &mut values, shape.outputs.as_slice())?;
        add(&mut kinds, &mut values, shape.locals.as_slice())?;
        Ok(Held {
            kinds,
            values,
            inputs: shape.inputs.len(),
            outputs: shape.outputs.len(),
        })
    }

    /// The numbers of a release.
    pub(crate) fn release(self, inputs: &[i64], outputs: &[i64]) -> Held
        requires inputs { length inputs.now ≡ self.task.inputs }
        requires outputs { length outputs.now ≡ self.task.outputs }
        ensures task { result.task ≡ self.task }
        ensures values { result.values ≡ released self.task inputs.now outputs.now }
    {
        let Held {
            kinds,
            mut values,
            inputs: input_count,
            outputs: output_count,
        } = self;
        put_released(&mut values, kinds.as_slice(), inputs, outputs);
        Held {
            kinds,
            values,
            inputs: input_count,
            outputs: output_count,
        }
    }

    /// The numbers after the code.
    pub(crate) fn run(self, code: &Code) -> Held
        requires { IsLawful code.now.instrs (body_shape self.task) }
        ensures task { result.task ≡ self.task }
        ensures values { result.values ≡ values_after code.now.instrs self }
    {
        let Held {
            kinds,
            values,
            inputs,
            outputs,
        } = self;
        let mut cells = Cells::new(kinds, values);
        run_code(code, &mut cells);
        let (kinds, values) = cells.into_parts();
        Held {
            kinds,
            values,
            inputs,
            outputs,
        }
    }

    /// The numbers of the outputs.
    pub(crate) fn outputs(&self) -> &[i64]
        ensures value { result.now ≡ outputs_of_cells self.now }
        ensures length { length result.now ≡ self.now.task.outputs }
    {
        let values = self.values.as_slice();
        &values[self.inputs..self.inputs + self.outputs]
    }

    pub(crate) fn scrap(self) {
        let Held {
            kinds: _,
            values: _,
            inputs: _,
            outputs: _,
        } = self;
    }
}

// Adds cells of these kinds, each 0.
fn add(kinds: &mut Listed<Kind>, values: &mut Listed<i64>, more: &[Kind]) -> Result<(), NoMemory>
    ensures kinds { OnOk result (kinds.new ≡ kinds.old ++ more.now) }
    ensures count { OnOk result (length values.new ≡ length values.old + length more.now) }
{
    for kind in more {
        kinds.push(*kind)?;
        values.push(0)?;
    }
    Ok(())
}

// Sets each number to that of a release.
fn put_released(values: &mut Listed<i64>, kinds: &[Kind], inputs: &[i64], outputs: &[i64])
    requires count { length values.old ≡ length kinds.now }
    requires room { length inputs.now + length outputs.now ≤ length kinds.now }
    ensures { values.new ≡ released_values kinds.now inputs.now outputs.now }
{
    for i in 0..values.len() {
        values.set(i, released_at(kinds, inputs, outputs, i));
    }
}

// The number of a cell at a release.
fn released_at(kinds: &[Kind], inputs: &[i64], outputs: &[i64], at: usize) -> i64
    requires here { at < length kinds.now }
    requires room { length inputs.now + length outputs.now ≤ length kinds.now }
    ensures { result
        ≡ slice_index_or (released_values kinds.now inputs.now outputs.now) at (pos 0) }
{
    if at < inputs.len() {
        narrow(kinds[at], inputs[at])
    } else if at - inputs.len() < outputs.len() {
        outputs[at - inputs.len()]
    } else {
        0
    }
}
