ghost use Rattle.std.specs.Prelude.{◌≡◌, ◌<◌, length, IfOk};
ghost use Rattle.tdl_stack.specs.Lawful.{IsLawful};
ghost use Rattle.tdl_task.specs.Jobs.{cells_of_shape, released, body_shape, outputs_of_cells};
ghost use Rattle.tdl_task.specs.Running.{IsRun};

use crate::held::Held;
use crate::{Job, TaskShape};
use std::alloc::Global;
use std::marker::Model;
use tdl_base::NoMemory;
use tdl_stack::Code;

/// A slot without a job. Contracts see the cells of its task.
pub struct Idle {
    held: Held,
}

impl Model for Idle {
    ghost use Rattle.tdl_task.specs.Jobs.{TaskCells};

    ghost Value = { TaskCells };

    ghost view = { λ s. s.held.task };
}

impl Idle {
    /// The slot of a task.
    pub fn new(alloc: Global, kinds: &TaskShape) -> Result<Idle, NoMemory>
        ensures { IfOk result (λ idle. idle ≡ cells_of_shape kinds.now) }
    {
        let held = Held::new(alloc, kinds)?;
        Ok(Idle { held })
    }

    /// A job starts with these inputs, each narrowed to its kind, over the outputs that stand.
    pub fn release(self, job: Job, inputs: &[i64], outputs: &[i64]) -> Ready
        requires inputs { length inputs.now ≡ self.inputs }
        requires outputs { length outputs.now ≡ self.outputs }
        requires exec { 0 < job.exec }
        ensures { result ≡ record {
          job = job;
          remaining = job.exec;
          held = record {
            task = self;
            values = released self inputs.now outputs.now;
          };
        } }
    {
        let Idle { held } = self;
        Ready {
            held: held.release(inputs, outputs),
            job,
            remaining: job.exec,
        }
    }

    pub(crate) fn scrap(self) {
        let Idle { held } = self;
        held.scrap();
    }
}

/// A slot with a job that is not done.
pub struct Ready {
    held: Held,
    job: Job,
    remaining: u64,
}

impl Model for Ready {
    ghost use Rattle.tdl_task.specs.Jobs.{ReadyJob};

    ghost Value = { ReadyJob };

    ghost view = { λ s. record {
      job = s.job;
      remaining = s.remaining;
      held = s.held;
    } };
}

/// What a job is after it ran.
pub enum Ran {
    Still(Ready),
    Done(Done),
}

impl Ready {
    /// The job runs for so many microseconds. It is done where they reach those that it had left,
    /// and its code is then run on its cells as they were at its release.
    pub fn run(self, us: u64, code: &Code) -> Ran
        requires { IsLawful code.now.instrs (body_shape self.held.task) }
        ensures { IsRun us code.now.instrs self result }
    {
        let Ready {
            held,
            job,
            remaining,
        } = self;
        if us < remaining {
            return Ran::Still(Ready {
                held,
                job,
                remaining: remaining - us,
            });
        }
        Ran::Done(Done {
            held: held.run(code),
            job,
        })
    }

    /// How many microseconds are left.
    pub fn remaining(&self) -> u64
        ensures { result ≡ self.now.remaining }
    {
        self.remaining
    }

    /// The job as it was released.
    pub fn job(&self) -> Job
        ensures { result ≡ self.now.job }
    {
        self.job
    }

    pub(crate) fn scrap(self) {
        let Ready {
            held,
            job: _,
            remaining: _,
        } = self;
        held.scrap();
    }
}

/// A slot with a job that is done.
pub struct Done {
    held: Held,
    job: Job,
}

impl Model for Done {
    ghost use Rattle.tdl_task.specs.Jobs.{DoneJob};

    ghost Value = { DoneJob };

    ghost view = { λ s. record {
      job = s.job;
      held = s.held;
    } };
}

impl Done {
    /// Writes the job's outputs. The slot is then idle.
    pub fn commit(self, outputs: &mut [i64]) -> Idle
        requires { length outputs.old ≡ self.held.task.outputs }
        ensures idle { result ≡ self.held.task }
        ensures outputs { outputs.new ≡ outputs_of_cells self.held }
    {
        let Done { held, job: _ } = self;
        outputs.copy_from_slice(held.outputs());
        Idle { held }
    }

    /// The job's outputs.
    pub fn outputs(&self) -> &[i64]
        ensures { result.now ≡ outputs_of_cells self.now.held }
    {
        self.held.outputs()
    }

    /// The job as it was released.
    pub fn job(&self) -> Job
        ensures { result ≡ self.now.job }
    {
        self.job
    }

    pub(crate) fn scrap(self) {
        let Done { held, job: _ } = self;
        held.scrap();
    }
}
