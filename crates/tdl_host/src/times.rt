ghost use Rattle.std.specs.Prelude.{◌≡◌, suc};
ghost use Rattle.tdl_scen.specs.Scenario.{time_of};

use tdl_base::{ModuleId, TaskId};
use tdl_scen::TaskTimes;

/// How long the next job of a task takes, in microseconds, once so many of its jobs were released:
/// its listed time, otherwise the worst case. It takes no memory.
pub fn next_time(
    times: &[TaskTimes],
    owner: ModuleId,
    task: TaskId,
    released: u64,
    worst: u64,
) -> u64
    ensures { result ≡ time_of times.now worst owner.0 task.0 (suc released) }
{
    let mut left = released as usize;
    for entry in times {
        if entry.module != owner || entry.task != task {
            continue;
        }
        let own = entry.times.as_slice();
        if left < own.len() {
            return own[left];
        }
        left -= own.len();
    }
    worst
}

#[cfg(test)]
mod tests {
    use super::*;
    use std::alloc::Global;
    use std::test::Fail;
    use tdl_base::{Listed, NoMemory};

    fn listed(alloc: Global, module: u16, task: u16, times: &[u64]) -> Result<TaskTimes, NoMemory> {
        let times = Vec::from_slice(alloc, times)?;
        Ok(TaskTimes {
            module: ModuleId(module),
            task: TaskId(task),
            times: Listed::from_vec(times),
        })
    }

    // The task of module 1, the jobs before the one that is meant, and its time.
    const ROWS: [(u16, u64, u64); 7] = [
        (1, 0, 5),
        (1, 1, 6),
        (1, 2, 7),
        (1, 3, 50),
        (2, 0, 9),
        (2, 1, 50),
        (3, 0, 50),
    ];

    #[test]
    fn finds_the_time_of_each_job(rt: HostRuntime) -> Result<(), Fail> {
        let alloc = rt.alloc();
        let times = [
            listed(alloc, 0, 1, &[4])?,
            listed(alloc, 1, 1, &[5, 6])?,
            listed(alloc, 1, 2, &[9])?,
            listed(alloc, 1, 1, &[7])?,
        ];
        for (task, released, time) in ROWS {
            let found = next_time(&times, ModuleId(1), TaskId(task), released, 50);
            assert_eq!(rt; found, time);
        }
        Ok(())
    }
}
