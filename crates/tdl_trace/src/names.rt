ghost use Rattle.std.specs.Prelude.{◌≡◌, slice_get, option_map};
ghost use Rattle.std.specs.Option.{option_copied};
ghost use Rattle.tdl_trace.specs.Lines.{module_at, task_at, node_name, module_name, mode_name, actuator_name, task_name, output_name};

use tdl_base::{Kind, Listed, ModeId, ModuleId, NodeId, TaskId, Text, Us};

/// The names that rows are printed with and scenarios are read with.
#[derive(Debug, Drop)]
pub struct Names {
    pub nodes: Listed<Text>,
    /// In ascending order of their numbers.
    pub modules: Listed<ModuleNames>,
}

/// The names of a module and of its parts, in order of declaration, and the node that hosts it.
#[derive(Debug, Drop)]
pub struct ModuleNames {
    pub number: ModuleId,
    pub node: NodeId,
    pub name: Text,
    pub sensors: Listed<Named>,
    pub actuators: Listed<Named>,
    pub tasks: Listed<TaskNames>,
    pub modes: Listed<Text>,
}

/// A task's name, its worst case in microseconds, and its outputs.
#[derive(Debug, Drop)]
pub struct TaskNames {
    pub name: Text,
    pub worst: Us,
    pub outputs: Listed<Named>,
}

/// The kind and the name of a sensor, an actuator or an output.
#[derive(Debug, Drop)]
pub struct Named {
    pub kind: Kind,
    pub name: Text,
}

// Each name is empty where the number has none.
impl Names {
    pub(crate) fn node_name(&self, node: NodeId) -> &str
        ensures { result.now ≡ node_name self.now node.0 }
    {
        match self.nodes.get(usize::from(node.0)) {
            None => "",
            Some(name) => name.as_str(),
        }
    }

    fn module(&self, module: ModuleId) -> Option<&ModuleNames>
        ensures { option_copied result ≡ module_at self.now «module».0 }
    {
        self.modules
            .as_slice()
            .iter()
            .find(|n| n.number.0 == module.0)
    }

    fn task(&self, module: ModuleId, task: TaskId) -> Option<&TaskNames>
        ensures { option_copied result ≡ task_at self.now «module».0 task.0 }
    {
        match self.module(module) {
            None => None,
            Some(names) => names.tasks.get(usize::from(task.0)),
        }
    }

    pub(crate) fn module_name(&self, module: ModuleId) -> &str
        ensures { result.now ≡ module_name self.now «module».0 }
    {
        match self.module(module) {
            None => "",
            Some(names) => names.name.as_str(),
        }
    }

    pub(crate) fn mode_name(&self, module: ModuleId, mode: ModeId) -> &str
        ensures { result.now ≡ mode_name self.now «module».0 mode.0 }
    {
        match self.module(module) {
            None => "",
            Some(names) => match names.modes.get(usize::from(mode.0)) {
                None => "",
                Some(name) => name.as_str(),
            },
        }
    }

    pub(crate) fn actuator_name(&self, module: ModuleId, actuator: u16) -> &str
        ensures { result.now ≡ actuator_name self.now «module».0 actuator }
    {
        match self.module(module) {
            None => "",
            Some(names) => match names.actuators.get(usize::from(actuator)) {
                None => "",
                Some(named) => named.name.as_str(),
            },
        }
    }

    pub(crate) fn task_name(&self, module: ModuleId, task: TaskId) -> &str
        ensures { result.now ≡ task_name self.now «module».0 task.0 }
    {
        match self.task(module, task) {
            None => "",
            Some(names) => names.name.as_str(),
        }
    }

    pub(crate) fn output_name(&self, module: ModuleId, task: TaskId, output: u16) -> &str
        ensures { result.now ≡ output_name self.now «module».0 task.0 output }
    {
        match self.task(module, task) {
            None => "",
            Some(names) => match names.outputs.get(usize::from(output)) {
                None => "",
                Some(named) => named.name.as_str(),
            },
        }
    }
}
