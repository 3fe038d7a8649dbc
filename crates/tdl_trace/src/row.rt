ghost use Rattle.std.specs.Prelude.{◌≡◌, [], ◌∷◌, ◌++◌, length, slice_get, OnOk, OnErr, option_map};

use std::alloc::Global;
use std::marker::Model;
use tdl_base::{ModeId, ModuleId, NoMemory, NodeId, TaskId, Us};

/// One thing that a run shows, at an instant and on a node.
#[derive(Clone, Copy, Debug, PartialEq, Eq)]
pub enum Row {
    /// An output was committed.
    Port {
        at: Us,
        node: NodeId,
        module: ModuleId,
        task: TaskId,
        output: u16,
        value: i64,
    },
    /// An actuator was updated.
    Act {
        at: Us,
        node: NodeId,
        module: ModuleId,
        actuator: u16,
        value: i64,
    },
    /// A mode was entered.
    Mode {
        at: Us,
        node: NodeId,
        module: ModuleId,
        mode: ModeId,
    },
}

/// Rows in order, which contracts see as the list of what they show.
#[derive(Debug, Drop)]
pub struct Rows {
    rows: Vec<Row>,
}

impl Model for Rows {
    ghost use Rattle.std.specs.Prelude.{List, map};
    ghost use Rattle.tdl_trace.specs.Shown.{Shown, shown_of};

    ghost Value = { List Shown };

    ghost view = { λ r. map shown_of r.rows.items };
}

impl Rows {
    ghost use Rattle.tdl_trace.specs.Shown.{shown_of};

    /// No rows. It takes no memory.
    pub fn new(alloc: Global) -> Rows
        ensures { result ≡ [] }
    {
        Rows {
            rows: Vec::new(alloc),
        }
    }

    /// Appends a row. Without memory the rows are unchanged.
    pub fn push(&mut self, row: Row) -> Result<(), NoMemory>
        ensures ok { OnOk result (self.new ≡ self.old ++ shown_of row ∷ []) }
        ensures err { OnErr result (self.new ≡ self.old) }
    {
        self.rows.push(row)?;
        Ok(())
    }

    /// Takes all rows out, and keeps their room.
    pub fn clear(&mut self)
        ensures { self.new ≡ [] }
    {
        self.rows.clear();
    }

    /// How many rows there are.
    pub fn len(&self) -> usize
        ensures { result ≡ length self.now }
    {
        self.rows.len()
    }

    /// A row by its place from 0, `None` where there is none.
    pub fn get(&self, i: usize) -> Option<&Row>
        ensures { option_map (λ row. shown_of row.now) result ≡ slice_get self.now i }
    {
        self.rows.get(i)
    }
}
