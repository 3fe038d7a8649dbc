use crate::{Act, Id, Lit, StmtTree, Time};
use tdl_base::{Kind, Listed};

/// A source: one module.
#[derive(Debug, Drop)]
pub struct Tree {
    pub name: Id,
    /// The modules that it imports, in order.
    pub imports: Listed<Id>,
    pub decls: Listed<Decl>,
}

/// A declaration of a module.
#[derive(Debug, Drop)]
pub enum Decl {
    Const {
        public: bool,
        kind: Kind,
        name: Id,
        value: Lit,
    },
    Sensor {
        kind: Kind,
        name: Id,
    },
    Actuator {
        kind: Kind,
        name: Id,
        initial: Option<Lit>,
    },
    Task {
        public: bool,
        name: Id,
        worst: Time,
        ports: Listed<PortDecl>,
        body: Listed<StmtTree>,
    },
    Mode {
        start: bool,
        name: Id,
        period: Time,
        acts: Listed<Act>,
    },
}

/// What a port of a task is.
#[derive(Clone, Copy, Debug, PartialEq, Eq)]
pub enum Sort {
    Input,
    Output,
    Local,
}

/// A port of a task. Only an output may have an initial literal.
#[derive(Debug, Drop)]
pub struct PortDecl {
    pub sort: Sort,
    pub kind: Kind,
    pub name: Id,
    pub initial: Option<Lit>,
}
