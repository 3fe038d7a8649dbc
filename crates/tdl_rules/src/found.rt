use crate::Spot;
use tdl_base::Kind;
use tdl_tree::Lit;

/// What a name in an expression reads. Declarations and ports count from 0 in order of the source.
#[derive(Clone, Copy, Debug)]
pub enum Target {
    /// A port of the task whose body it is.
    Port(usize),
    /// A constant, with its literal.
    Fixed(Lit),
    /// A sensor of the module, by its declaration.
    Sensor(usize),
    /// An output, by its module, its task's declaration and its port.
    Output {
        module: usize,
        task: usize,
        port: usize,
    },
}

/// What is found of a name in an expression.
#[derive(Clone, Copy, Debug)]
pub enum Found {
    /// It reads a number or boolean of this kind.
    Is { kind: Kind, target: Target },
    /// The part at this place is not found (rule 3), or not as what is needed (rule 4).
    Lost { rule: u8, at: Spot },
    /// The name goes through an import that names no module of an earlier source.
    Unknown,
}
