use tdl_base::{ModeId, ModuleId};
use tdl_deploy::Resource;

/// What a line says, where its names are looked up.
#[derive(Debug, Drop)]
pub(crate) enum Entry {
    /// The line is of no form.
    Formless,
    /// A line of the window's form: nothing where the invocation is not there, or where a number of
    /// the span has more than 32 bits.
    Reserve {
        resource: Resource,
        called: Option<Called>,
        span: Option<Span>,
    },
}

/// An invocation of a mode of a module, which is there.
#[derive(Clone, Copy, Debug, PartialEq, Eq)]
pub(crate) struct Called {
    pub module: ModuleId,
    pub mode: ModeId,
    pub invocation: u16,
}

/// What is reserved of each cycle, in microseconds.
#[derive(Clone, Copy, Debug, PartialEq, Eq)]
pub(crate) struct Span {
    pub offset: u32,
    pub length: u32,
}
