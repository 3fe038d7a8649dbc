//! The form in a tree, each part where a tree of the plain shape has it.
ghost use Rattle.std.specs.Prelude.{◌≡◌, IfOk, slice_get};
ghost use Rattle.tdl_plain.specs.FormInTree as reading;

use crate::Form;
use std::alloc::Global;
use tdl_base::{NoMemory, Text};
use tdl_tree::{Decl, Lit, LitValue, PortDecl, Tree};

fn sensor_name(decls: &[Decl]) -> &str
    ensures { result.now ≡ reading.sensor_name (slice_get decls.now 0) }
{
    match decls.get(0) {
        Some(Decl::Sensor { kind: _, name }) => name.text.as_str(),
        _ => "",
    }
}

fn task_name(decls: &[Decl]) -> &str
    ensures { result.now ≡ reading.task_name (slice_get decls.now 1) }
{
    match decls.get(1) {
        Some(
            Decl::Task {
                public: _,
                name,
                worst: _,
                ports: _,
                body: _,
            },
        ) => name.text.as_str(),
        _ => "",
    }
}

fn task_worst(decls: &[Decl]) -> u64
    ensures { result ≡ reading.task_worst (slice_get decls.now 1) }
{
    match decls.get(1) {
        Some(
            Decl::Task {
                public: _,
                name: _,
                worst,
                ports: _,
                body: _,
            },
        ) => worst.number.value,
        _ => 0,
    }
}

fn task_ports(decls: &[Decl]) -> &[PortDecl]
    ensures { result.now ≡ reading.task_ports (slice_get decls.now 1) }
{
    match decls.get(1) {
        Some(
            Decl::Task {
                public: _,
                name: _,
                worst: _,
                ports,
                body: _,
            },
        ) => ports.as_slice(),
        _ => &[],
    }
}

fn port_name(ports: &[PortDecl], at: usize) -> &str
    ensures { result.now ≡ reading.port_name (slice_get ports.now at) }
{
    match ports.get(at) {
        Some(port) => port.name.text.as_str(),
        None => "",
    }
}

fn literal_number(literal: &Option<Lit>) -> u64
    ensures { result ≡ reading.literal_number literal.now }
{
    match literal {
        Some(literal) => match literal.value {
            LitValue::Number { minus: _, number } => number.value,
            _ => 0,
        },
        None => 0,
    }
}

fn port_initial(ports: &[PortDecl], at: usize) -> u64
    ensures { result ≡ reading.port_initial (slice_get ports.now at) }
{
    match ports.get(at) {
        Some(port) => literal_number(&port.initial),
        None => 0,
    }
}

fn mode_name(decls: &[Decl]) -> &str
    ensures { result.now ≡ reading.mode_name (slice_get decls.now 2) }
{
    match decls.get(2) {
        Some(
            Decl::Mode {
                start: _,
                name,
                period: _,
                acts: _,
            },
        ) => name.text.as_str(),
        _ => "",
    }
}

fn mode_period(decls: &[Decl]) -> u64
    ensures { result ≡ reading.mode_period (slice_get decls.now 2) }
{
    match decls.get(2) {
        Some(
            Decl::Mode {
                start: _,
                name: _,
                period,
                acts: _,
            },
        ) => period.number.value,
        _ => 0,
    }
}

/// The form in a tree, or NoMemory.
pub fn form_in(alloc: Global, tree: &Tree) -> Result<Form, NoMemory>
    ensures { IfOk result (λ form. form ≡ reading.form_in tree.now) }
{
    let decls = tree.decls.as_slice();
    let ports = task_ports(decls);
    Ok(Form {
        module: Text::from_str(alloc, tree.name.text.as_str())?,
        sensor: Text::from_str(alloc, sensor_name(decls))?,
        task: Text::from_str(alloc, task_name(decls))?,
        worst: task_worst(decls),
        input: Text::from_str(alloc, port_name(ports, 0))?,
        output: Text::from_str(alloc, port_name(ports, 1))?,
        initial: port_initial(ports, 1),
        mode: Text::from_str(alloc, mode_name(decls))?,
        period: mode_period(decls),
    })
}
